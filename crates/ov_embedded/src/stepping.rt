// Calls in steps.
ghost use Rattle.std.specs.Prelude.{◌≡◌, ◌+◌, ◌<◌, ◌^◌, ◌↔◌, IfSome, IsSomeAnd, IsTrue, None, is_some};
ghost use Rattle.overlay_core.specs.Steps.{without};
ghost use Rattle.overlay_core.specs.Views.{CoreSame, core_finished, core_work};
ghost use Rattle.ov_embedded.specs.Jobs.{KeepsOtherJobs, job_of};
ghost use Rattle.ov_embedded.specs.Stepping.{Begins, DropsJob, IsAdvanced, IsStarted, MayStep, Steps};

use crate::answering::request_in;
use crate::mounted::{FINISHED_MAX, Mounted};
use crate::outcome::Outcome;
use ov_base::{Call, Errno};
use ov_frames::Answer;
use overlay_core::{Job, Standing, Turn};
use std::alloc::Global;

impl Mounted {
    #[tactic(auto, using(crate::proofs::Jobs::begins_refused, crate::proofs::Jobs::begins_started, crate::proofs::Jobs::begins_none))]
    /// Takes the call of a client that a frame asks for as a job, of which no step is made, and
    /// gives its number. A path text that is refused is answered.
    pub(crate) fn begin(&mut self, alloc: Global, client: u64, frame: &[u8]) -> (Outcome, u64)
        ensures { Begins client frame.now self.old self.new result.0 result.1 }
    {
        if !self.core.is_attached(client) {
            return (Outcome::NoClient, 0);
        }
        if self.begun >= FINISHED_MAX {
            return (Outcome::Ended, 0);
        }
        match request_in(alloc, frame) {
            Ok(Ok(call)) => self.start(client, call),
            Ok(Err(errno)) => (self.write(&Answer::NotTaken(errno)), 0),
            Err(outcome) => (outcome, 0),
        }
    }

    // Keeps a job of a call. Out of memory there is none.
    fn start(&mut self, client: u64, call: Call) -> (Outcome, u64)
        requires few { self.old.begun < 2 ^ 62 }
        ensures core { CoreSame self.old.core self.new.core }
        ensures reply { self.new.reply ≡ self.old.reply }
        ensures started { IsStarted self.old client call self.new result.0 result.1 }
    {
        let number = self.begun;
        match self.jobs.insert(number, Job::new(client, call)) {
            Ok(before) => {
                self.begun += 1;
                if let Some(job) = before {
                    drop(self.core.drop_job(job));
                }
                (Outcome::More, number)
            }
            Err(fault) => {
                let (_number, job) = fault.value;
                drop(self.core.drop_job(job));
                (Outcome::NoMemory, 0)
            }
        }
    }

    // Whether a job has steps to make, and its client is attached.
    fn may_step(&self, job: &Job) -> bool
        ensures { IsTrue result ↔ MayStep self.now job.now }
    {
        matches!(job.standing(), Standing::Open) && self.core.is_attached(job.client())
    }

    // Makes one step of a job that is there.
    fn advance(&mut self, number: u64) -> Turn
        requires job { IsSomeAnd (job_of self.old number) (MayStep self.old) }
        requires bound { core_finished self.old.core + 1 < 2 ^ 63 }
        ensures step { IsAdvanced number self.old self.new result }
        ensures others { KeepsOtherJobs self.old self.new number }
        ensures reply { self.new.reply ≡ self.old.reply }
    {
        let job = self.jobs.get_mut(&number).unwrap();
        self.core.advance(job)
    }

    // Takes a job off, if it is there, with what is kept of it. Whether it was.
    fn let_go(&mut self, number: u64) -> bool
        ensures was { result ≡ is_some (job_of self.old number) }
        ensures core { CoreSame self.old.core self.new.core }
        ensures work { IfSome (job_of self.old number) (λ job.
            core_work self.new.core ≡ without (core_work self.old.core) job) }
        ensures gone { job_of self.new number ≡ None }
        ensures others { KeepsOtherJobs self.old self.new number }
        ensures reply { self.new.reply ≡ self.old.reply }
    {
        match self.jobs.remove(&number) {
            Some(job) => {
                drop(self.core.drop_job(job));
                true
            }
            None => false,
        }
    }

    #[tactic(auto, using(crate::proofs::Jobs::steps_done, crate::proofs::Jobs::steps_short, crate::proofs::Jobs::steps_gone, crate::proofs::Jobs::may_there))]
    /// Makes one step of a job. The frame of the answer is kept where it was the last.
    pub(crate) fn step(&mut self, number: u64) -> Outcome
        ensures { Steps number self.old self.new result }
    {
        if self.core.finished() >= FINISHED_MAX {
            return Outcome::Ended;
        }
        let Some(job) = self.jobs.get(&number) else {
            return Outcome::NoJob;
        };
        if !self.may_step(job) {
            self.let_go(number);
            return Outcome::NoClient;
        }
        let place = self.core.finished();
        match self.advance(number) {
            Turn::More => Outcome::More,
            Turn::Done(reply) => {
                self.let_go(number);
                self.write(&Answer::Replied { place, reply })
            }
            Turn::NoMemory => {
                self.let_go(number);
                self.write(&Answer::NotTaken(Errno::ENOMEM))
            }
        }
    }

    #[tactic(auto, using(crate::proofs::Jobs::drops_done, crate::proofs::Jobs::drops_none))]
    /// Gives up a job; nothing that is shown changes.
    pub(crate) fn give_up(&mut self, number: u64) -> Outcome
        ensures { DropsJob number self.old self.new result }
    {
        if self.let_go(number) {
            Outcome::Done
        } else {
            Outcome::NoJob
        }
    }
}
