// A mount with the frame of the last answer.
ghost use Rattle.std.specs.Prelude.{◌≡◌, ◌+◌, ◌<◌, ◌^◌, ◌∷◌, [], true};
ghost use Rattle.ov_session.specs.declared.exchange.Exchange.TheVariants.{Called};
ghost use Rattle.overlay_core.specs.Views.{CoreSame, core_finished, has_client};
ghost use Rattle.ov_embedded.specs.Attending.{Attends, Departs};
ghost use Rattle.ov_embedded.specs.Calling.{Makes};
ghost use Rattle.ov_embedded.specs.Jobs.{KeepsRest};
ghost use Rattle.ov_embedded.specs.Mounting.{IsFresh};

use crate::outcome::Outcome;
use ov_base::{Call, Errno};
use ov_frames::Answer;
use overlay_core::{Core, Job, Turn};
use program_hooks::{ByTag, ProgramRule, hooks_by_slot};
use std::alloc::Global;
use std::collections::BTreeMap;

/// Where so much was finished, no call is made and nobody is attached, so that each detach can be
/// counted.
pub(crate) const FINISHED_MAX: u64 = 1 << 62;

/// A mount whose clients come with the program's hooks, the frame of the last answer, the calls
/// that are made in steps, by numbers, and the upper that was saved last. It keeps no history, and
/// answers calls without end.
pub struct Mounted {
    pub(crate) core: Core<ByTag, ProgramRule>,
    pub(crate) reply: Vec<u8>,
    pub(crate) jobs: BTreeMap<u64, Job>,
    // How many jobs were begun, which is the next one's number.
    pub(crate) begun: u64,
    // The text of the upper that was saved last.
    pub(crate) saved: Vec<u8>,
}

impl Drop for Mounted {
    fn drop(self) {
        drop(self.end());
    }
}

impl Mounted {
    /// A mount on which nothing was done yet.
    pub(crate) fn of(alloc: Global, core: Core<ByTag, ProgramRule>) -> Mounted
        ensures core { result.core ≡ core }
        ensures fresh { IsFresh result }
    {
        Mounted {
            core,
            reply: Vec::new(alloc),
            jobs: BTreeMap::new(alloc),
            begun: 0,
            saved: Vec::new(alloc),
        }
    }

    // Gives up the jobs, and gives the core back.
    fn end(self) -> Core<ByTag, ProgramRule>
        ensures { CoreSame self.core result }
    {
        let Mounted {
            mut core,
            reply,
            mut jobs,
            begun: _,
            saved,
        } = self;
        'jobs: while let Some((_number, job)) = jobs.pop_first() {
            drop(core.drop_job(job));
        }
        jobs.destroy_empty();
        drop(reply);
        drop(saved);
        core
    }

    #[tactic(auto, using(crate::proofs::Clients::goes_by_tags, crate::proofs::Clients::is_full))]
    /// Attaches a client with the program's hooks, and gives its number.
    pub(crate) fn attach(&mut self, alloc: Global) -> Result<u64, Outcome>
        ensures { Attends self.old self.new result }
    {
        if self.core.finished() >= FINISHED_MAX {
            return Err(Outcome::Ended);
        }
        let Ok(hooks) = hooks_by_slot(alloc) else {
            return Err(Outcome::NoMemory);
        };
        match self.core.attach(hooks) {
            Ok(client) => Ok(client),
            Err(refused) => match refused.errno {
                Errno::ENFILE => Err(Outcome::Full),
                _ => Err(Outcome::NoMemory),
            },
        }
    }

    /// Detaches a client, which closes what it has open, and gives the place of that.
    pub(crate) fn detach(&mut self, client: u64) -> Result<u64, Outcome>
        ensures { Departs client self.old self.new result }
    {
        if !self.core.is_attached(client) {
            return Err(Outcome::NoClient);
        }
        let place = self.core.finished();
        if place > FINISHED_MAX + 64 {
            return Err(Outcome::Ended);
        }
        let _ = self.core.detach(client);
        Ok(place)
    }

    // Makes a call, unless memory runs out, and hands it back.
    pub(crate) fn perform(&mut self, client: u64, call: Call) -> (Call, Answer)
        requires attached { has_client self.old.core client ≡ true }
        requires bound { core_finished self.old.core + 1 < 2 ^ 63 }
        ensures call { result.0 ≡ call }
        ensures made { Makes client self.old.core (Called call result.1 ∷ []) self.new.core }
        ensures rest { KeepsRest self.old self.new }
    {
        let place = self.core.finished();
        let mut job = Job::new(client, call);
        match self.core.complete(&mut job) {
            Turn::Done(reply) => (job.into_call(), Answer::Replied { place, reply }),
            Turn::NoMemory => (job.into_call(), Answer::NotTaken(Errno::ENOMEM)),
            Turn::More => unreachable!(),
        }
    }
}
