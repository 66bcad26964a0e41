// One call, from the bytes of its frame to the bytes of its answer's.
ghost use Rattle.std.specs.Prelude.{◌≡◌};
ghost use Rattle.ov_embedded.specs.Calling.{Comes, IsRequestOf, Shows, Writes};
ghost use Rattle.ov_embedded.specs.Jobs.{KeepsJobs};

use crate::copying::copy_into;
use crate::mounted::{FINISHED_MAX, Mounted};
use crate::outcome::Outcome;
use ov_base::{Call, Errno};
use ov_frames::{Answer, Front, append_reply, front_of};
use std::alloc::Global;

/// The call that the bytes ask for, or why its path text is refused.
#[tactic(auto, using(crate::proofs::Calls::begun_is_none, crate::proofs::Calls::bad_is_none, crate::proofs::Calls::short_is_none))]
pub(crate) fn request_in(alloc: Global, bytes: &[u8]) -> Result<Result<Call, Errno>, Outcome>
    ensures { IsRequestOf bytes.now result }
{
    let Ok(front) = front_of(alloc, bytes) else {
        return Err(Outcome::NoMemory);
    };
    match front {
        Front::Whole(request, len) => {
            if len != bytes.len() {
                return Err(Outcome::NoFrame);
            }
            match request.call(alloc) {
                Ok(Some(asked)) => Ok(asked),
                Ok(None) => Err(Outcome::Leaves),
                Err(_) => Err(Outcome::NoMemory),
            }
        }
        Front::Begun | Front::Bad(_) => Err(Outcome::NoFrame),
    }
}

impl Mounted {
    /// Keeps the frame of an answer.
    pub(crate) fn write(&mut self, answer: &Answer) -> Outcome
        ensures jobs { KeepsJobs self.old self.new }
        ensures core { self.new.core ≡ self.old.core }
        ensures frame { Writes self.new.reply.items answer.now result }
    {
        self.reply.clear();
        match append_reply(answer.lent(), &mut self.reply) {
            Ok(()) => Outcome::Done,
            Err(_) => Outcome::Unwritten,
        }
    }

    #[tactic(auto, using(crate::proofs::Calls::comes_of_call, crate::proofs::Calls::comes_of_refusal, crate::proofs::Calls::comes_of_none))]
    /// Makes the call of a client that a frame asks for. The frame of its answer is kept until the
    /// next call.
    pub(crate) fn call(&mut self, alloc: Global, client: u64, frame: &[u8]) -> Outcome
        ensures { Comes client frame.now self.old self.new result }
    {
        if !self.core.is_attached(client) {
            return Outcome::NoClient;
        }
        if self.core.finished() >= FINISHED_MAX {
            return Outcome::Ended;
        }
        match request_in(alloc, frame) {
            Ok(Ok(call)) => {
                let (_, answer) = self.perform(client, call);
                self.write(&answer)
            }
            Ok(Err(errno)) => self.write(&Answer::NotTaken(errno)),
            Err(outcome) => outcome,
        }
    }

    #[tactic(auto, using(crate::proofs::Calls::shows_nothing))]
    /// Copies the frame of the last answer into some room, where that is what came of a call, and
    /// tells how long it is.
    pub(crate) fn show(&self, outcome: Outcome, room: &mut [u8]) -> usize
        ensures { Shows outcome self.now.reply.items room.old room.new result }
    {
        match outcome {
            Outcome::Done => copy_into(self.reply.as_slice(), room),
            _ => 0,
        }
    }
}
