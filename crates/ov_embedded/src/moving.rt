// Bytes of a file, without frames.
ghost use Rattle.std.specs.Prelude.{◌≡◌, ◌≤◌, ◌+◌, ◌<◌, ◌^◌, [], ◌∷◌, length, true};
ghost use Rattle.mount_calls.specs.Reading.{read_reply, KeepsRoom};
ghost use Rattle.ov_base.specs.declared.call.CallOf.TheVariants as call;
ghost use Rattle.ov_frames.specs.declared.answer.Answer.TheVariants.{Replied};
ghost use Rattle.ov_session.specs.declared.exchange.Exchange.TheVariants.{Called};
ghost use Rattle.overlay_core.specs.Views.{core_finished, has_client};
ghost use Rattle.ov_embedded.specs.Calling.{Makes};
ghost use Rattle.ov_embedded.specs.Jobs.{KeepsRest};
ghost use Rattle.ov_embedded.specs.Moving as moving;
ghost use Rattle.ov_embedded.specs.Moving.{IsBarred, ReadsOff, TellsWritten, WritesOff};

use crate::mounted::{FINISHED_MAX, Mounted};
use crate::outcome::Outcome;
use ov_base::{Bytes, Call, Errno, Reply};
use ov_frames::Answer;
use std::alloc::Global;

/// The most bytes that one call moves.
const MOVED_MAX: usize = 65_536;

// How many bytes of so many one call moves.
fn moved(count: usize) -> u32
    ensures moved { result ≡ moving.moved count }
    ensures most { result ≤ count }
{
    if count > MOVED_MAX {
        MOVED_MAX as u32
    } else {
        count as u32
    }
}

// Tells how many bytes were written.
fn told_written(answer: Answer) -> Result<usize, Outcome>
    ensures { TellsWritten answer result }
{
    match answer {
        Answer::Replied { place: _, reply } => match reply {
            Reply::Written(count) => Ok(count as usize),
            Reply::Refused(errno) => Err(Outcome::Refused(errno)),
            Reply::Done
            | Reply::Status(_)
            | Reply::Target(_)
            | Reply::Value(_)
            | Reply::Read(_)
            | Reply::Names(_)
            | Reply::AttributeNames(_)
            | Reply::Descriptor(_)
            | Reply::Place(_)
            | Reply::Watch(_)
            | Reply::Unread(_) => Err(Outcome::Unwritten),
        },
        Answer::NotTaken(_) => Err(Outcome::NoMemory),
    }
}

impl Mounted {
    // Why no call of a client is made, if none is.
    fn call_refusal(&self, client: u64) -> Option<Outcome>
        ensures { IsBarred client self.now result }
    {
        if !self.core.is_attached(client) {
            return Some(Outcome::NoClient);
        }
        if self.core.finished() >= FINISHED_MAX {
            return Some(Outcome::Ended);
        }
        None
    }

    #[tactic(auto, using(crate::proofs::Moves::reads_nothing))]
    /// Reads from where a descriptor stands into some room, and gives how many bytes are there.
    pub(crate) fn read(
        &mut self,
        client: u64,
        descriptor: u32,
        room: &mut [u8],
    ) -> Result<usize, Outcome>
        ensures { ReadsOff client descriptor room.old room.new self.old self.new result }
    {
        if let Some(outcome) = self.call_refusal(client) {
            return Err(outcome);
        }
        let most = moved(room.len());
        match self.read_front(client, descriptor, &mut room[..most as usize]) {
            Ok(count) => Ok(count),
            Err(errno) => Err(Outcome::Refused(errno)),
        }
    }

    // Makes the call `read` for as many bytes as some room has, which go straight there.
    fn read_front(&mut self, client: u64, descriptor: u32, room: &mut [u8]) -> Result<usize, Errno>
        requires attached { has_client self.old.core client ≡ true }
        requires bound { core_finished self.old.core + 1 < 2 ^ 63 }
        ensures made { Makes client self.old.core
            (Called (call.Read descriptor (length room.old))
            (Replied (core_finished self.old.core) (read_reply result room.new)) ∷ [])
            self.new.core }
        ensures rest { KeepsRest self.old self.new }
        ensures room { KeepsRoom result room.old room.new }
    {
        self.core.read_into(client, descriptor, room)
    }

    #[tactic(auto, using(crate::proofs::Moves::writes_nothing, crate::proofs::Moves::writes_short, crate::proofs::Moves::writes))]
    /// Writes these bytes where a descriptor stands, as many as one call moves, and gives how many
    /// were written.
    pub(crate) fn write_bytes(
        &mut self,
        alloc: Global,
        client: u64,
        descriptor: u32,
        bytes: &[u8],
    ) -> Result<usize, Outcome>
        ensures { WritesOff client descriptor bytes.now self.old self.new result }
    {
        if let Some(outcome) = self.call_refusal(client) {
            return Err(outcome);
        }
        let Ok(bytes) = Bytes::from_slice(alloc, &bytes[..moved(bytes.len()) as usize]) else {
            return Err(Outcome::NoMemory);
        };
        let (_, answer) = self.perform(client, Call::Write { descriptor, bytes });
        told_written(answer)
    }
}
