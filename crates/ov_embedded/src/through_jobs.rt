// What is asked of what a handle holds, but for calls at once: calls in steps, bytes without frames,
// and places.
ghost use Rattle.std.specs.Prelude.{◌≡◌, Err};
ghost use Rattle.std.specs.declared.option.Option.TheVariants.{None};
ghost use Rattle.ov_embedded.specs.Calling.{IsShown};
ghost use Rattle.ov_embedded.specs.Moving.{ReadsOff, WritesOff};
ghost use Rattle.ov_embedded.specs.Placing.{Places};
ghost use Rattle.ov_embedded.specs.Stepping.{BeginsJob, DropsJob, Steps};
ghost use Rattle.ov_embedded.specs.Through.{Through};
ghost use Rattle.ov_embedded.specs.declared.outcome.Outcome.TheVariants as outcome;

use crate::handle::Handle;
use crate::outcome::Outcome;
use ov_base::Place;
use std::alloc::Global;

#[tactic(auto, using(crate::proofs::Handled::shown_some, crate::proofs::Handled::shown_none))]
/// Takes a call as a job, which makes no step of it, and gives its number. A path text that is
/// refused is answered, and the frame of that goes into some room, as far as that goes.
pub fn begin_through(
    alloc: Global,
    handle: &mut Handle,
    client: u64,
    frame: &[u8],
    room: &mut [u8],
) -> (Outcome, u64, usize)
    ensures begins { Through (outcome.NotMounted, 0) (BeginsJob client frame.now)
        handle.old.mounted handle.new.mounted (result.0, result.1) }
    ensures shown { IsShown result.0 handle.new.mounted room.old room.new result.2 }
{
    let Some(mut mounted) = handle.take(alloc) else {
        return (Outcome::NotMounted, 0, 0);
    };
    let (outcome, number) = mounted.begin(alloc, client, frame);
    let length = mounted.show(outcome, room);
    *handle = Handle::of(mounted);
    (outcome, number, length)
}

#[tactic(auto, using(crate::proofs::Handled::shown_some, crate::proofs::Handled::shown_none))]
/// Makes one step of a job. Where it was the last, the frame of the answer goes into some room, as
/// far as that goes. Its length is told in any case.
pub fn step_through(
    alloc: Global,
    handle: &mut Handle,
    number: u64,
    room: &mut [u8],
) -> (Outcome, usize)
    ensures steps { Through outcome.NotMounted (Steps number) handle.old.mounted
        handle.new.mounted result.0 }
    ensures shown { IsShown result.0 handle.new.mounted room.old room.new result.1 }
{
    let Some(mut mounted) = handle.take(alloc) else {
        return (Outcome::NotMounted, 0);
    };
    let outcome = mounted.step(number);
    let length = mounted.show(outcome, room);
    *handle = Handle::of(mounted);
    (outcome, length)
}

/// Gives up a job; nothing that is shown changes.
pub fn drop_through(alloc: Global, handle: &mut Handle, number: u64) -> Outcome
    ensures { Through outcome.NotMounted (DropsJob number) handle.old.mounted
        handle.new.mounted result }
{
    let Some(mut mounted) = handle.take(alloc) else {
        return Outcome::NotMounted;
    };
    let outcome = mounted.give_up(number);
    *handle = Handle::of(mounted);
    outcome
}

/// The layer and the key of what the path of a text shows.
pub fn place_through(alloc: Global, handle: &mut Handle, text: &[u8]) -> Result<Place, Outcome>
    ensures { Through (Err outcome.NotMounted) (Places text.now) handle.old.mounted
        handle.new.mounted result }
{
    let Some(mounted) = handle.take(alloc) else {
        return Err(Outcome::NotMounted);
    };
    let found = mounted.place(alloc, text);
    *handle = Handle::of(mounted);
    found
}

/// Reads from where a client's descriptor stands into some room, as many bytes as one call moves,
/// and gives how many are there.
pub fn read_through(
    alloc: Global,
    handle: &mut Handle,
    client: u64,
    descriptor: u32,
    room: &mut [u8],
) -> Result<usize, Outcome>
    ensures reads { Through (Err outcome.NotMounted)
        (ReadsOff client descriptor room.old room.new) handle.old.mounted handle.new.mounted
        result }
    ensures untouched { handle.old.mounted ≡ None → room.new ≡ room.old }
{
    let Some(mut mounted) = handle.take(alloc) else {
        return Err(Outcome::NotMounted);
    };
    let count = mounted.read(client, descriptor, room);
    *handle = Handle::of(mounted);
    count
}

/// Writes these bytes where a client's descriptor stands, as many as one call moves, and gives how
/// many were written.
pub fn write_through(
    alloc: Global,
    handle: &mut Handle,
    client: u64,
    descriptor: u32,
    bytes: &[u8],
) -> Result<usize, Outcome>
    ensures { Through (Err outcome.NotMounted) (WritesOff client descriptor bytes.now)
        handle.old.mounted handle.new.mounted result }
{
    let Some(mut mounted) = handle.take(alloc) else {
        return Err(Outcome::NotMounted);
    };
    let count = mounted.write_bytes(alloc, client, descriptor, bytes);
    *handle = Handle::of(mounted);
    count
}
