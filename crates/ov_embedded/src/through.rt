// What is asked of what a handle holds.
ghost use Rattle.std.specs.Prelude.{◌≡◌, Err, IfErr, IfOk};
ghost use Rattle.std.specs.declared.option.Option.TheVariants.{None};
ghost use Rattle.ov_embedded.specs.Attending.{Attends, Departs};
ghost use Rattle.ov_embedded.specs.Calling.{Comes, IsAgain, IsShown};
ghost use Rattle.ov_embedded.specs.Mounting.{HasNoMount, IsFresh, IsMounted, IsToldAs, MountsAs, MountsInto};
ghost use Rattle.ov_embedded.specs.Through.{Through};
ghost use Rattle.ov_embedded.specs.declared.outcome.Outcome.TheVariants as outcome;

use crate::copying::copy_into;
use crate::given_keys::keys_of;
use crate::handle::Handle;
use crate::manifest::Unmountable;
use crate::mounted::Mounted;
use crate::outcome::Outcome;
use overlay_core::Core;
use program_hooks::{ByTag, ProgramRule};
use std::alloc::Global;

// The mount of a manifest, on the heap.
fn boxed(
    alloc: Global,
    keys: &[u8; 16],
    manifest: &[u8],
    blobs: &[u8],
    lengths: &[usize],
) -> Result<Box<Mounted>, Unmountable>
    ensures mounted { IfOk result (λ m.
        IsMounted manifest.now blobs.now lengths.now m.value.core) }
    ensures fresh { IfOk result (λ m. IsFresh m.value) }
    ensures refused { IfErr result (HasNoMount manifest.now blobs.now lengths.now) }
{
    let Ok(keys) = keys_of(keys) else {
        return Err(Unmountable::Memory);
    };
    let mounted = Mounted::new(alloc, keys, manifest, blobs, lengths)?;
    Ok(Box::new(alloc, mounted)?)
}

/// Tells why there is no mount, with a text in some room, as far as that goes.
pub(crate) fn told(alloc: Global, why: &Unmountable, room: &mut [u8]) -> (Outcome, usize)
    ensures { IsToldAs why.now result.0 }
{
    match why.text(alloc) {
        Ok(text) => (why.outcome(), copy_into(text.as_bytes(), room)),
        Err(_) => (Outcome::NoMemory, 0),
    }
}

#[tactic(auto, using(crate::proofs::Handled::mounts_kept, crate::proofs::Handled::mounts_made, crate::proofs::Handled::mounts_nothing))]
/// Mounts what a manifest tells, whose blobs' bytes stand one behind the other and have these
/// lengths; directories hash names by these keys. Where it is at fault a text of that goes into
/// some room, as far as that goes, and its length is told. A handle that holds a mount keeps it.
pub fn mount_through(
    alloc: Global,
    handle: &mut Handle,
    manifest: &[u8],
    blobs: &[u8],
    lengths: &[usize],
    keys: &[u8; 16],
    room: &mut [u8],
) -> (Outcome, usize)
    ensures { MountsInto manifest.now blobs.now lengths.now handle.old.mounted handle.new.mounted
        result.0 }
{
    if let Some(mounted) = handle.take(alloc) {
        *handle = Handle::of(mounted);
        return (Outcome::Mounted, 0);
    }
    match boxed(alloc, keys, manifest, blobs, lengths) {
        Ok(mounted) => {
            *handle = Handle::of(mounted);
            (Outcome::Done, 0)
        }
        Err(why) => told(alloc, &why, room),
    }
}

#[tactic(auto, using(crate::proofs::Handled::kept_as, crate::proofs::Handled::made_as, crate::proofs::Handled::nothing_as))]
/// Mounts a core that was made of layers, without a manifest, else as `mount_through` does.
pub fn mount_core_through(
    alloc: Global,
    handle: &mut Handle,
    core: Core<ByTag, ProgramRule>,
) -> Outcome
    ensures { MountsAs (λ m. m.core ≡ core) (λ why. ⊥) handle.old.mounted handle.new.mounted
        result }
{
    if let Some(mounted) = handle.take(alloc) {
        *handle = Handle::of(mounted);
        return Outcome::Mounted;
    }
    match Box::new(alloc, Mounted::of(alloc, core)) {
        Ok(mounted) => {
            *handle = Handle::of(mounted);
            Outcome::Done
        }
        Err(_) => Outcome::NoMemory,
    }
}

/// Ends a mount, if there is one: all that it has is freed.
pub fn unmount_through(alloc: Global, handle: &mut Handle)
    ensures { handle.new.mounted ≡ None }
{
    *handle = Handle::empty(alloc);
}

/// Attaches a client with the program's hooks, and gives its number.
pub fn attach_through(alloc: Global, handle: &mut Handle) -> Result<u64, Outcome>
    ensures { Through (Err outcome.NotMounted) Attends handle.old.mounted handle.new.mounted
        result }
{
    let Some(mut mounted) = handle.take(alloc) else {
        return Err(Outcome::NotMounted);
    };
    let attached = mounted.attach(alloc);
    *handle = Handle::of(mounted);
    attached
}

/// Detaches a client, which closes what it has open, and gives the place of that.
pub fn detach_through(alloc: Global, handle: &mut Handle, client: u64) -> Result<u64, Outcome>
    ensures { Through (Err outcome.NotMounted) (Departs client) handle.old.mounted
        handle.new.mounted result }
{
    let Some(mut mounted) = handle.take(alloc) else {
        return Err(Outcome::NotMounted);
    };
    let detached = mounted.detach(client);
    *handle = Handle::of(mounted);
    detached
}

#[tactic(auto, using(crate::proofs::Handled::shown_some, crate::proofs::Handled::shown_none))]
/// Makes a call on what a handle holds, and copies the frame of the answer into some room, as far
/// as that goes. Its length is told in any case.
pub fn call_through(
    alloc: Global,
    handle: &mut Handle,
    client: u64,
    frame: &[u8],
    room: &mut [u8],
) -> (Outcome, usize)
    ensures comes { Through outcome.NotMounted (Comes client frame.now) handle.old.mounted
        handle.new.mounted result.0 }
    ensures shown { IsShown result.0 handle.new.mounted room.old room.new result.1 }
{
    let Some(mut mounted) = handle.take(alloc) else {
        return (Outcome::NotMounted, 0);
    };
    let outcome = mounted.call(alloc, client, frame);
    let length = mounted.show(outcome, room);
    *handle = Handle::of(mounted);
    (outcome, length)
}

#[tactic(auto, using(crate::proofs::Handled::shown_some, crate::proofs::Handled::shown_none))]
/// Copies the frame of the last answer into some room once more; there is none before the first
/// call.
pub fn reply_through(alloc: Global, handle: &mut Handle, room: &mut [u8]) -> (Outcome, usize)
    ensures same { Through outcome.NotMounted IsAgain handle.old.mounted handle.new.mounted
        result.0 }
    ensures shown { IsShown result.0 handle.new.mounted room.old room.new result.1 }
{
    let Some(mounted) = handle.take(alloc) else {
        return (Outcome::NotMounted, 0);
    };
    let length = mounted.show(Outcome::Done, room);
    *handle = Handle::of(mounted);
    (Outcome::Done, length)
}
