// A mount through a handle that goes on with a saved upper, and what is saved of one.
ghost use Rattle.std.specs.Prelude.{◌≡◌, Err, IfErr, IfOk};
ghost use Rattle.std.specs.declared.option.Option.TheVariants.{None};
ghost use Rattle.ov_embedded.specs.Mounting.{GoesNowhere, IsFresh, IsMountedOn, MountsOnInto};
ghost use Rattle.ov_embedded.specs.Saving.{ListsLayer, Recalls, Saves};
ghost use Rattle.ov_embedded.specs.Through.{Through};
ghost use Rattle.ov_embedded.specs.declared.outcome.Outcome.TheVariants as outcome;

use crate::given_keys::keys_of;
use crate::handle::Handle;
use crate::manifest::Unmountable;
use crate::mounted::Mounted;
use crate::outcome::Outcome;
use crate::saving::Saved;
use crate::through::told;
use std::alloc::Global;

// The mount that goes on, on the heap.
fn boxed(
    alloc: Global,
    keys: &[u8; 16],
    saved: &[u8],
    manifest: &[u8],
    blobs: &[u8],
    lengths: &[usize],
) -> Result<Box<Mounted>, Unmountable>
    ensures mounted { IfOk result (λ m.
        IsMountedOn saved.now manifest.now blobs.now lengths.now m.value.core) }
    ensures fresh { IfOk result (λ m. IsFresh m.value) }
    ensures refused { IfErr result
        (GoesNowhere saved.now manifest.now blobs.now lengths.now) }
{
    let Ok(keys) = keys_of(keys) else {
        return Err(Unmountable::Memory);
    };
    let mounted = Mounted::going_on(alloc, keys, saved, manifest, blobs, lengths)?;
    Ok(Box::new(alloc, mounted)?)
}

#[tactic(auto, using(crate::proofs::Handled::goes_on_kept, crate::proofs::Handled::goes_on_made, crate::proofs::Handled::goes_on_nothing))]
/// Mounts what a manifest tells with a saved upper in the place of its own, else as `mount_through`
/// does.
pub fn mount_on_through(
    alloc: Global,
    handle: &mut Handle,
    saved: &[u8],
    manifest: &[u8],
    blobs: &[u8],
    lengths: &[usize],
    keys: &[u8; 16],
    room: &mut [u8],
) -> (Outcome, usize)
    ensures { MountsOnInto saved.now manifest.now blobs.now lengths.now handle.old.mounted
        handle.new.mounted result.0 }
{
    if let Some(mounted) = handle.take(alloc) {
        *handle = Handle::of(mounted);
        return (Outcome::Mounted, 0);
    }
    match boxed(alloc, keys, saved, manifest, blobs, lengths) {
        Ok(mounted) => {
            *handle = Handle::of(mounted);
            (Outcome::Done, 0)
        }
        Err(why) => told(alloc, &why, room),
    }
}

/// Saves the upper as the program does: keeps its text, and tells how long that is.
pub fn save_through(alloc: Global, handle: &mut Handle) -> Result<Saved, Outcome>
    ensures { Through (Err outcome.NotMounted) Saves handle.old.mounted handle.new.mounted result }
{
    let Some(mut mounted) = handle.take(alloc) else {
        return Err(Outcome::NotMounted);
    };
    let saved = mounted.save(alloc);
    *handle = Handle::of(mounted);
    saved
}

/// Keeps the lines of the layer of a number as the program prints them, in the place of the text
/// that was saved last, and gives how long they are.
pub fn layer_through(alloc: Global, handle: &mut Handle, index: u32) -> Result<usize, Outcome>
    ensures { Through (Err outcome.NotMounted) (ListsLayer index) handle.old.mounted
        handle.new.mounted result }
{
    let Some(mut mounted) = handle.take(alloc) else {
        return Err(Outcome::NotMounted);
    };
    let listed = mounted.list_layer(alloc, index);
    *handle = Handle::of(mounted);
    listed
}

/// Copies a piece of the text that was saved last into some room, and gives how many bytes are
/// there.
pub fn saved_through(
    alloc: Global,
    handle: &mut Handle,
    at: usize,
    room: &mut [u8],
) -> Result<usize, Outcome>
    ensures recalls { Through (Err outcome.NotMounted) (Recalls at room.old room.new)
        handle.old.mounted handle.new.mounted result }
    ensures untouched { handle.old.mounted ≡ None → room.new ≡ room.old }
{
    let Some(mounted) = handle.take(alloc) else {
        return Err(Outcome::NotMounted);
    };
    let count = mounted.piece(at, room);
    *handle = Handle::of(mounted);
    Ok(count)
}
