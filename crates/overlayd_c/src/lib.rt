//! The engine for C: one function for each call of `overlayd.h`, each of which does what the
//! function of `ov_embedded` that it calls promises.
#![tactic(auto)]

ghost use Rattle.std.specs.Prelude.{◌≡◌, pos};
ghost use Rattle.std.specs.declared.option.Option.TheVariants.{None};
ghost use Rattle.overlayd_c.specs.Numbers.{AreNamed, Counts, IsAttached, IsBegun, IsCalled, IsDetached, IsDropped, IsListed, IsMade, IsMadeOn, IsPlaced, IsRead, IsRecalled, IsRepeated, IsSaved, IsStepped, IsWritten, Tells, TellsCount, TellsPlace, TellsSaved, error_of, number_of};

use ov_base::Place;
use ov_embedded::{
    Handle, Outcome, Saved, attach_through, begin_through, blob_names, call_through,
    detach_through, drop_through, layer_through, mount_on_through, mount_through, place_through,
    read_through, reply_through, save_through, saved_through, step_through, unmount_through,
    write_through,
};
use std::alloc::Global;

/// The version of the calls: 1.0.
const VERSION: u32 = 0x0001_0000;

// The number by which C is told an outcome: `enum ovl_status`.
fn status_of(outcome: Outcome) -> i32
    ensures { result ≡ pos (number_of outcome) }
{
    match outcome {
        Outcome::Done => 0,
        Outcome::Unwritten => 1,
        Outcome::NotMounted => 2,
        Outcome::NoClient => 3,
        Outcome::NoFrame => 4,
        Outcome::Leaves => 5,
        Outcome::Ended => 6,
        Outcome::NoMemory => 7,
        Outcome::Full => 8,
        Outcome::Fault => 9,
        Outcome::Mounted => 10,
        Outcome::More => 11,
        Outcome::NoJob => 12,
        Outcome::Refused(_) => 13,
        Outcome::NoUpper => 14,
        Outcome::Upper => 15,
        Outcome::NoLayer => 16,
    }
}

// The error number of an outcome, or 0.
fn error_in(outcome: Outcome) -> u8
    ensures { result ≡ error_of outcome }
{
    match outcome {
        Outcome::Refused(errno) => errno.number(),
        Outcome::Done
        | Outcome::Unwritten
        | Outcome::NotMounted
        | Outcome::NoClient
        | Outcome::NoFrame
        | Outcome::Leaves
        | Outcome::Ended
        | Outcome::NoMemory
        | Outcome::Full
        | Outcome::Fault
        | Outcome::Mounted
        | Outcome::More
        | Outcome::NoJob
        | Outcome::NoUpper
        | Outcome::Upper
        | Outcome::NoLayer => 0,
    }
}

// Tells a number, where there is one.
fn told(given: Result<u64, Outcome>, number: &mut u64) -> i32
    ensures { Tells given number.old number.new result }
{
    match given {
        Ok(it) => {
            *number = it;
            status_of(Outcome::Done)
        }
        Err(outcome) => status_of(outcome),
    }
}

// Tells how many bytes were moved, or the number of why none were.
fn counted(moved: Result<usize, Outcome>, count: &mut usize, error: &mut u8) -> i32
    ensures { Counts moved count.new error.new result }
{
    match moved {
        Ok(it) => {
            *count = it;
            *error = 0;
            status_of(Outcome::Done)
        }
        Err(outcome) => {
            *count = 0;
            *error = error_in(outcome);
            status_of(outcome)
        }
    }
}

// Tells a place, or the number of why there is none.
fn placed(place: Result<Place, Outcome>, layer: &mut usize, key: &mut usize, error: &mut u8) -> i32
    ensures { TellsPlace place layer.old layer.new key.old key.new error.new result }
{
    match place {
        Ok(it) => {
            *layer = it.layer;
            *key = it.key;
            *error = 0;
            status_of(Outcome::Done)
        }
        Err(outcome) => {
            *error = error_in(outcome);
            status_of(outcome)
        }
    }
}

// Tells how long a saved upper is and what was left out, or that nothing was saved.
fn saved(saved: Result<Saved, Outcome>, length: &mut usize, left_out: &mut u64) -> i32
    ensures { TellsSaved saved length.new left_out.new result }
{
    match saved {
        Ok(it) => {
            *length = it.length;
            *left_out = it.left_out;
            status_of(Outcome::Done)
        }
        Err(outcome) => {
            *length = 0;
            *left_out = 0;
            status_of(outcome)
        }
    }
}

// Tells how many bytes of a text are there.
fn recalled(piece: Result<usize, Outcome>, count: &mut usize) -> i32
    ensures { TellsCount piece count.new result }
{
    match piece {
        Ok(it) => {
            *count = it;
            status_of(Outcome::Done)
        }
        Err(outcome) => {
            *count = 0;
            status_of(outcome)
        }
    }
}

/// The version of these calls: the major number, and the minor one in 16 bits.
#[unsafe(no_mangle)]
pub extern "C" fn ovl_version() -> u32 {
    VERSION
}

/// Mounts what a manifest tells, whose blobs' bytes stand one behind the other and have these
/// lengths. The text of a fault goes into the room, as far as that goes, and its length is told.
#[unsafe(no_mangle)]
pub extern "C" fn ovl_mount_manifest(
    alloc: Global,
    mount: &mut Handle,
    manifest: &[u8],
    blobs: &[u8],
    lengths: &[usize],
    keys: &[u8; 16],
    room: &mut [u8],
    length: &mut usize,
) -> i32
    ensures { IsMade manifest.now blobs.now lengths.now mount.old.mounted mount.new.mounted result }
{
    let (outcome, count) = mount_through(alloc, mount, manifest, blobs, lengths, keys, room);
    *length = count;
    status_of(outcome)
}

/// Mounts what a manifest tells with a saved upper in the place of its own, as `ovl_mount_manifest`
/// does.
#[unsafe(no_mangle)]
pub extern "C" fn ovl_mount_upper(
    alloc: Global,
    mount: &mut Handle,
    upper: &[u8],
    manifest: &[u8],
    blobs: &[u8],
    lengths: &[usize],
    keys: &[u8; 16],
    room: &mut [u8],
    length: &mut usize,
) -> i32
    ensures { IsMadeOn upper.now manifest.now blobs.now lengths.now mount.old.mounted
        mount.new.mounted result }
{
    let (outcome, count) = mount_on_through(
        alloc, mount, upper, manifest, blobs, lengths, keys, room,
    );
    *length = count;
    status_of(outcome)
}

/// Tells the names of the files whose bytes are a manifest's blobs, each with a zero byte behind
/// it, and how many they are. The text goes into the room, as far as that goes, and its length is told.
#[unsafe(no_mangle)]
pub extern "C" fn ovl_blob_names(
    alloc: Global,
    manifest: &[u8],
    room: &mut [u8],
    length: &mut usize,
    count: &mut usize,
) -> i32
    ensures { AreNamed manifest.now room.old room.new length.new count.new result }
{
    let (outcome, told, names) = blob_names(alloc, manifest, room);
    *length = told;
    *count = names;
    status_of(outcome)
}

/// Ends a mount, if there is one: all that it has is freed.
#[unsafe(no_mangle)]
pub extern "C" fn ovl_unmount(alloc: Global, mount: &mut Handle)
    ensures { mount.new.mounted ≡ None }
{
    unmount_through(alloc, mount);
}

/// Attaches a client, whose number is told.
#[unsafe(no_mangle)]
pub extern "C" fn ovl_attach(alloc: Global, mount: &mut Handle, client: &mut u64) -> i32
    ensures { IsAttached mount.old.mounted mount.new.mounted client.old client.new result }
{
    told(attach_through(alloc, mount), client)
}

/// Detaches a client, which closes what it has open; the place of that is told.
#[unsafe(no_mangle)]
pub extern "C" fn ovl_detach(alloc: Global, mount: &mut Handle, client: u64, place: &mut u64) -> i32
    ensures { IsDetached client mount.old.mounted mount.new.mounted place.old place.new result }
{
    told(detach_through(alloc, mount, client), place)
}

/// Makes the call of a client that the frame of a request asks for. The frame of the answer goes
/// into the room, as far as that goes, and its length is told.
#[unsafe(no_mangle)]
pub extern "C" fn ovl_call(
    alloc: Global,
    mount: &mut Handle,
    client: u64,
    request: &[u8],
    room: &mut [u8],
    length: &mut usize,
) -> i32
    ensures { IsCalled client request.now mount.old.mounted mount.new.mounted room.old room.new
        length.new result }
{
    let (outcome, count) = call_through(alloc, mount, client, request, room);
    *length = count;
    status_of(outcome)
}

/// Gives the frame of the last answer once more, as `ovl_call` does.
#[unsafe(no_mangle)]
pub extern "C" fn ovl_reply(
    alloc: Global,
    mount: &mut Handle,
    room: &mut [u8],
    length: &mut usize,
) -> i32
    ensures { IsRepeated mount.old.mounted mount.new.mounted room.old room.new length.new result }
{
    let (outcome, count) = reply_through(alloc, mount, room);
    *length = count;
    status_of(outcome)
}

/// Takes a call as a job, whose number is told. A path text that is refused is answered, as
/// `ovl_call` does.
#[unsafe(no_mangle)]
pub extern "C" fn ovl_begin(
    alloc: Global,
    mount: &mut Handle,
    client: u64,
    request: &[u8],
    job: &mut u64,
    room: &mut [u8],
    length: &mut usize,
) -> i32
    ensures { IsBegun client request.now mount.old.mounted mount.new.mounted job.new room.old
        room.new length.new result }
{
    let (outcome, number, count) = begin_through(alloc, mount, client, request, room);
    *job = number;
    *length = count;
    status_of(outcome)
}

/// Makes one step of a job. Where it was the last, its answer is given as `ovl_call` does.
#[unsafe(no_mangle)]
pub extern "C" fn ovl_step(
    alloc: Global,
    mount: &mut Handle,
    job: u64,
    room: &mut [u8],
    length: &mut usize,
) -> i32
    ensures { IsStepped job mount.old.mounted mount.new.mounted room.old room.new length.new
        result }
{
    let (outcome, count) = step_through(alloc, mount, job, room);
    *length = count;
    status_of(outcome)
}

/// Gives up a job.
#[unsafe(no_mangle)]
pub extern "C" fn ovl_drop(alloc: Global, mount: &mut Handle, job: u64) -> i32
    ensures { IsDropped job mount.old.mounted mount.new.mounted result }
{
    status_of(drop_through(alloc, mount, job))
}

/// Reads from where a client's descriptor stands into the room; how many bytes are there is told.
#[unsafe(no_mangle)]
pub extern "C" fn ovl_read(
    alloc: Global,
    mount: &mut Handle,
    client: u64,
    descriptor: u32,
    room: &mut [u8],
    count: &mut usize,
    error: &mut u8,
) -> i32
    ensures { IsRead client descriptor room.old room.new mount.old.mounted mount.new.mounted
        count.new error.new result }
{
    counted(
        read_through(alloc, mount, client, descriptor, room),
        count,
        error,
    )
}

/// Writes bytes where a client's descriptor stands; how many were written is told.
#[unsafe(no_mangle)]
pub extern "C" fn ovl_write(
    alloc: Global,
    mount: &mut Handle,
    client: u64,
    descriptor: u32,
    bytes: &[u8],
    count: &mut usize,
    error: &mut u8,
) -> i32
    ensures { IsWritten client descriptor bytes.now mount.old.mounted mount.new.mounted count.new
        error.new result }
{
    counted(
        write_through(alloc, mount, client, descriptor, bytes),
        count,
        error,
    )
}

/// Tells the layer and the key of what a path shows.
#[unsafe(no_mangle)]
pub extern "C" fn ovl_place(
    alloc: Global,
    mount: &mut Handle,
    path: &[u8],
    layer: &mut usize,
    key: &mut usize,
    error: &mut u8,
) -> i32
    ensures { IsPlaced path.now mount.old.mounted mount.new.mounted layer.old layer.new key.old
        key.new error.new result }
{
    placed(place_through(alloc, mount, path), layer, key, error)
}

/// Saves the upper as a manifest of one layer, as the program does, whose text is kept; its length
/// is told, and how many objects no manifest can say.
#[unsafe(no_mangle)]
pub extern "C" fn ovl_save(
    alloc: Global,
    mount: &mut Handle,
    length: &mut usize,
    left_out: &mut u64,
) -> i32
    ensures { IsSaved mount.old.mounted mount.new.mounted length.new left_out.new result }
{
    saved(save_through(alloc, mount), length, left_out)
}

/// Keeps the lines of the layer of a number, as the program prints them, in the place of the text
/// that was saved last; their length is told.
#[unsafe(no_mangle)]
pub extern "C" fn ovl_layer(
    alloc: Global,
    mount: &mut Handle,
    layer: u32,
    length: &mut usize,
) -> i32
    ensures { IsListed layer mount.old.mounted mount.new.mounted length.new result }
{
    recalled(layer_through(alloc, mount, layer), length)
}

/// Copies a piece of the text that was saved last, from a byte on, into the room; how many bytes
/// are there is told.
#[unsafe(no_mangle)]
pub extern "C" fn ovl_saved(
    alloc: Global,
    mount: &mut Handle,
    at: usize,
    room: &mut [u8],
    count: &mut usize,
) -> i32
    ensures { IsRecalled at room.old room.new mount.old.mounted mount.new.mounted count.new result }
{
    recalled(saved_through(alloc, mount, at, room), count)
}
