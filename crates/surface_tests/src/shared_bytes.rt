// Files that share their bytes: three mounts of one blob, and two files that are both the whole of
// it. What is written to one of them, none of the others shows.
ghost use Rattle.std.specs.Prelude.{◌∷◌, map};
ghost use Rattle.plain_model.specs.Layers.{AreLayers};
ghost use Rattle.layer_tree.specs.Tree.{layer_of};

use crate::checks::{holds, keys_of};
use crate::cores::{Answer, answer_to, answers, attached, mounted_on, reply, unmount};
use crate::marked_files::open;
use layer_tree::Layer;
use ov_base::{Bytes, Call, Options, Reply};
use ov_wire::{Blob, layers_of, table_of};
use overlay_core::Core;
use program_hooks::{ByTag, ProgramRule};
use std::alloc::Global;
use std::hash::RandomState;
use std::process::Abort;
use watch_table::{Callback, Rule};

// An empty upper over two files, each of the same blob.
const LAYERS: &str = "blobs = ['blob']
layer = [{}, {entry = [
  {path = '/f', kind = 'file', blob = 0},
  {path = '/g', kind = 'file', blob = 0},
]}]";

// More bytes than three pieces have, of which a piece has 65,536.
const SIZE: usize = 200_000;

// Where a mount writes to `/f`, across the end of the first piece, and to `/g`, in the last one.
const EDGE: usize = 65_533;

const LAST: usize = 199_990;

#[test]
fn who_writes_shared_bytes_changes_no_other(rt: HostRuntime) {
    three_mounts::<_, ByTag, ProgramRule>(&rt, rt.alloc(), keys_of(&rt));
}

fn three_mounts<A: Abort, F: Callback + Copy, H: Rule>(rt: &A, alloc: Global, keys: RandomState) {
    let blobs = one_blob(rt, alloc);
    let mut first: Core<F, H> = mount(rt, alloc, keys, blobs.as_slice());
    let mut second: Core<F, H> = mount(rt, alloc, keys, blobs.as_slice());
    let mut third: Core<F, H> = mount(rt, alloc, keys, blobs.as_slice());
    all_write(rt, alloc, &mut first, &mut second, &mut third);
    unmount(first);
    unmount(second);
    unmount(third);
}

// Each mount writes its own digits; then each shows these, and else what the blob had.
fn all_write<F: Callback + Copy, H: Rule>(
    rt: &impl Abort,
    alloc: Global,
    first: &mut Core<F, H>,
    second: &mut Core<F, H>,
    third: &mut Core<F, H>,
) {
    writes(rt, alloc, first, b"111111");
    writes(rt, alloc, second, b"222222");
    writes(rt, alloc, third, b"333333");
    shows(rt, alloc, first, b"111111");
    shows(rt, alloc, second, b"222222");
    shows(rt, alloc, third, b"333333");
}

// Writes these bytes to both files, at different places; who had opened one before sees the old
// bytes.
fn writes<F: Callback + Copy, H: Rule>(
    rt: &impl Abort,
    alloc: Global,
    core: &mut Core<F, H>,
    bytes: &[u8],
) {
    let client = attached(rt, core, Vec::new(alloc));
    let before = open(rt, alloc, core, client, "/f", false);
    write_at(rt, alloc, core, client, ("/f", EDGE), bytes);
    write_at(rt, alloc, core, client, ("/g", LAST), bytes);
    let old = numbered(rt, alloc, EDGE, bytes.len());
    reads(rt, core, client, (before, EDGE), old.as_slice());
}

// Both files show these bytes where they were written, and everything else as it was.
fn shows<F: Callback + Copy, H: Rule>(
    rt: &impl Abort,
    alloc: Global,
    core: &mut Core<F, H>,
    bytes: &[u8],
) {
    let client = attached(rt, core, Vec::new(alloc));
    shows_in(rt, alloc, core, client, ("/f", EDGE, LAST), bytes);
    shows_in(rt, alloc, core, client, ("/g", LAST, EDGE), bytes);
}

// A file shows these bytes at the first place, and what the blob had around it, at the other place
// and at its start.
fn shows_in<F: Callback + Copy, H: Rule>(
    rt: &impl Abort,
    alloc: Global,
    core: &mut Core<F, H>,
    client: u64,
    (path, place, elsewhere): (&str, usize, usize),
    bytes: &[u8],
) {
    let file = open(rt, alloc, core, client, path, false);
    let around = written(rt, alloc, place, bytes);
    let before = place.saturating_sub(5);
    reads(rt, core, client, (file, before), around.as_slice());
    for place in [elsewhere, 0] {
        let old = numbered(rt, alloc, place, bytes.len());
        reads(rt, core, client, (file, place), old.as_slice());
    }
}

// Five bytes of the blob, these, which are written at a place, and four of the blob.
fn written(rt: &impl Abort, alloc: Global, place: usize, bytes: &[u8]) -> Vec<u8> {
    let mut all = numbered(rt, alloc, place.saturating_sub(5), 5);
    all.extend_from_slice(bytes).expect(rt, "memory");
    let after = numbered(rt, alloc, place.saturating_add(bytes.len()), 4);
    all.extend_from_slice(after.as_slice()).expect(rt, "memory");
    all
}

// Writes six bytes to a file at a place.
fn write_at<F: Callback + Copy, H: Rule>(
    rt: &impl Abort,
    alloc: Global,
    core: &mut Core<F, H>,
    client: u64,
    (path, place): (&str, usize),
    bytes: &[u8],
) {
    let descriptor = open(rt, alloc, core, client, path, true);
    let _ = answer_to(rt, core, client, seeking(descriptor, place));
    let bytes = Bytes::from_slice(alloc, bytes).expect(rt, "memory");
    let writing = Call::Write { descriptor, bytes };
    answers(rt, core, client, writing, Answer::Written(6));
}

// A descriptor reads these bytes from a place on.
fn reads<F: Callback + Copy, H: Rule>(
    rt: &impl Abort,
    core: &mut Core<F, H>,
    client: u64,
    (descriptor, place): (u32, usize),
    wanted: &[u8],
) {
    let _ = answer_to(rt, core, client, seeking(descriptor, place));
    let count = u32::try_from(wanted.len()).unwrap_or(0);
    let read = reply(rt, core, client, Call::Read { descriptor, count });
    let same = match &read {
        Reply::Read(bytes) => bytes.as_slice() == wanted,
        _ => false,
    };
    drop(read);
    holds(rt, same, "the bytes of a file");
}

fn seeking(descriptor: u32, place: usize) -> Call {
    Call::Seek {
        descriptor,
        offset: i64::try_from(place).unwrap_or(0),
        whence: 0,
    }
}

// The one blob of the manifest.
fn one_blob(rt: &impl Abort, alloc: Global) -> Vec<Blob> {
    let bytes = numbered(rt, alloc, 0, SIZE);
    let blob = Blob::from_vec(alloc, bytes).expect(rt, "memory");
    let mut blobs = Vec::new(alloc);
    if blobs.push(blob).is_err() {
        panic!(rt; "memory");
    }
    blobs
}

// So many bytes of the blob from a place on: each is what its place leaves by 251.
fn numbered(rt: &impl Abort, alloc: Global, place: usize, count: usize) -> Vec<u8> {
    let mut bytes = Vec::with_capacity(alloc, count).expect(rt, "memory");
    for index in 0..count {
        let byte = (place.wrapping_add(index) % 251) as u8;
        bytes.push(byte).expect(rt, "memory");
    }
    bytes
}

// A mount of the layers.
fn mount<F: Callback + Copy, H: Rule>(
    rt: &impl Abort,
    alloc: Global,
    keys: RandomState,
    blobs: &[Blob],
) -> Core<F, H> {
    let (upper, lowers, options) = layers_on(rt, alloc, keys, blobs);
    mounted_on(rt, alloc, keys, upper, lowers, options)
}

fn layers_on(
    rt: &impl Abort,
    alloc: Global,
    keys: RandomState,
    blobs: &[Blob],
) -> (Layer, Vec<Layer>, Options)
    ensures layers { AreLayers (layer_of result.0 ∷ map layer_of result.1.items) }
{
    let Ok(table) = table_of(alloc, LAYERS.as_bytes()) else {
        panic!(rt; "no manifest");
    };
    match layers_of(alloc, keys, &table, blobs) {
        Ok((upper, lowers, options)) => match upper {
            Some(upper) => (upper, lowers, options),
            None => panic!(rt; "no upper"),
        },
        Err(_) => panic!(rt; "no layers"),
    }
}
