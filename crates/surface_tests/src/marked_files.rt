// Files of a layer without bytes of their own, whose marks are made by hand: what they show, how they get bytes, and where they are no
// mount.
ghost use Rattle.std.specs.Prelude.{◌∷◌, OnOk, map};
ghost use Rattle.plain_model.specs.Layers.{AreLayers, IsLayer};
ghost use Rattle.layer_tree.specs.Tree.{layer_of};

use crate::checks::{holds, keys_of};
use crate::cores::{Answer, answer_to, answers, attached, mounted_on, refused, reply, unmount};
use crate::fixtures::{are_bytes, flags, path, read};
use layer_tree::{Entry, Layer, Object, ROOT};
use ov_base::{
    Attributes, Bytes, Call, Mode, Name, ObjectKind, Options, Reply, Stat, UserAttributes,
};
use overlay_core::{Core, MountFault, Unmounted};
use program_hooks::{ByTag, ProgramRule};
use std::alloc::Global;
use std::hash::RandomState;
use std::process::Abort;
use std::test::Fail;
use watch_table::{Callback, Rule};

// An upper with a directory.
const UPPER: &str = "layer = [{entry = [
  {path = '/d', kind = 'dir'},
]}, {}]";

// A lower layer with a file of eleven bytes, a directory and a symbolic link.
const LOWER: &str = "layer = [{entry = [
  {path = '/f', kind = 'file', mode = 0o644, text = 'lower bytes'},
  {path = '/e', kind = 'dir'},
  {path = '/s', kind = 'symlink', target = '/f'},
]}, {}]";

const BYTES: &[u8] = b"lower bytes";

// What `/m` shows: the attributes are its own, and the size is that of the lower file.
const MARKED: Stat = Stat {
    kind: ObjectKind::File,
    mode: 0o600,
    uid: 7,
    gid: 8,
    size: 11,
    links: 1,
};

// What `/f` shows.
const UNMARKED: Stat = Stat {
    kind: ObjectKind::File,
    mode: 0o644,
    uid: 0,
    gid: 0,
    size: 11,
    links: 1,
};

// The first layer of a manifest, and its options.
fn layer_in(rt: &impl Abort, alloc: Global, keys: RandomState, manifest: &str) -> (Layer, Options)
    ensures layer { IsLayer (layer_of result.0) }
{
    let (layer, lowers, options) = read(rt, alloc, keys, manifest);
    drop(lowers);
    (layer, options)
}

// The attributes of a file that is made by hand.
fn attributes(rt: &impl Abort, alloc: Global) -> Attributes {
    Attributes {
        mode: Mode::parse(0o600).expect(rt, "a mode"),
        uid: 7,
        gid: 8,
        user: UserAttributes::new(alloc),
    }
}

// Puts a file with this mark at `/m`.
fn put_marked(rt: &impl Abort, alloc: Global, layer: &mut Layer, mark: &str) -> Result<(), Fail>
    requires layer { IsLayer (layer_of layer.old) }
    ensures layer { OnOk result (IsLayer (layer_of layer.new)) }
{
    let name = Name::parse(alloc, b"m")?.expect(rt, "a name");
    let mark = Box::new(alloc, path(rt, alloc, mark))?;
    if !layer.is_directory(ROOT) || layer.entry(ROOT, &name).is_some() {
        return Err(Fail::from("something is there"));
    }
    name.lawful();
    match layer.insert(ROOT, name, Object::Marked(mark, attributes(rt, alloc))) {
        Ok(_) => Ok(()),
        Err(_) => Err(Fail::from("memory")),
    }
}

// A lower layer under an upper.
fn over(rt: &impl Abort, alloc: Global, upper: Layer, lower: Layer) -> (Layer, Vec<Layer>)
    requires upper { IsLayer (layer_of upper) }
    requires lower { IsLayer (layer_of lower) }
    ensures layers { AreLayers (layer_of result.0 ∷ map layer_of result.1.items) }
{
    let mut lowers = Vec::new(alloc);
    match lowers.push(lower) {
        Ok(()) => (upper, lowers),
        Err(_) => panic!(rt; "memory"),
    }
}

// The first layer of a manifest, whose `/m` has this mark, and its options.
fn layer_marked(
    rt: &impl Abort,
    alloc: Global,
    keys: RandomState,
    manifest: &str,
    mark: &str,
) -> (Layer, Options)
    ensures layer { IsLayer (layer_of result.0) }
{
    let (mut layer, options) = layer_in(rt, alloc, keys, manifest);
    match put_marked(rt, alloc, &mut layer, mark) {
        Ok(()) => (layer, options),
        Err(_) => panic!(rt; "no mark"),
    }
}

// The lower layer under an upper whose `/m` has this mark.
fn marked_by(
    rt: &impl Abort,
    alloc: Global,
    keys: RandomState,
    mark: &str,
) -> (Layer, Vec<Layer>, Options)
    ensures layers { AreLayers (layer_of result.0 ∷ map layer_of result.1.items) }
{
    let (lower, _) = layer_in(rt, alloc, keys, LOWER);
    let (upper, options) = layer_marked(rt, alloc, keys, UPPER, mark);
    let (upper, lowers) = over(rt, alloc, upper, lower);
    (upper, lowers, options)
}

// The key of the file at a path.
fn key_at(rt: &impl Abort, alloc: Global, layer: &Layer, text: &str) -> usize {
    match layer.find(&path(rt, alloc, text)) {
        Some(Entry::Object(key)) => key,
        _ => panic!(rt; "no object"),
    }
}

// `/m` has this mark.
fn assert_marked(rt: &impl Abort, alloc: Global, layer: &Layer, mark: &str) {
    let found = layer.mark(key_at(rt, alloc, layer, "/m"));
    let found = found.expect(rt, "a mark");
    holds(rt, found.names() == path(rt, alloc, mark).names(), mark);
}

// A lower layer whose `/m` has a mark, under an upper.
fn over_marked(rt: &impl Abort, alloc: Global, keys: RandomState) -> (Layer, Vec<Layer>, Options)
    ensures layers { AreLayers (layer_of result.0 ∷ map layer_of result.1.items) }
{
    let (lower, _) = layer_marked(rt, alloc, keys, LOWER, "/f");
    let (upper, options) = layer_in(rt, alloc, keys, UPPER);
    let (upper, lowers) = over(rt, alloc, upper, lower);
    (upper, lowers, options)
}

#[test]
fn a_lower_layer_with_a_mark_is_no_mount(rt: HostRuntime) {
    let alloc = rt.alloc();
    let keys = keys_of(&rt);
    let (upper, lowers, options) = over_marked(&rt, alloc, keys);
    let back = refused::<ByTag, ProgramRule>(&rt, alloc, keys, upper, lowers, options);
    hands_back_marked(&rt, alloc, &back);
    drop(back);
}

// The layers are handed back, the lower one with its mark.
fn hands_back_marked(rt: &impl Abort, alloc: Global, back: &Unmounted) {
    holds(rt, back.fault == Some(MountFault::BadMetacopy), "the fault");
    let upper = back.upper.as_ref().expect(rt, "an upper");
    has_object(rt, alloc, upper, "/d");
    holds(rt, back.lowers.len() == 1, "one lower");
    assert_marked(rt, alloc, &back.lowers[0], "/f");
}

// The lower layer has nothing at the first three, a directory at the next two and a symbolic link at the last; the upper has a directory at
// the first and the file itself at the second.
#[test]
fn a_mark_that_leads_to_no_lower_file_is_no_mount(rt: HostRuntime) {
    for mark in ["/d", "/m", "/f/n", "/e", "/", "/s"] {
        refuses_mark(&rt, rt.alloc(), keys_of(&rt), mark);
    }
}

fn refuses_mark(rt: &impl Abort, alloc: Global, keys: RandomState, mark: &str) {
    let (upper, lowers, options) = marked_by(rt, alloc, keys, mark);
    let back = refused::<ByTag, ProgramRule>(rt, alloc, keys, upper, lowers, options);
    hands_back(rt, alloc, &back, mark);
    drop(back);
}

// The layers are handed back, the upper with this mark.
fn hands_back(rt: &impl Abort, alloc: Global, back: &Unmounted, mark: &str) {
    holds(rt, back.fault == Some(MountFault::BadMetacopy), mark);
    let upper = back.upper.as_ref().expect(rt, "an upper");
    assert_marked(rt, alloc, upper, mark);
    holds(rt, back.lowers.len() == 1, "one lower");
    has_object(rt, alloc, &back.lowers[0], "/f");
}

// A layer has something at a path.
fn has_object(rt: &impl Abort, alloc: Global, layer: &Layer, text: &str) {
    holds(rt, layer.find(&path(rt, alloc, text)).is_some(), text);
}

// A path shows this.
fn shows<F: Callback + Copy, H: Rule>(
    rt: &impl Abort,
    alloc: Global,
    core: &mut Core<F, H>,
    client: u64,
    text: &str,
    wanted: Stat,
) {
    let call = Call::Stat {
        path: path(rt, alloc, text),
    };
    answers(rt, core, client, call, Answer::Status(wanted));
}

// Opens a file for reading, or else for writing.
pub fn open<F: Callback + Copy, H: Rule>(
    rt: &impl Abort,
    alloc: Global,
    core: &mut Core<F, H>,
    client: u64,
    text: &str,
    writes: bool,
) -> u32 {
    let call = Call::Open {
        path: path(rt, alloc, text),
        flags: flags(writes),
        mode: 0,
    };
    match answer_to(rt, core, client, call) {
        Answer::Descriptor(descriptor) => descriptor,
        _ => panic!(rt; "not opened"),
    }
}

// A file has these bytes and no more.
pub fn assert_bytes<F: Callback + Copy, H: Rule>(
    rt: &impl Abort,
    alloc: Global,
    core: &mut Core<F, H>,
    client: u64,
    text: &str,
    wanted: &[u8],
) {
    let descriptor = open(rt, alloc, core, client, text, false);
    let count = 4_096;
    let read = reply(rt, core, client, Call::Read { descriptor, count });
    let same = match &read {
        Reply::Read(bytes) => bytes.as_slice() == wanted,
        _ => false,
    };
    drop(read);
    holds(rt, same, text);
    let closing = Call::Close { descriptor };
    answers(rt, core, client, closing, Answer::Done);
}

#[test]
fn a_marked_file_shows_lower_bytes_until_it_is_filled(rt: HostRuntime) {
    shows_until_filled::<_, ByTag, ProgramRule>(&rt, rt.alloc(), keys_of(&rt));
}

fn shows_until_filled<A: Abort, F: Callback + Copy, H: Rule>(
    rt: &A,
    alloc: Global,
    keys: RandomState,
) {
    let (upper, lowers, options) = marked_by(rt, alloc, keys, "/f");
    let mut core: Core<F, H> = mounted_on(rt, alloc, keys, upper, lowers, options);
    let client = attached(rt, &mut core, Vec::new(alloc));
    shows_both(rt, alloc, &mut core, client);
    fills(rt, alloc, &mut core, client);
    unmount(core);
}

// A file shows its own attributes and the bytes of the lower file, which shows its own.
fn shows_both<F: Callback + Copy, H: Rule>(
    rt: &impl Abort,
    alloc: Global,
    core: &mut Core<F, H>,
    client: u64,
) {
    shows(rt, alloc, core, client, "/m", MARKED);
    assert_bytes(rt, alloc, core, client, "/m", BYTES);
    let descriptor = open(rt, alloc, core, client, "/m", false);
    let asking = Call::Fstat { descriptor };
    answers(rt, core, client, asking, Answer::Status(MARKED));
    assert_marked(rt, alloc, core.layers().upper(), "/f");
    shows(rt, alloc, core, client, "/f", UNMARKED);
}

// An open for writing gives a file its bytes, and keeps its attributes; what is written isn't seen in the lower file.
fn fills<F: Callback + Copy, H: Rule>(
    rt: &impl Abort,
    alloc: Global,
    core: &mut Core<F, H>,
    client: u64,
) {
    let descriptor = open(rt, alloc, core, client, "/m", true);
    assert_filled(rt, alloc, core.layers().upper());
    shows(rt, alloc, core, client, "/m", MARKED);
    assert_bytes(rt, alloc, core, client, "/m", BYTES);
    let bytes = Bytes::from_slice(alloc, b"LOWER").expect(rt, "memory");
    let writing = Call::Write { descriptor, bytes };
    answers(rt, core, client, writing, Answer::Written(5));
    assert_bytes(rt, alloc, core, client, "/m", b"LOWER bytes");
    shows(rt, alloc, core, client, "/m", MARKED);
    assert_bytes(rt, alloc, core, client, "/f", BYTES);
}

// `/m` has bytes of its own, and no mark.
fn assert_filled(rt: &impl Abort, alloc: Global, upper: &Layer) {
    let key = key_at(rt, alloc, upper, "/m");
    let same = are_bytes(rt, alloc, upper.own(key), BYTES);
    holds(rt, same, "bytes of its own");
    holds(rt, upper.mark(key).is_none(), "no mark");
}
