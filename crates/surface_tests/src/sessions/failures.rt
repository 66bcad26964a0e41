// Each read and each write that fails once: the session ends by it, though the next would do well, and another client, which watches what
// the session has open, hears once that it is closed.
use super::devices::{Pieces, Taker};
use super::rows::{replies_to, requests};
use super::shaky::Once;
use super::{serve, wrote};
use crate::checks::{counts, holds, keys_of};
use crate::cores::{Answer, answers, attached, mounted, reply, unmount};
use crate::fixtures::{flags, path};
use ov_base::{Call, Reply};
use ov_session::Ending;
use overlay_core::Core;
use program_hooks::hooks_by_slot;
use std::alloc::Global;
use std::hash::RandomState;
use std::io::{Read, Write};
use std::process::Abort;
use watch_table::{Callback, Hook, Rule};

const FILE: &str = "layer = [{}, {entry = [{path = '/f', kind = 'file', text = 'ab'}]}]";

/// The bit that tells that what was open for reading alone is closed.
const CLOSE_NOWRITE: u32 = 0x10;

/// Entries of the history before those of a session that is alone: the other client, its watch, and what the session has open.
const ENTRIES: u8 = 3;

// The first client watches the file; the other has it open.
fn watched_and_open<F: Callback + Copy, H: Rule>(
    rt: &impl Abort,
    alloc: Global,
    core: &mut Core<F, H>,
    hooks: Vec<Hook<F, H>>,
) -> (u64, u64) {
    let watcher = attached(rt, core, hooks);
    let watched = Call::Arm {
        slot: 0,
        path: path(rt, alloc, "/f"),
        mask: CLOSE_NOWRITE,
    };
    answers(rt, core, watcher, watched, Answer::Watch(1));
    let client = attached(rt, core, Vec::new(alloc));
    let opened = Call::Open {
        path: path(rt, alloc, "/f"),
        flags: flags(false),
        mode: 0,
    };
    answers(rt, core, client, opened, Answer::Descriptor(0));
    (watcher, client)
}

// A session that has ended leaves no job and no temp; the other client hears of its one descriptor.
fn is_left<F: Callback + Copy, H: Rule>(
    rt: &impl Abort,
    core: &mut Core<F, H>,
    watcher: u64,
    client: u64,
) {
    counts(rt, core.temps(), 0, "temps");
    counts(rt, core.open_jobs(client), 0, "open jobs");
    let Reply::Unread(notices) = reply(rt, core, watcher, Call::TakeNotices { count: 9 }) else {
        panic!(rt; "no notices");
    };
    counts(rt, notices.as_slice().len(), 1, "notices");
    for told in notices.as_slice() {
        holds(
            rt,
            told.watch == 1 && told.cookie == 0,
            "the watch of the file",
        );
        holds(
            rt,
            told.mask == CLOSE_NOWRITE && told.name.is_none(),
            "the close",
        );
    }
}

// A session whose client has a file open that another watches ends so; if not, the number is told.
fn ends<F: Callback + Copy, H: Rule, I: Read, O: Write>(
    rt: &impl Abort,
    alloc: Global,
    keys: RandomState,
    hooks: Vec<Hook<F, H>>,
    (reader, writer): (&mut I, &mut O),
    (wanted, number): (Ending, usize),
) {
    let mut core: Core<F, H> = mounted(rt, alloc, keys, FILE);
    let (watcher, client) = watched_and_open(rt, alloc, &mut core, hooks);
    let (end, session, core) = serve(rt, alloc, core, client, reader, writer);
    drop(session);
    let mut core = core;
    is_left(rt, &mut core, watcher, client);
    unmount(core);
    assert!(rt; end == wanted, "another end: {number}");
}

// The requests that were whole before are answered.
#[test]
fn a_read_fails(rt: HostRuntime) {
    let alloc = rt.alloc();
    let keys = keys_of(&rt);
    let bytes = requests(&rt, alloc);
    for reads in 0..bytes.len() {
        let hooks = hooks_by_slot(alloc).expect(&rt, "memory");
        let mut reader = Once::new(Pieces::most(bytes.as_slice(), 1), reads);
        let mut writer = Taker::new(alloc);
        let devices = (&mut reader, &mut writer);
        ends(&rt, alloc, keys, hooks, devices, (Ending::Read, reads));
        let replies = replies_to(&rt, alloc, reads, ENTRIES);
        wrote(&rt, writer.taken.as_slice(), replies.as_slice(), reads);
    }
}

// What was written is a beginning of the replies.
#[test]
fn a_write_fails(rt: HostRuntime) {
    let alloc = rt.alloc();
    let keys = keys_of(&rt);
    let bytes = requests(&rt, alloc);
    let replies = replies_to(&rt, alloc, bytes.len(), ENTRIES);
    for writes in 0..replies.len() {
        let hooks = hooks_by_slot(alloc).expect(&rt, "memory");
        let mut reader = Pieces::cut(bytes.as_slice(), 0);
        let mut writer = Once::new(Taker::single(alloc, replies.len()), writes);
        let devices = (&mut reader, &mut writer);
        ends(&rt, alloc, keys, hooks, devices, (Ending::Write, writes));
        let written = writer.device.taken.as_slice();
        wrote(&rt, written, &replies[..writes], writes);
    }
}
