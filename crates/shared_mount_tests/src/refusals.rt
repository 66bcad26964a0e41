// What is refused through a mount that threads share, and what it leaves.
use crate::checks::{add, counts, holds, is_number, keys_of};
use crate::mounts::{
    Shut, Silent, attach, attached, detach, detached, looking, looks, made, reply_in,
};
use crate::opened::{Trial, named};
use locked_history::{Mount, MountName, Open, Past, Receipt, Refused, Session};
use ov_base::{Errno, ObjectKind, Reply, Stat};
use std::alloc::Global;
use std::process::Abort;
use std::sync::Wait;
use watch_table::{AnyAnswer, Callback, Rule};

const THREE: &str = "history = 3\nlayer = [{}, {}]";

const TEN: &str = "history = 10\nlayer = [{}, {}]";

const ROOT: Stat = Stat {
    kind: ObjectKind::Directory,
    mode: 0o755,
    uid: 0,
    gid: 0,
    size: 0,
    links: 1,
};

/// A history of three places has one for the attach, one for its detach, and one for a call: the
/// client comes, makes that call, and goes.
pub fn fill<N: MountName, F: Callback + Drop, R: Rule, H: Wait + Abort>(
    rt: &H,
    alloc: Global,
    mount: &Mount<N, F, R>,
    receipts: &mut Vec<Receipt<N>>,
) {
    let (mut session, came) = attached(rt, mount, Vec::new(alloc));
    add(rt, receipts, came);
    let second = attach(rt, mount, Vec::new(alloc)).err();
    holds(rt, second == Some(Errno::ENOSPC), "no second client");
    let answered = made(rt, mount, &mut session, looking(alloc));
    add(rt, receipts, answered);
    refuses_call(rt, alloc, mount, &mut session, (Refused::Full, 3));
    add(rt, receipts, detached(rt, mount, session));
}

// A session's next call is refused so, and its number is this one still.
fn refuses_call<N: MountName, F: Callback + Drop, R: Rule, H: Wait + Abort>(
    rt: &H,
    alloc: Global,
    mount: &Mount<N, F, R>,
    session: &mut Session,
    (why, number): (Refused, u64),
) {
    let refused = looks(rt, alloc, mount, session, &Open).err();
    holds(rt, refused == Some(why), "the refusal");
    is_number(rt, session.number, number, "the session's number");
}

// A session's detach is refused, since it is not the right one.
fn refuses_detach<N: MountName, F: Callback + Drop, R: Rule, H: Wait + Abort>(
    rt: &H,
    mount: &Mount<N, F, R>,
    session: Session,
) {
    let refused = detach(rt, mount, session).err();
    holds(
        rt,
        refused == Some(Refused::Session),
        "the refusal of a detach",
    );
}

/// There are three entries, the call's has the status of the root, and the last one is the detach
/// of client 0.
pub fn is_filled<N: MountName, F: Callback, R: Rule>(past: &mut Past<N, F, R>) -> bool {
    if past.len() != 3 {
        return false;
    }
    let mut made = past.event(1);
    let stat = match reply_in(past.event_of(&mut made)) {
        Some(Reply::Status(stat)) => *stat == ROOT,
        _ => false,
    };
    let mut gone = past.event(2);
    let last = past.event_of(&mut gone);
    stat && last.client == 0 && last.number == 3
}

#[test]
fn three_places_are_one_call(rt: HostRuntime) {
    let keys = keys_of(&rt);
    named::<Silent, AnyAnswer, _>(&rt, rt.alloc(), keys, THREE, Trial::Fills);
}

/// A copy of a session whose number was used is refused, and the next right one is answered.
pub fn uses_a_number<N: MountName, F: Callback + Drop, R: Rule, H: Wait + Abort>(
    rt: &H,
    alloc: Global,
    mount: &Mount<N, F, R>,
) {
    let (mut session, _came) = attached(rt, mount, Vec::new(alloc));
    let mut used = session;
    let _first = made(rt, mount, &mut session, looking(alloc));
    refuses_call(rt, alloc, mount, &mut used, (Refused::Session, 2));
    refuses_detach(rt, mount, used);
    let second = made(rt, mount, &mut session, looking(alloc));
    counts(rt, second.place(), 2, "the place of the second call");
    is_number(rt, session.number, 4, "the session's number");
    let gone = detached(rt, mount, session);
    counts(rt, gone.place(), 3, "the place of the detach");
    refuses_detach(rt, mount, session);
}

#[test]
fn used_number_is_refused(rt: HostRuntime) {
    let keys = keys_of(&rt);
    named::<Silent, AnyAnswer, _>(&rt, rt.alloc(), keys, TEN, Trial::UsesANumber);
}

/// A call that the gate stops is no entry, and the session's number stays.
pub fn stops<N: MountName, F: Callback + Drop, R: Rule, H: Wait + Abort>(
    rt: &H,
    alloc: Global,
    mount: &Mount<N, F, R>,
) {
    let (mut session, _came) = attached(rt, mount, Vec::new(alloc));
    let stopped = looks(rt, alloc, mount, &mut session, &Shut).err();
    holds(
        rt,
        stopped == Some(Refused::Stopped),
        "a call that is stopped",
    );
    is_number(rt, session.number, 2, "the session's number");
    has_entries(rt, mount, 0, 1);
    let answered = made(rt, mount, &mut session, looking(alloc));
    counts(rt, answered.place(), 1, "the place of the call");
    has_entries(rt, mount, 1, 10);
}

// There is an entry at one place, and none at another.
fn has_entries<N: MountName, F: Callback, R: Rule>(
    rt: &impl Abort,
    mount: &Mount<N, F, R>,
    taken: usize,
    free: usize,
) {
    holds(rt, mount.event(taken).is_some(), "an entry");
    holds(rt, mount.event(free).is_none(), "no entry");
}

#[test]
fn gate_stops_a_call(rt: HostRuntime) {
    let keys = keys_of(&rt);
    named::<Silent, AnyAnswer, _>(&rt, rt.alloc(), keys, TEN, Trial::Stops);
}
