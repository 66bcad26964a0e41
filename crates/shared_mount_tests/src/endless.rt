// A mount that keeps no entry of its history: it never fills, and all else is as on one that does.
ghost use Rattle.endless_mount.specs.Names.{IsNamed};

use crate::checks::{holds, is_number, keys_of};
use crate::mounts::{Shut, Silent, core_of, looking, path_of};
use endless_mount::{Blank, BookName, EndlessMount, Front};
use locked_history::{Gate, Open, Refused, Session};
use ov_base::{Call, ObjectKind, Reply, Stat};
use std::alloc::Global;
use std::hash::RandomState;
use std::marker::Brand;
use std::process::Abort;
use std::sync::Wait;
use std::thread;
use std::thread::Threads;
use watch_table::{AnyAnswer, Callback, Rule};

/// A history of three places is no limit here.
const FILE: &str = "history = 3
layer = [{}, {entry = [{path = '/f', kind = 'file', text = 'x'}]}]";

const ROOT: Stat = Stat {
    kind: ObjectKind::Directory,
    mode: 0o755,
    uid: 0,
    gid: 0,
    size: 0,
    links: 1,
};

const WORKERS: usize = 8;

/// The calls of each worker, beside its attach and its detach.
const CALLS: u64 = 20;

/// What is tried on a mount.
#[derive(Clone, Copy)]
enum Trial {
    GoesOn,
    UsesANumber,
    Stops,
    Races,
}

impl Trial {
    // How many entries the history has then.
    fn entries(self) -> u64 {
        match self {
            Trial::GoesOn => 11,
            Trial::UsesANumber => 5,
            Trial::Stops => 2,
            Trial::Races => WORKERS as u64 * (CALLS + 2),
        }
    }
}

// What a reply says.
#[derive(Clone, Copy, PartialEq, Eq)]
enum Said {
    Done,
    Shown(Stat),
    Other,
}

// Makes a client's next call: its place, and what it is answered. As on the other mount, tests call
// and detach by this and the function below alone.
fn make<N: BookName, F: Callback, R: Rule, H: Wait, G: Gate>(
    rt: &H,
    mount: &EndlessMount<N, F, R>,
    client: &mut (Session, Front<N>),
    call: Call,
    gate: &G,
) -> Result<(u64, Said), Refused> {
    let (place, reply) = mount.call(rt, &mut client.0, &mut client.1, call, gate)?;
    let said = match &reply {
        Reply::Done => Said::Done,
        Reply::Status(stat) => Said::Shown(*stat),
        _ => Said::Other,
    };
    drop(reply);
    Ok((place, said))
}

// Detaches a client: the place of that.
fn detach<N: BookName, F: Callback + Drop, R: Rule, H: Wait>(
    rt: &H,
    mount: &EndlessMount<N, F, R>,
    client: &mut (Session, Front<N>),
) -> Result<u64, Refused> {
    let (hooks, place) = mount.detach(rt, client.0, &mut client.1)?;
    drop(hooks);
    Ok(place)
}

// A client without hooks, and the place of its attach.
fn attach<N: BookName, F: Callback + Drop, R: Rule, H: Wait>(
    rt: &H,
    alloc: Global,
    mount: &EndlessMount<N, F, R>,
) -> Option<((Session, Front<N>), u64)> {
    match mount.attach(rt, Vec::new(alloc)) {
        Ok((session, place, seen)) => Some(((session, seen), place)),
        Err(fault) => {
            drop(fault);
            None
        }
    }
}

// Makes `stat /`, a client's next call: its place, and what it is answered.
fn looks<N: BookName, F: Callback, R: Rule, H: Wait, G: Gate>(
    rt: &H,
    alloc: Global,
    mount: &EndlessMount<N, F, R>,
    client: &mut (Session, Front<N>),
    gate: &G,
) -> Result<(u64, Said), Refused> {
    make(rt, mount, client, looking(alloc), gate)
}

// The same, where it is answered at this place.
fn is_shown<N: BookName, F: Callback, R: Rule, H: Wait + Abort>(
    rt: &H,
    alloc: Global,
    mount: &EndlessMount<N, F, R>,
    client: &mut (Session, Front<N>),
    wanted: u64,
) {
    let shown = looks(rt, alloc, mount, client, &Open).ok();
    holds(
        rt,
        shown == Some((wanted, Said::Shown(ROOT))),
        "the root at its place",
    );
}

// A client without hooks, whose attach has this place.
fn attached<N: BookName, F: Callback + Drop, R: Rule, H: Wait + Abort>(
    rt: &H,
    alloc: Global,
    mount: &EndlessMount<N, F, R>,
    wanted: u64,
) -> (Session, Front<N>) {
    let (client, place) = attach(rt, alloc, mount).expect(rt, "a client");
    is_number(rt, place, wanted, "the place of the attach");
    has(rt, &client, 2, wanted.saturating_add(1));
    client
}

// What a client has: its session's number, and how much it has seen of the history.
fn has<N: BookName>(rt: &impl Abort, client: &(Session, Front<N>), number: u64, seen: u64) {
    is_number(rt, client.0.number, number, "the session's number");
    is_number(rt, client.1.len(), seen, "what is seen of the history");
}

// What comes of a client's detach.
fn goes<N: BookName, F: Callback + Drop, R: Rule, H: Wait + Abort>(
    rt: &H,
    mount: &EndlessMount<N, F, R>,
    client: &mut (Session, Front<N>),
    wanted: Result<u64, Refused>,
) {
    let gone = detach(rt, mount, client);
    holds(rt, gone == wanted, "what comes of the detach");
}

// More calls are answered than the manifest's history has places, each at the next place.
fn goes_on<N: BookName, F: Callback + Drop, R: Rule, H: Wait + Abort>(
    rt: &H,
    alloc: Global,
    mount: &EndlessMount<N, F, R>,
) {
    let mut client = attached(rt, alloc, mount, 0);
    for wanted in 1..10 {
        is_shown(rt, alloc, mount, &mut client, wanted);
    }
    has(rt, &client, 11, 10);
    goes(rt, mount, &mut client, Ok(10));
    has(rt, &client, 11, 11);
}

// A copy of a session whose number was used is refused, and the next right one is answered.
fn uses_a_number<N: BookName, F: Callback + Drop, R: Rule, H: Wait + Abort>(
    rt: &H,
    alloc: Global,
    mount: &EndlessMount<N, F, R>,
) {
    let mut client = attached(rt, alloc, mount, 0);
    let mut used = (client.0, client.1.again());
    is_shown(rt, alloc, mount, &mut client, 1);
    let again = looks(rt, alloc, mount, &mut used, &Open).err();
    holds(
        rt,
        again == Some(Refused::Session),
        "a number that was used",
    );
    has(rt, &used, 2, 1);
    goes(rt, mount, &mut used, Err(Refused::Session));
    is_shown(rt, alloc, mount, &mut client, 2);
    is_number(rt, client.0.number, 4, "the session's number");
    goes(rt, mount, &mut client, Ok(3));
    goes(rt, mount, &mut client, Err(Refused::Session));
    let next = attached(rt, alloc, mount, 4);
    is_number(rt, next.0.client, 1, "the next client");
}

// A call that the gate stops is no entry, and leaves the session's number and the front.
fn stops<N: BookName, F: Callback + Drop, R: Rule, H: Wait + Abort>(
    rt: &H,
    alloc: Global,
    mount: &EndlessMount<N, F, R>,
) {
    let mut client = attached(rt, alloc, mount, 0);
    let stopped = looks(rt, alloc, mount, &mut client, &Shut).err();
    holds(
        rt,
        stopped == Some(Refused::Stopped),
        "a call that is stopped",
    );
    has(rt, &client, 2, 1);
    is_shown(rt, alloc, mount, &mut client, 1);
}

// A worker's client attaches, makes its calls and detaches. Its front comes back, and how often it
// was the one that made the directory.
fn works<N: BookName, F: Callback + Drop, R: Rule, H: Wait + Abort>(
    rt: &H,
    alloc: Global,
    mount: &EndlessMount<N, F, R>,
) -> (Front<N>, u64) {
    let (mut client, _place) = attach(rt, alloc, mount).expect(rt, "a client");
    let mut made = 0u64;
    for _ in 0..CALLS {
        let path = path_of(rt, alloc, "/d");
        let call = Call::Mkdir { path, mode: 0o755 };
        let answered = make(rt, mount, &mut client, call, &Open).ok();
        let (_, said) = answered.expect(rt, "an answer");
        if said == Said::Done {
            made = made.saturating_add(1);
        }
    }
    holds(rt, detach(rt, mount, &mut client).is_ok(), "a detach");
    (client.1, made)
}

// The longest of the workers' fronts, and how often the directory was made.
fn longest<N: BookName>(first: &Front<N>, worked: Vec<(Front<N>, u64)>) -> (Front<N>, u64) {
    let mut seen = first.again();
    let mut made = 0u64;
    for (front, count) in worked {
        seen = seen.longer(&front);
        made = made.saturating_add(count);
    }
    (seen, made)
}

// Each worker's calls are answered, one of them makes the directory, and the longest front has all
// of them and nothing else. It is left.
fn races<
    N: BookName + Send + Sync,
    F: Callback + Drop + Send,
    R: Rule + Send,
    H: Threads + Wait + Abort + Sync,
>(rt: &H, alloc: Global, mount: &EndlessMount<N, F, R>, seen: &mut Front<N>) {
    let worked = thread::map_indices(rt, alloc, WORKERS, &|_worker| works(rt, alloc, mount));
    let (front, made) = longest(seen, worked.expect(rt, "threads"));
    *seen = front;
    is_number(rt, made, 1, "directories that are made");
    is_number(
        rt,
        seen.len(),
        Trial::Races.entries(),
        "what is seen of the history",
    );
}

// Tries this, and leaves what was seen of the history.
fn tried<
    N: BookName + Send + Sync,
    F: Callback + Drop + Send,
    R: Rule + Send,
    H: Threads + Wait + Abort + Sync,
>(rt: &H, alloc: Global, mount: &EndlessMount<N, F, R>, trial: Trial, seen: &mut Front<N>) {
    match trial {
        Trial::GoesOn => goes_on(rt, alloc, mount),
        Trial::UsesANumber => uses_a_number(rt, alloc, mount),
        Trial::Stops => stops(rt, alloc, mount),
        Trial::Races => races(rt, alloc, mount, seen),
    }
}

// How many entries the history has in which a mount ends, and how much was done on its core, which
// is let go nowhere else.
fn ended<N: BookName, F: Callback + Drop, R: Rule, H: Wait>(
    rt: &H,
    mount: EndlessMount<N, F, R>,
    seen: Front<N>,
) -> (u64, u64) {
    let (core, whole) = mount.finish(rt, seen);
    let finished = core.finished();
    drop(core);
    (whole.len(), finished)
}

fn tries<
    N: BookName + Send + Sync,
    F: Callback + Drop + Send,
    R: Rule + Send,
    H: Threads + Wait + Abort + Sync,
>(rt: &H, alloc: Global, blank: Blank<F, R>, trial: Trial)
    requires { IsNamed N.book N.opening blank }
{
    let (mount, first) = EndlessMount::<N, F, R>::open(blank);
    let mut seen = first;
    tried(rt, alloc, &mount, trial, &mut seen);
    let (entries, finished) = ended(rt, mount, seen);
    is_number(rt, entries, trial.entries(), "entries");
    is_number(rt, finished, entries, "what was done on the core");
}

// Tries this on a mount of its own.
fn named<F: Callback + Drop + Send, R: Rule + Send, H: Threads + Wait + Abort + Sync>(
    rt: &H,
    alloc: Global,
    keys: RandomState,
    trial: Trial,
) {
    let blank = Blank::new(alloc, core_of::<F, R>(rt, alloc, keys, FILE));
    tries::<Brand, F, R, H>(rt, alloc, blank, trial);
}

#[test]
fn endless_history_goes_on(rt: HostRuntime) {
    let keys = keys_of(&rt);
    named::<Silent, AnyAnswer, _>(&rt, rt.alloc(), keys, Trial::GoesOn);
}

#[test]
fn endless_history_refuses_a_used_number(rt: HostRuntime) {
    let keys = keys_of(&rt);
    named::<Silent, AnyAnswer, _>(&rt, rt.alloc(), keys, Trial::UsesANumber);
}

#[test]
fn endless_history_leaves_out_a_stopped_call(rt: HostRuntime) {
    let keys = keys_of(&rt);
    named::<Silent, AnyAnswer, _>(&rt, rt.alloc(), keys, Trial::Stops);
}

#[test]
fn eight_threads_make_one_endless_history(rt: HostRuntime) {
    let keys = keys_of(&rt);
    named::<Silent, AnyAnswer, _>(&rt, rt.alloc(), keys, Trial::Races);
}
