// Calls that a gate holds between their steps, while other calls are made, and calls that it stops.
ghost use Rattle.std.specs.Prelude.{◌≡◌};

use crate::checks::{holds, is_number, keys_of};
use crate::mounts::{Silent, attached, detach, detached, made, make, path_of, reply_in};
use crate::opened::{Trial, named};
use locked_history::{Gate, Mount, MountName, Open, Pass, Past, Receipt, Refused, Session};
use merged_lookup::Topmost;
use ov_base::{Call, OpenFlags, Reply};
use std::alloc::Global;
use std::process::Abort;
use std::rt::Clock;
use std::sync::Wait;
use std::sync::atomic::{AtomicBool, Ordering};
use std::thread;
use std::thread::Threads;
use std::time::Duration;
use watch_table::{AnyAnswer, Callback, Rule};

/// In the lower layer a file of three chunks, and one of a byte.
const FILES: &str = "history = 10
layer = [{}, {entry = [
  {path = '/f', kind = 'file', zeros = 8193},
  {path = '/g', kind = 'file', text = 'x'},
]}]";

/// `open w /f` begins a temp, copies three chunks, and is made: so many steps.
const STEPS: u64 = 5;

/// How often a thread looks whether another went on, and how many microseconds it sleeps between.
const TURNS_MAX: u32 = 100_000;

const TURN: u64 = 10;

// Whether a flag is set before so many turns are over.
fn comes<H: Clock>(clock: &H, flag: &AtomicBool) -> bool {
    for _turn in 0..TURNS_MAX {
        if flag.load(Ordering::SeqCst) {
            return true;
        }
        thread::sleep(clock, Duration::from_micros(TURN));
    }
    false
}

/// Holds a call before one of its steps, until another client's call is answered.
#[derive(Drop)]
struct Holding<'a, H: Clock> {
    clock: &'a H,
    step: u64,
    reached: AtomicBool,
    answered: AtomicBool,
}

impl<H: Clock> Gate for Holding<'_, H> {
    ghost may_stop = { λ gate client step. step ≡ gate.step };

    fn pass(&self, _client: u64, step: u64) -> Pass {
        if step != self.step {
            return Pass::On;
        }
        self.reached.store(true, Ordering::SeqCst);
        if comes(self.clock, &self.answered) {
            Pass::On
        } else {
            Pass::Stop
        }
    }
}

// `open` for writing, for appending too where that is asked.
fn opening(rt: &impl Abort, alloc: Global, text: &str, append: bool) -> Call {
    let flags = OpenFlags {
        reads: false,
        writes: true,
        create: false,
        exclusive: false,
        truncate: false,
        append,
        directory: false,
        unknown: false,
    };
    Call::Open {
        path: path_of(rt, alloc, text),
        flags,
        mode: 0,
    }
}

// Copies a file by a call that the gate holds.
fn is_held<N: MountName, F: Callback, R: Rule, H: Clock + Wait + Abort>(
    rt: &H,
    alloc: Global,
    mount: &Mount<N, F, R>,
    session: Session,
    gate: &Holding<'_, H>,
) -> Receipt<N> {
    let mut session = session;
    let copies = opening(rt, alloc, "/f", false);
    match make(rt, mount, &mut session, copies, gate) {
        Ok(receipt) => receipt,
        Err(_) => panic!(rt; "the held call is not answered"),
    }
}

// Opens the other file while the gate holds that call, and tells the gate.
fn goes_between<N: MountName, F: Callback, R: Rule, H: Clock + Wait + Abort>(
    rt: &H,
    alloc: Global,
    mount: &Mount<N, F, R>,
    session: Session,
    gate: &Holding<'_, H>,
) -> Receipt<N> {
    holds(rt, comes(rt, &gate.reached), "the step is reached");
    let mut session = session;
    let receipt = made(rt, mount, &mut session, opening(rt, alloc, "/g", true));
    gate.answered.store(true, Ordering::SeqCst);
    receipt
}

// Both calls, each in a thread of its own.
fn both<
    N: MountName + Send + Sync,
    F: Callback + Drop + Send,
    R: Rule + Send,
    H: Threads + Wait + Abort + Clock + Sync,
>(rt: &H, alloc: Global, mount: &Mount<N, F, R>, step: u64) -> (Receipt<N>, Receipt<N>) {
    let (first, _came) = attached(rt, mount, Vec::new(alloc));
    let (second, _came) = attached(rt, mount, Vec::new(alloc));
    let gate = Holding {
        clock: rt,
        step,
        reached: AtomicBool::new(false),
        answered: AtomicBool::new(false),
    };
    let held = &gate;
    thread::join(
        rt,
        move || is_held(rt, alloc, mount, first, held),
        move || goes_between(rt, alloc, mount, second, held),
    )
}

// Whether a call was answered with the client's first descriptor, at this place.
fn is_opened<N: MountName, F: Callback, R: Rule>(
    mount: &Mount<N, F, R>,
    made: Receipt<N>,
    place: usize,
) -> bool {
    let mut receipt = made;
    let at = receipt.place() == place;
    at && matches!(
        reply_in(mount.event_of(&mut receipt)),
        Some(Reply::Descriptor(0))
    )
}

/// While a call is held before a step, another client's call is answered; then it goes on.
pub fn lets_through<
    N: MountName + Send + Sync,
    F: Callback + Drop + Send,
    R: Rule + Send,
    H: Threads + Wait + Abort + Clock + Sync,
>(rt: &H, alloc: Global, mount: &Mount<N, F, R>, step: u64) {
    let (held, between) = both(rt, alloc, mount, step);
    holds(
        rt,
        is_opened(mount, between, 2),
        "the call between the steps",
    );
    holds(rt, is_opened(mount, held, 3), "the call that is held");
}

#[test]
fn gate_lets_others_through(rt: HostRuntime) {
    let keys = keys_of(&rt);
    for step in 2..=STEPS {
        let trial = Trial::LetsThrough(step);
        named::<Silent, AnyAnswer, _>(&rt, rt.alloc(), keys, FILES, trial);
    }
}

/// Stops a call before one of its steps.
#[derive(Drop)]
pub struct Stopping {
    pub step: u64,
}

impl Gate for Stopping {
    ghost may_stop = { λ gate client step. step ≡ gate.step };

    fn pass(&self, _client: u64, step: u64) -> Pass {
        if step == self.step {
            Pass::Stop
        } else {
            Pass::On
        }
    }
}

/// Whether `/f` is the lower layer's file still, and no temp is left.
pub fn is_untouched<N: MountName, F: Callback, R: Rule>(
    rt: &impl Abort,
    alloc: Global,
    past: &Past<N, F, R>,
) -> bool {
    let core = past.core();
    match core.layers().walk_topmost(&path_of(rt, alloc, "/f")) {
        Ok(Topmost::Inode(place)) => place.layer == 1 && core.temps() == 0,
        _ => false,
    }
}

/// A call that is stopped before this step is no entry, and leaves neither a copy nor a temp; the
/// session's number stays.
pub fn stops_at<N: MountName, F: Callback + Drop, R: Rule, H: Wait + Abort>(
    rt: &H,
    alloc: Global,
    mount: &Mount<N, F, R>,
    step: u64,
) {
    let (mut session, _came) = attached(rt, mount, Vec::new(alloc));
    let copies = opening(rt, alloc, "/f", false);
    let gate = Stopping { step };
    let stopped = make(rt, mount, &mut session, copies, &gate).err();
    holds(
        rt,
        stopped == Some(Refused::Stopped),
        "a call that is stopped",
    );
    is_number(rt, session.number, 2, "the session's number");
}

#[test]
fn gate_stops_at_each_step(rt: HostRuntime) {
    let keys = keys_of(&rt);
    for step in 1..=STEPS {
        let trial = Trial::StopsAt(step);
        named::<Silent, AnyAnswer, _>(&rt, rt.alloc(), keys, FILES, trial);
    }
}

/// Before the step behind a chunk it uses copies of the session whose call it holds.
#[derive(Drop)]
struct Meddling<'a, N: MountName, F: Callback + Drop, R: Rule, H: Wait + Abort> {
    rt: &'a H,
    alloc: Global,
    mount: &'a Mount<N, F, R>,
    session: Session,
    told: AtomicBool,
}

impl<N: MountName, F: Callback + Drop, R: Rule, H: Wait + Abort> Meddling<'_, N, F, R, H> {
    // A detach by one copy is refused, and a `stat` by another is answered.
    fn meddles(&self) -> bool {
        let detached = detach(self.rt, self.mount, self.session).err();
        let path = path_of(self.rt, self.alloc, "/g");
        let mut copy = self.session;
        let _looked = made(self.rt, self.mount, &mut copy, Call::Stat { path });
        detached == Some(Refused::Session)
    }
}

impl<N: MountName, F: Callback + Drop, R: Rule, H: Wait + Abort> Gate for Meddling<'_, N, F, R, H> {
    ghost may_stop = { λ gate client step. ⊥ };

    fn pass(&self, _client: u64, step: u64) -> Pass {
        if step == 3 {
            self.told.store(self.meddles(), Ordering::SeqCst);
        }
        Pass::On
    }
}

// Whether the gate was told what it is to be, and why the call that it held was refused.
fn meddled<'a, N: MountName, F: Callback + Drop, R: Rule, H: Wait + Abort>(
    rt: &'a H,
    alloc: Global,
    mount: &'a Mount<N, F, R>,
    session: &mut Session,
) -> (bool, Option<Refused>) {
    let copies = opening(rt, alloc, "/f", false);
    let gate = Meddling {
        rt,
        alloc,
        mount,
        session: *session,
        told: AtomicBool::new(false),
    };
    let refused = make(rt, mount, session, copies, &gate).err();
    (gate.told.load(Ordering::SeqCst), refused)
}

/// A client whose call is on its way isn't detached. A call by a copy of its session is answered;
/// the one that was on its way is refused then, and its temp goes.
pub fn refuses_held<N: MountName, F: Callback + Drop, R: Rule, H: Wait + Abort>(
    rt: &H,
    alloc: Global,
    mount: &Mount<N, F, R>,
) {
    let (mut session, _came) = attached(rt, mount, Vec::new(alloc));
    let (told, refused) = meddled(rt, alloc, mount, &mut session);
    holds(rt, told, "what the gate was told");
    holds(
        rt,
        refused == Some(Refused::Session),
        "the call that was held",
    );
    is_number(rt, session.number, 2, "the session's number");
    session.number = 3;
    let _gone = detached(rt, mount, session);
}

#[test]
fn held_call_keeps_its_client(rt: HostRuntime) {
    let keys = keys_of(&rt);
    named::<Silent, AnyAnswer, _>(&rt, rt.alloc(), keys, FILES, Trial::IsMeddledWith);
}
