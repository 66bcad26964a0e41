// Blank mounts, the callback, the gate and the calls of the tests, and what their entries say.
ghost use Rattle.std.specs.Prelude.{◌≡◌};
ghost use Rattle.overlay_core.specs.Views.{core_finished};

use crate::door_sessions::is_left_clean;
use crate::gates::is_untouched;
use crate::refusals::is_filled;
use locked_history::{
    Blank, Deed, Entry, Gate, Mount, MountName, Open, Pass, Receipt, Refused, Session,
};
use ov_base::{Call, Errno, Event, Notice, Path, Reply};
use ov_wire::manifest_of;
use overlay_core::Core;
use std::alloc::Global;
use std::hash::RandomState;
use std::process::Abort;
use std::sync::Wait;
use watch_table::{Callback, Hook, Rule};

/// A callback that no client has.
#[derive(Clone, Copy)]
pub struct Silent;

impl Callback for Silent {
    ghost may = { λ c event. Unit {0} };

    ghost gives = { λ c event answer. Unit {0} };

    fn answer(&self, _event: &Event) -> Option<Notice> {
        None
    }
}

/// A gate that always says `Stop`.
pub struct Shut;

impl Gate for Shut {
    ghost may_stop = { λ gate client step. Unit {0} };

    fn pass(&self, _client: u64, _step: u64) -> Pass {
        Pass::Stop
    }
}

/// A mount of a manifest's layers, without a name.
pub fn blank_of<F: Callback + Drop, R: Rule>(
    rt: &impl Abort,
    alloc: Global,
    keys: RandomState,
    manifest: &str,
) -> Blank<F, R> {
    let core = core_of::<F, R>(rt, alloc, keys, manifest);
    match Blank::new(alloc, core) {
        Ok(blank) => blank,
        Err(_) => panic!(rt; "out of memory"),
    }
}

/// A core of a manifest's layers, on which nothing was done.
pub fn core_of<F: Callback + Drop, R: Rule>(
    rt: &impl Abort,
    alloc: Global,
    keys: RandomState,
    manifest: &str,
) -> Core<F, R>
    ensures { core_finished result ≡ 0 }
{
    let Ok((upper, lowers, options)) = manifest_of(alloc, keys, manifest.as_bytes()) else {
        panic!(rt; "no layers");
    };
    match Core::mount(alloc, keys, upper, lowers, options) {
        Ok(core) => core,
        Err(_) => panic!(rt; "no mount"),
    }
}

/// What is seen of a mount that has ended.
#[derive(Clone, Copy)]
pub struct End {
    /// How many entries its past has.
    pub entries: usize,
    /// How many receipts are handed back.
    pub handed_back: usize,
    pub temps: usize,
    pub is_filled: bool,
    pub is_untouched: bool,
    pub is_left_clean: bool,
}

/// Ends a mount, to which the receipts are given back. It and its past are let go nowhere else,
/// since each place where a core is dropped costs much of a proof.
pub fn ended<N: MountName, F: Callback + Drop, R: Rule>(
    rt: &impl Abort,
    alloc: Global,
    mount: Mount<N, F, R>,
    receipts: Vec<Receipt<N>>,
) -> End {
    let (mut past, left) = mount.finish(receipts);
    let end = End {
        entries: past.len(),
        handed_back: left.len(),
        temps: past.core().temps(),
        is_filled: is_filled(&mut past),
        is_untouched: is_untouched(rt, alloc, &past),
        is_left_clean: is_left_clean(past.core()),
    };
    drop(left);
    drop(past);
    end
}

/// A client with these hooks, and the receipt of its attach. Tests attach, call and detach by this
/// and the two functions below alone, since a proof reads all that a mount promises wherever one of
/// its methods is called.
pub fn attach<N: MountName, F: Callback + Drop, R: Rule, H: Wait>(
    rt: &H,
    mount: &Mount<N, F, R>,
    hooks: Vec<Hook<F, R>>,
) -> Result<(Session, Receipt<N>), Errno> {
    match mount.attach(rt, hooks) {
        Ok(attached) => Ok(attached),
        Err(fault) => {
            let errno = fault.errno;
            drop(fault);
            Err(errno)
        }
    }
}

/// Makes a session's next call.
pub fn make<N: MountName, F: Callback, R: Rule, H: Wait, G: Gate>(
    rt: &H,
    mount: &Mount<N, F, R>,
    session: &mut Session,
    call: Call,
    gate: &G,
) -> Result<Receipt<N>, Refused> {
    mount.call(rt, session, call, gate)
}

/// Detaches a session's client, whose hooks are let go.
pub fn detach<N: MountName, F: Callback + Drop, R: Rule, H: Wait>(
    rt: &H,
    mount: &Mount<N, F, R>,
    session: Session,
) -> Result<Receipt<N>, Refused> {
    let (hooks, gone) = mount.detach(rt, session)?;
    drop(hooks);
    Ok(gone)
}

/// A client with these hooks, where there has to be one.
pub fn attached<N: MountName, F: Callback + Drop, R: Rule, H: Wait + Abort>(
    rt: &H,
    mount: &Mount<N, F, R>,
    hooks: Vec<Hook<F, R>>,
) -> (Session, Receipt<N>) {
    match attach(rt, mount, hooks) {
        Ok(attached) => attached,
        Err(_) => panic!(rt; "not attached"),
    }
}

/// Makes a session's next call, where it has to be answered.
pub fn made<N: MountName, F: Callback, R: Rule, H: Wait + Abort>(
    rt: &H,
    mount: &Mount<N, F, R>,
    session: &mut Session,
    call: Call,
) -> Receipt<N> {
    match make(rt, mount, session, call, &Open) {
        Ok(receipt) => receipt,
        Err(_) => panic!(rt; "no answer"),
    }
}

/// Detaches a session's client, where it has to go.
pub fn detached<N: MountName, F: Callback + Drop, R: Rule, H: Wait + Abort>(
    rt: &H,
    mount: &Mount<N, F, R>,
    session: Session,
) -> Receipt<N> {
    match detach(rt, mount, session) {
        Ok(receipt) => receipt,
        Err(_) => panic!(rt; "not detached"),
    }
}

/// Makes `stat /`, a session's next call.
pub fn looks<N: MountName, F: Callback, R: Rule, H: Wait, G: Gate>(
    rt: &H,
    alloc: Global,
    mount: &Mount<N, F, R>,
    session: &mut Session,
    gate: &G,
) -> Result<Receipt<N>, Refused> {
    make(rt, mount, session, looking(alloc), gate)
}

/// `stat /`.
pub fn looking(alloc: Global) -> Call {
    Call::Stat {
        path: Path::root(alloc),
    }
}

/// A path.
pub fn path_of(rt: &impl Abort, alloc: Global, text: &str) -> Path {
    let parsed = Path::parse(alloc, text.as_bytes()).expect(rt, "memory");
    parsed.expect(rt, "a path")
}

/// The reply that an entry has, if it is a call's.
pub fn reply_in(entry: &Entry) -> Option<&Reply> {
    match &entry.deed {
        Deed::Called(_, reply) => Some(reply),
        _ => None,
    }
}
