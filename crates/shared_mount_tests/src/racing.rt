// Threads whose calls race on one mount.
use crate::checks::{add, counts, keys_of};
use crate::mounts::{Silent, attached, detached, made, path_of, reply_in};
use crate::opened::{Trial, named};
use locked_history::{Mount, MountName, Receipt};
use ov_base::{Call, Reply};
use std::alloc::Global;
use std::process::Abort;
use std::sync::Wait;
use std::thread;
use std::thread::Threads;
use watch_table::{AnyAnswer, Callback, Rule};

const WORKERS: usize = 8;

/// An attach, the calls and a detach of each worker.
const DEEDS: usize = 5;

/// The entries of all workers.
pub const RACED: usize = WORKERS * DEEDS;

const FILE: &str = "history = 64
layer = [{}, {entry = [{path = '/f', kind = 'file', text = 'x'}]}]";

// `mkdir 755 /d`, `stat /d` and `unlink /f`.
fn calls(rt: &impl Abort, alloc: Global) -> [Call; 3] {
    [
        Call::Mkdir {
            path: path_of(rt, alloc, "/d"),
            mode: 0o755,
        },
        Call::Stat {
            path: path_of(rt, alloc, "/d"),
        },
        Call::Unlink {
            path: path_of(rt, alloc, "/f"),
        },
    ]
}

// A worker's client attaches, makes its calls and detaches; all receipts come back.
fn works<N: MountName, F: Callback + Drop, R: Rule, H: Wait + Abort>(
    rt: &H,
    alloc: Global,
    mount: &Mount<N, F, R>,
) -> Vec<Receipt<N>> {
    let mut receipts = Vec::new(alloc);
    let (mut session, came) = attached(rt, mount, Vec::new(alloc));
    add(rt, &mut receipts, came);
    for call in calls(rt, alloc) {
        let receipt = made(rt, mount, &mut session, call);
        add(rt, &mut receipts, receipt);
    }
    add(rt, &mut receipts, detached(rt, mount, session));
    receipts
}

// How many calls were answered `Done`, by the entries of receipts.
fn done_calls<N: MountName, F: Callback, R: Rule>(
    mount: &Mount<N, F, R>,
    receipts: &mut [Receipt<N>],
) -> usize {
    let mut done = 0usize;
    for receipt in receipts {
        if let Some(Reply::Done) = reply_in(mount.event_of(receipt)) {
            done = done.saturating_add(1);
        }
    }
    done
}

// Adds the receipts of all workers.
fn push_all<N: MountName>(
    rt: &impl Abort,
    worked: Vec<Vec<Receipt<N>>>,
    receipts: &mut Vec<Receipt<N>>,
) {
    for one in worked {
        for receipt in one {
            add(rt, receipts, receipt);
        }
    }
}

/// Each worker's calls are answered. The receipts of all are left.
pub fn races<
    N: MountName + Send + Sync,
    F: Callback + Drop + Send,
    R: Rule + Send,
    H: Threads + Wait + Abort + Sync,
>(rt: &H, alloc: Global, mount: &Mount<N, F, R>, receipts: &mut Vec<Receipt<N>>) {
    let worked = thread::map_indices(rt, alloc, WORKERS, &|_worker| works(rt, alloc, mount));
    push_all(rt, worked.expect(rt, "threads"), receipts);
    counts(rt, receipts.len(), RACED, "receipts");
    // One `mkdir` and one `unlink` find the name as it was at the mount.
    counts(
        rt,
        done_calls(mount, receipts.as_mut_slice()),
        2,
        "calls that are done",
    );
}

#[test]
fn eight_threads_make_one_history(rt: HostRuntime) {
    let keys = keys_of(&rt);
    named::<Silent, AnyAnswer, _>(&rt, rt.alloc(), keys, FILE, Trial::Races);
}
