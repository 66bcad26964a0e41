// Clients that watch, and what they are told.
use crate::deeds::Deed;
use crate::loads::{do_all, since};
use crate::manifests::nested;
use crate::mounts::{Pace, attached, made, path_of};
use crate::operations::operations;
use crate::trees::DIRECTORIES;
use ov_base::{Call, Reply};
use overlay_core::Core;
use std::alloc::{AllocError, Global};
use std::io;
use std::rt::Clock;
use std::time::Instant;
use watch_table::{Callback, Hook, Rule};

/// The events of names that are made and removed in a directory.
const MADE_AND_REMOVED: u32 = 0x300;

/// How many files are made and removed between two readings: as many as a queue of 64 notices has
/// room for.
const READ_EVERY: u32 = 32;

/// As many unread notices as a client may ask for.
const ALL: u32 = 65;

/// Making and removing a file so often in a directory that so many clients watch, of which the
/// first makes it and all read what they were told. An operation is a notice that was read.
pub fn tell_on<C: Clock, F: Callback + Copy, R: Rule>(
    clock: &C,
    alloc: Global,
    core: &mut Core<F, R>,
    hook: &Hook<F, R>,
    watchers: u32,
    count: u32,
) -> io::Result<(u64, u32)> {
    let clients = watching(alloc, core, hook, watchers)?;
    let maker = clients.first().copied().unwrap_or(0);
    let mut nanos = 0u64;
    let mut told = 0u32;
    for _ in 0..count.div_ceil(READ_EVERY) {
        let calls = operations(alloc, Deed::Create, 0, READ_EVERY)?;
        let start = Instant::now(clock)?;
        let _ = do_all(core, maker, Deed::Create, Pace::AtOnce, calls)?;
        told = told.saturating_add(read_all(core, clients.as_slice())?);
        nanos = nanos.saturating_add(since(clock, start)?);
    }
    Ok((nanos, told))
}

// So many clients that watch the directory in which files are made.
fn watching<F: Callback + Copy, R: Rule>(
    alloc: Global,
    core: &mut Core<F, R>,
    hook: &Hook<F, R>,
    watchers: u32,
) -> Result<Vec<u64>, AllocError> {
    let mut clients = Vec::new(alloc);
    for _ in 0..watchers {
        let mut hooks = Vec::new(alloc);
        hooks.push(hook.copied())?;
        let client = attached(core, hooks)?;
        arm(alloc, core, client)?;
        clients.push(client)?;
    }
    Ok(clients)
}

// Has a client watch that directory; a refusal is answered as an allocation failure is.
fn arm<F: Callback + Copy, R: Rule>(
    alloc: Global,
    core: &mut Core<F, R>,
    client: u64,
) -> Result<(), AllocError> {
    let directory = nested(alloc, DIRECTORIES)?;
    let arming = Call::Arm {
        slot: 0,
        path: path_of(alloc, directory.as_str())?,
        mask: MADE_AND_REMOVED,
    };
    match made(core, client, arming, Pace::AtOnce)? {
        Reply::Watch(_) => Ok(()),
        _ => Err(AllocError),
    }
}

// How many notices these clients read, each all that it hasn't read.
fn read_all<F: Callback + Copy, R: Rule>(
    core: &mut Core<F, R>,
    clients: &[u64],
) -> Result<u32, AllocError> {
    let mut told = 0u32;
    for client in clients {
        let taking = Call::TakeNotices { count: ALL };
        let reply = made(core, *client, taking, Pace::AtOnce)?;
        if let Reply::Unread(notices) = &reply {
            let read = u32::try_from(notices.as_slice().len()).unwrap_or(0);
            told = told.saturating_add(read);
        }
    }
    Ok(told)
}
