// Calls whose paths are read each time, as a server reads those of its clients.
use crate::loads::since;
use crate::manifests::{child, nested};
use crate::mounts::{Pace, attached, made, path_of};
use crate::trees::DIRECTORIES;
use ov_base::{Call, Reply};
use overlay_core::Core;
use std::alloc::{AllocError, Global};
use std::io;
use std::rt::Clock;
use std::time::Instant;
use watch_table::{Callback, Rule};

/// Reading the path of one file and a `stat` of it, so often.
pub fn stat_on<C: Clock, F: Callback + Copy, R: Rule>(
    clock: &C,
    alloc: Global,
    core: &mut Core<F, R>,
    count: u32,
) -> io::Result<(u64, u32)> {
    let client = attached(core, Vec::new(alloc))?;
    let parent = nested(alloc, DIRECTORIES)?;
    let text = child(alloc, parent.as_str(), "name-", 0)?;
    let start = Instant::now(clock)?;
    let mut done = 0u32;
    for _ in 0..count {
        if has_answer(alloc, core, client, text.as_str())? {
            done = done.saturating_add(1);
        }
    }
    Ok((since(clock, start)?, done))
}

// Whether a `stat` of a path's text is answered by attributes.
fn has_answer<F: Callback + Copy, R: Rule>(
    alloc: Global,
    core: &mut Core<F, R>,
    client: u64,
    text: &str,
) -> Result<bool, AllocError> {
    let path = path_of(alloc, text)?;
    let reply = made(core, client, Call::Stat { path }, Pace::AtOnce)?;
    Ok(!matches!(reply, Reply::Refused(_)))
}
