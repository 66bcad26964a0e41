// The loads by their names, each timed by the monotonic clock.
use crate::deeds::Deed;
use crate::manifests::ManifestText;
use crate::mounts::{Pace, attached, made, mounted_alone, unmount};
use crate::operations::{before, operations};
use crate::texts::stat_on;
use crate::trees::{OBJECTS, copied, copied_again, deep, hollow, served};
use crate::watchers::tell_on;
use ov_base::{Call, Errno, Reply};
use overlay_core::Core;
use std::alloc::{AllocError, Global};
use std::hash::RandomState;
use std::io;
use std::rt::Clock;
use std::time::Instant;
use watch_table::{Callback, Hook, Rule};

/// How many operations are made ready at a time.
const BATCH: u32 = 64;

/// What is measured.
#[derive(Clone, Copy)]
pub enum Load {
    /// What a client does, and how its calls are made.
    Deed(Deed, Pace),
    /// What so many clients that watch a directory are told.
    Notices(u32),
    /// `stat` of one file whose path is read each time.
    StatRead,
}

impl Load {
    /// The load of a word of the command line.
    pub fn named(word: &str) -> Option<Load> {
        match word {
            "notify_1" => Some(Load::Notices(1)),
            "notify_64" => Some(Load::Notices(64)),
            "stat_read" => Some(Load::StatRead),
            _ => deed_named(word),
        }
    }
}

// The load of a deed's word, behind which `_steps` says that each call is made step by step.
fn deed_named(word: &str) -> Option<Load> {
    match word.strip_suffix("_steps") {
        Some(word) => Some(Load::Deed(Deed::named(word)?, Pace::InSteps)),
        None => Some(Load::Deed(Deed::named(word)?, Pace::AtOnce)),
    }
}

/// How many nanoseconds so many operations took on a mount of so many lower layers, and how many were done.
pub fn measure<C: Clock, F: Callback + Copy, R: Rule>(
    clock: &C,
    alloc: Global,
    keys: RandomState,
    hook: &Hook<F, R>,
    load: Load,
    lowers: u32,
    count: u32,
) -> io::Result<(u64, u32)> {
    let manifest = layers_for(alloc, load, lowers, count)?;
    let mut core: Core<F, R> = mounted_alone(alloc, keys, &manifest)?;
    let measured = match load {
        Load::Deed(deed, pace) => do_on(clock, alloc, &mut core, deed, pace, count),
        Load::Notices(watchers) => tell_on(clock, alloc, &mut core, hook, watchers, count),
        Load::StatRead => stat_on(clock, alloc, &mut core, count),
    };
    unmount(core);
    measured
}

// The layers. For each copy there is a file, or a name of one file.
fn layers_for(
    alloc: Global,
    load: Load,
    lowers: u32,
    count: u32,
) -> Result<ManifestText, AllocError> {
    let Load::Deed(deed, _) = load else {
        return served(alloc, lowers);
    };
    let manifest = layers_of(alloc, deed, lowers, count)?;
    if deed.is_with_metacopy() {
        manifest.with_metacopy(alloc)
    } else {
        Ok(manifest)
    }
}

fn layers_of(
    alloc: Global,
    deed: Deed,
    lowers: u32,
    count: u32,
) -> Result<ManifestText, AllocError> {
    match deed {
        Deed::Chmod { size, .. } => copied(alloc, lowers, count, size),
        Deed::Copy(size) => copied(alloc, lowers, count, size),
        Deed::CopyAgain(size) | Deed::TouchAgain(size) => copied_again(alloc, lowers, count, size),
        Deed::CopyHole(size) => hollow(alloc, lowers, count, size),
        Deed::Touch(size) => copied(alloc, lowers, count, size),
        Deed::ReadLong | Deed::WriteLong | Deed::WriteBlock => copied(alloc, lowers, 1, 1_048_576),
        Deed::Mkdir => deep(alloc, lowers.saturating_add(1)),
        _ => served(alloc, lowers),
    }
}

// Does something so often, after what has to come before it.
fn do_on<C: Clock, F: Callback + Copy, R: Rule>(
    clock: &C,
    alloc: Global,
    core: &mut Core<F, R>,
    deed: Deed,
    pace: Pace,
    count: u32,
) -> io::Result<(u64, u32)> {
    let client = attached(core, Vec::new(alloc))?;
    let _ = do_all(core, client, deed, pace, before(alloc, deed)?)?;
    let count = match deed {
        Deed::Whiteout => count.min(OBJECTS),
        _ => count,
    };
    let mut nanos = 0u64;
    let mut done = 0u32;
    for batch in 0..count.div_ceil(BATCH) {
        let first = batch.saturating_mul(BATCH);
        let number = count.saturating_sub(first).min(BATCH);
        let calls = operations(alloc, deed, first, number)?;
        let all = calls.len();
        let start = Instant::now(clock)?;
        let fine = do_all(core, client, deed, pace, calls)?;
        nanos = nanos.saturating_add(since(clock, start)?);
        if fine == all {
            done = done.saturating_add(number);
        }
    }
    Ok((nanos, done))
}

/// How many calls were answered as they should be.
pub fn do_all<F: Callback + Copy, R: Rule>(
    core: &mut Core<F, R>,
    client: u64,
    deed: Deed,
    pace: Pace,
    calls: Vec<Call>,
) -> Result<usize, AllocError> {
    let mut fine = 0usize;
    for call in calls {
        if is_fine(deed, &made(core, client, call, pace)?) {
            fine = fine.saturating_add(1);
        }
    }
    Ok(fine)
}

// Whether a call neither was refused, but for names that aren't there, nor read fewer bytes than it was to.
fn is_fine(deed: Deed, reply: &Reply) -> bool {
    match reply {
        Reply::Refused(Errno::ENOENT) => deed.is_for_absent_names(),
        Reply::Refused(_) => false,
        Reply::Read(bytes) => bytes.as_slice().len() == deed.bytes_read() as usize,
        _ => true,
    }
}

/// The nanoseconds since a moment.
pub fn since<C: Clock>(clock: &C, start: Instant) -> io::Result<u64> {
    Ok(u64::try_from(start.elapsed(clock)?.as_nanos()).unwrap_or(u64::MAX))
}
