// A row on the engine, on the slow reference and on mounts that threads share.
use crate::engine::{look_ups_difference, run_of};
use crate::rows::Row;
use crate::shared::{Keeps, endless_difference, told_by};
use script_reference::{has_steps, reference_difference};
use std::alloc::{AllocError, Global};
use std::hash::RandomState;
use std::io;
use std::sync::Wait;

/// How a row is judged.
#[derive(Drop)]
pub enum Verdict {
    /// The engine, the slow reference and mounts that threads share answer what is wanted, one that
    /// keeps its history and one that keeps none.
    Agrees,
    /// All of them do but the one that keeps no history, which has a place where the others have
    /// none. It answers what the engine does where the manifest sets no length.
    FillsHistory,
    /// The engine refuses the manifest as is wanted, so that there is no mount.
    NoMount,
    /// The engine and the slow reference do. A mount that threads share has no calls in steps.
    NotShared,
    Differs(String),
}

/// Whether the answers to a row are those that are wanted.
pub fn judged<R: AllocGlobal + Wait>(
    rt: &R,
    keys: RandomState,
    row: &Row<'_>,
) -> io::Result<Verdict> {
    let alloc = rt.alloc();
    let script = row.script.as_ref().map(|script| script.as_slice());
    let manifest = row.manifest.as_slice();
    let wanted = row.wanted.as_slice();
    let engine = run_of(alloc, keys, manifest, script)?;
    if engine.text.as_slice() != wanted {
        return engine_differs(alloc, engine.text.as_slice());
    }
    let refuses_manifest = engine.refuses_manifest;
    drop(engine);
    if refuses_manifest {
        return Ok(Verdict::NoMount);
    }
    judged_others(rt, (alloc, keys), manifest, script, wanted)
}

fn engine_differs(alloc: Global, found: &[u8]) -> io::Result<Verdict> {
    let found = String::from_utf8_lossy(alloc, found)?;
    Ok(Verdict::Differs(format!(in alloc; "the engine answers\n{found}")?))
}

// Whether the engine where it keeps fewer look-ups, the reference and mounts that threads share
// answer what is wanted.
fn judged_others<H: Wait>(
    rt: &H,
    (alloc, keys): (Global, RandomState),
    manifest: &[u8],
    script: Option<&[u8]>,
    wanted: &[u8],
) -> io::Result<Verdict> {
    if let Some(found) = kept_difference(alloc, keys, manifest, script, wanted)? {
        return Ok(Verdict::Differs(found));
    }
    if let Some(found) = reference_difference(alloc, manifest, script, wanted)? {
        return Ok(Verdict::Differs(found));
    }
    if script.is_some_and(has_steps) {
        return Ok(Verdict::NotShared);
    }
    judged_shared(rt, (alloc, keys), manifest, script, wanted)
}

// How the answers of the engine differ where it keeps fewer look-ups in the lower layers.
fn kept_difference(
    alloc: Global,
    keys: RandomState,
    manifest: &[u8],
    script: Option<&[u8]>,
    wanted: &[u8],
) -> io::Result<Option<String>> {
    let Some(script) = script else {
        return Ok(None);
    };
    match look_ups_difference(alloc, keys, manifest, script, wanted)? {
        Some(kept) => Ok(Some(format!(in alloc; "the engine differs with {kept} look-ups kept")?)),
        None => Ok(None),
    }
}

// Whether mounts that threads share answer what is wanted.
fn judged_shared<H: Wait>(
    rt: &H,
    (alloc, keys): (Global, RandomState),
    manifest: &[u8],
    script: Option<&[u8]>,
    wanted: &[u8],
) -> io::Result<Verdict> {
    let told = told_by(rt, (alloc, keys), Keeps::Entries, manifest, script)?;
    let is_full = told.is_full;
    let found = told.into_text()?;
    if found.as_bytes() != wanted {
        return Ok(Verdict::Differs(format!(in alloc; "a shared mount answers\n{found}")?));
    }
    drop(found);
    if is_full {
        judged_full(rt, (alloc, keys), manifest, script)
    } else {
        judged_endless(rt, (alloc, keys), manifest, script, wanted, false)
    }
}

// The same of a mount that keeps no history, where the others have no place.
fn judged_full<H: Wait>(
    rt: &H,
    (alloc, keys): (Global, RandomState),
    manifest: &[u8],
    script: Option<&[u8]>,
) -> io::Result<Verdict> {
    let longest = without_length(alloc, manifest)?;
    let engine = run_of(alloc, keys, longest.as_slice(), script)?;
    drop(longest);
    let wanted = engine.text.as_slice();
    judged_endless(rt, (alloc, keys), manifest, script, wanted, true)
}

fn judged_endless<H: Wait>(
    rt: &H,
    (alloc, keys): (Global, RandomState),
    manifest: &[u8],
    script: Option<&[u8]>,
    wanted: &[u8],
    fills_history: bool,
) -> io::Result<Verdict> {
    match endless_difference(rt, (alloc, keys), manifest, script, wanted)? {
        Some(found) => Ok(Verdict::Differs(found)),
        None if fills_history => Ok(Verdict::FillsHistory),
        None => Ok(Verdict::Agrees),
    }
}

// A manifest without the line that sets how long the history may get.
fn without_length(alloc: Global, manifest: &[u8]) -> Result<Vec<u8>, AllocError> {
    let mut left = Vec::new(alloc);
    for line in manifest.split(|byte| *byte == b'\n') {
        if !line.starts_with(b"history ") {
            left.extend_from_slice(line)?;
            left.push(b'\n')?;
        }
    }
    Ok(left)
}
