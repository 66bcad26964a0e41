// A manifest as its file describes it, with the bytes of the files that it names.
ghost use Rattle.std.specs.Prelude.{◌≤◌, IfOk, length};

use crate::failure::Failure;
use crate::reading::{Unread, bytes_of, cannot_read, taken};
use command_line::Source;
use ov_script::Escaped;
use ov_server::{Fault, going_on};
use ov_wire::{Blob, ManifestFault, blobs_of, table_of};
use std::alloc::Global;
use std::fs::Files;
use std::io::Input;
use std::path::Path;
use toml::{Table, Value};

/// The name by which a manifest is read from standard input.
pub const STANDARD_INPUT: &str = "-";

/// A manifest's table, and the bytes of its blobs.
#[derive(Drop)]
pub struct Described {
    /// What its file says.
    pub table: Table,
    /// The bytes of its blobs, in its order.
    pub blobs: Vec<Blob>,
    /// How many layers a saved upper put above those of the manifest; none where it has no saved one.
    pub above: Option<usize>,
}

/// What a manifest describes, which has with its blobs at most so many bytes as are told. No blob is
/// read of one whose whole is at fault. A saved upper takes the place of its own.
pub fn read_manifest<R: Files + Input + AllocGlobal>(
    rt: &R,
    source: &Source<'_>,
) -> Result<Described, Failure> {
    match source.upper {
        None => read_own(rt, source),
        Some(file) => {
            let saved = read_upper(rt, file, source.manifest_limit)?;
            let described = read_own(rt, source)?;
            over(rt.alloc(), saved, described)
        }
    }
}

// What the manifest itself describes.
fn read_own<R: Files + Input + AllocGlobal>(
    rt: &R,
    source: &Source<'_>,
) -> Result<Described, Failure> {
    let (path, limit) = (source.manifest, source.manifest_limit);
    let manifest = match bytes_named(rt, path, limit) {
        Ok(manifest) => manifest,
        Err(why) => return Err(cannot_read(
            rt.alloc(),
            Fault::CannotReadManifest,
            path,
            limit,
            why,
        )),
    };
    let left = limit - manifest.len() as u64;
    let table = match table_of(rt.alloc(), manifest.as_slice()) {
        Ok(table) => table,
        Err(fault) => return Err(no_table(
            rt.alloc(),
            Fault::from(fault),
            shown(path),
            manifest.as_slice(),
        )),
    };
    let blobs = read_blobs(rt, path, &table, left)?;
    Ok(Described {
        table,
        blobs,
        above: None,
    })
}

// The bytes of a file, or of standard input by its name.
fn bytes_named<R: Files + Input + AllocGlobal>(
    rt: &R,
    path: &str,
    limit: u64,
) -> Result<Vec<u8>, Unread>
    ensures { IfOk result (λ bytes. length bytes.items ≤ limit) }
{
    if path == STANDARD_INPUT {
        taken(rt.alloc(), rt.reader(), limit)
    } else {
        bytes_of(rt, path, limit)
    }
}

// The table of a saved upper.
fn read_upper<R: Files + AllocGlobal>(rt: &R, path: &str, limit: u64) -> Result<Table, Failure> {
    let saved = match bytes_of(rt, path, limit) {
        Ok(saved) => saved,
        Err(why) => return Err(cannot_read(rt.alloc(), Fault::CannotReadUpper, path, limit, why)),
    };
    match table_of(rt.alloc(), saved.as_slice()) {
        Ok(table) => Ok(table),
        Err(fault) => Err(no_table(rt.alloc(), fault_of_upper(fault), path, saved.as_slice())),
    }
}

// A saved upper over the lower layers of a manifest without a fault of its whole.
fn over(alloc: Global, saved: Table, manifest: Described) -> Result<Described, Failure> {
    let Described {
        table,
        blobs,
        above: _,
    } = manifest;
    let has_upper = table.get("upper").and_then(Value::as_bool).unwrap_or(true);
    let table = going_on(alloc, saved, table)?;
    judge(alloc, &table)?;
    Ok(Described {
        table,
        blobs,
        above: Some(if has_upper { 0 } else { 1 }),
    })
}

// The fault of a manifest's whole that came by its new upper. A key that is at fault then is the upper's.
fn judge(alloc: Global, joined: &Table) -> Result<(), Fault> {
    match blobs_of(alloc, joined) {
        Ok(_) => Ok(()),
        Err(ManifestFault::Key) => Err(Fault::Upper(ManifestFault::Key)),
        Err(fault) => Err(Fault::from(fault)),
    }
}

fn fault_of_upper(fault: ManifestFault) -> Fault {
    match fault {
        ManifestFault::Memory(_) => Fault::Memory,
        fault => Fault::Upper(fault),
    }
}

// What a person calls the file of a manifest.
fn shown(path: &str) -> &str {
    if path == STANDARD_INPUT {
        "standard input"
    } else {
        path
    }
}

// Bytes that are no TOML: in which line, and why.
fn no_table(alloc: Global, fault: Fault, file: &str, bytes: &[u8]) -> Failure {
    let Err(error) = toml::table_from_slice(alloc, bytes) else {
        return Failure::from(fault);
    };
    let Some(place) = error.span() else {
        return Failure::from(Fault::Memory);
    };
    let line = line_of(bytes, place.start);
    let message = error.message();
    Failure::because(alloc, fault, format_args!("{file}, line {line}: {message}"))
}

// The line of a place, counted from 1.
fn line_of(bytes: &[u8], place: usize) -> usize {
    let breaks = bytes
        .iter()
        .take(place)
        .filter(|byte| **byte == b'\n')
        .count();
    breaks.saturating_add(1)
}

// The bytes of the files that a manifest names, which have together at most so many.
fn read_blobs<R: Files + AllocGlobal>(
    rt: &R,
    path: &str,
    manifest: &Table,
    limit: u64,
) -> Result<Vec<Blob>, Failure> {
    let names = match blobs_of(rt.alloc(), manifest) {
        Ok(names) => names,
        Err(fault) => return Err(Failure::from(Fault::from(fault))),
    };
    let mut left = limit;
    let mut blobs = Vec::with_capacity(rt.alloc(), names.len())?;
    for (blob, name) in names.iter().enumerate() {
        let bytes = match beside(rt, path, name, left) {
            Ok(bytes) => bytes,
            Err(why) => return Err(no_blob(rt.alloc(), blob, name, left, why)),
        };
        left -= bytes.len() as u64;
        blobs.push(Blob::from_vec(rt.alloc(), bytes)?)?;
    }
    Ok(blobs)
}

// The bytes of a file that a manifest names: a path from the manifest's directory, or an absolute one.
fn beside<R: Files + AllocGlobal>(
    rt: &R,
    manifest: &str,
    name: &str,
    limit: u64,
) -> Result<Vec<u8>, Unread>
    ensures { IfOk result (λ bytes. length bytes.items ≤ limit) }
{
    match Path::new(manifest).with_file_name(rt.alloc(), name) {
        Ok(path) => bytes_of(rt, path.as_path(), limit),
        Err(_) => Err(Unread::Memory),
    }
}

// A blob that can't be read: which one, and why.
fn no_blob(alloc: Global, blob: usize, name: &str, left: u64, why: Unread) -> Failure {
    let fault = Fault::CannotReadBlob { blob };
    let name = Escaped(name.as_bytes());
    match why {
        Unread::Memory => Failure::from(Fault::Memory),
        Unread::Reason(error) => {
            Failure::because(alloc, fault, format_args!("blob {blob}, {name}: {error}"))
        }
        Unread::TooLong => Failure::because(
            alloc,
            fault,
            format_args!(
                "blob {blob}, {name}: the limit was reached: it has more than the {left} bytes that \
                 --manifest-limit leaves",
            ),
        ),
    }
}
