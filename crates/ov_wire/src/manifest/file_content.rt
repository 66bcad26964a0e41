// The bytes of an entry of kind `file`, which one of four keys may give.
ghost use Rattle.std.specs.Prelude.{◌≡◌, ◌<◌, IfOk, IfSome, replicate};
ghost use Rattle.std.specs.Option.{ok_or};
ghost use Rattle.toml.specs.View.{table_view};
ghost use Rattle.ov_wire.specs.ManifestEntries.{Answers};
ghost use Rattle.ov_wire.specs.ManifestEntries as spec;

use super::blob::Blob;
use super::entry::{integer_at, number_within, text_at, value_at};
use super::fault::{EntryError, EntryFault};
use super::stretch::stretch;
use ov_base::FileBytes;
use std::alloc::{AllocError, Global};
use toml::Table;

// Whether at most one key gives the bytes.
pub(super) fn gives_bytes_once(entry: &Table) -> bool
    ensures { result ≡ spec.gives_bytes_once (table_view entry.now) }
{
    let has_zeros = has_key(entry, "zeros");
    let has_blob = has_key(entry, "blob");
    if has_key(entry, "text") {
        !(has_key(entry, "hex") || has_zeros || has_blob)
    } else if has_key(entry, "hex") {
        !(has_zeros || has_blob)
    } else {
        !(has_zeros && has_blob)
    }
}

// Whether there is a blob where there is a part of one.
pub(super) fn names_blob(entry: &Table) -> bool
    ensures { result ≡ spec.names_blob (table_view entry.now) }
{
    has_key(entry, "blob") || !(has_key(entry, "at") || has_key(entry, "size"))
}

fn has_key(entry: &Table, key: &str) -> bool
    ensures { result ≡ spec.has_key key.now (table_view entry.now) }
{
    value_at(entry, key).is_some()
}

// The bytes of an entry of kind `file`, at most `limit`.
pub(super) fn bytes_of(
    alloc: Global,
    limit: u64,
    blobs: &[Blob],
    entry: &Table,
) -> Result<FileBytes, EntryError>
    ensures { Answers result (spec.bytes_of limit blobs.now (table_view entry.now)) }
{
    let given = bytes_given(alloc, limit, blobs, entry)?;
    if given.len() as u64 > limit {
        return Err(EntryError::Fault(EntryFault::Value));
    }
    Ok(given)
}

fn bytes_given(
    alloc: Global,
    limit: u64,
    blobs: &[Blob],
    entry: &Table,
) -> Result<FileBytes, EntryError>
    ensures { Answers result (spec.bytes_given limit blobs.now (table_view entry.now)) }
{
    if let Some(text) = text_at(entry, "text") {
        let bytes = Vec::from_slice(alloc, text.as_bytes())?;
        return Ok(FileBytes::from_vec(alloc, bytes)?);
    }
    if let Some(digits) = text_at(entry, "hex") {
        return bytes_spelled(alloc, digits.as_bytes());
    }
    if let Some(count) = integer_at(entry, "zeros") {
        return zero_bytes(alloc, limit, count);
    }
    match integer_at(entry, "blob") {
        Some(number) => part_of(alloc, limit, blobs, entry, number),
        None => Ok(FileBytes::new(alloc)),
    }
}

// The bytes of the blob of a number that an entry takes, at most `limit`.
fn part_of(
    alloc: Global,
    limit: u64,
    blobs: &[Blob],
    entry: &Table,
    number: i64,
) -> Result<FileBytes, EntryError>
    ensures { Answers result (spec.part_of limit blobs.now (table_view entry.now) number) }
{
    let at = integer_at(entry, "at");
    let size = integer_at(entry, "size");
    let (blob, start, count) = stretch(blobs, number, at, size)?;
    let bytes = blob.part(alloc, start, count)?;
    if bytes.len() as u64 > limit {
        return Err(EntryError::Fault(EntryFault::Value));
    }
    Ok(bytes)
}

// So many zero bytes, at most `limit`.
fn zero_bytes(alloc: Global, limit: u64, count: i64) -> Result<FileBytes, EntryError>
    ensures { Answers result (spec.zero_bytes limit count) }
{
    let count = number_within(limit, count)?;
    Ok(hole(alloc, count as usize)?)
}

#[tactic(auto, using(crate::proofs::Holes::sized_nothing))]
// So many zero bytes, which take little memory.
fn hole(alloc: Global, count: usize) -> Result<FileBytes, AllocError>
    ensures { IfOk result (λ bytes. bytes ≡ replicate count 0) }
{
    let mut bytes = FileBytes::new(alloc);
    bytes.resize(count)?;
    bytes.settle()?;
    Ok(bytes)
}

// The bytes that pairs of lower case hexadecimal digits spell.
fn bytes_spelled(alloc: Global, digits: &[u8]) -> Result<FileBytes, EntryError>
    ensures { Answers result (ok_or (spec.hex_bytes digits.now) EntryFault.Value) }
{
    let count = digits.len() / 2;
    if digits.len() != 2 * count {
        return Err(EntryError::Fault(EntryFault::Value));
    }
    let mut bytes = Vec::with_capacity(alloc, count)?;
    for index in 0..count {
        match pair_value(digits[2 * index], digits[2 * index + 1]) {
            Some(byte) => bytes.push(byte)?,
            None => return Err(EntryError::Fault(EntryFault::Value)),
        }
    }
    Ok(FileBytes::from_vec(alloc, bytes)?)
}

// The byte that two digits spell, the higher first.
fn pair_value(high: u8, low: u8) -> Option<u8>
    ensures { result ≡ spec.pair_value high low }
{
    let high = digit_value(high)?;
    let low = digit_value(low)?;
    Some(16 * high + low)
}

fn digit_value(byte: u8) -> Option<u8>
    ensures value { result ≡ spec.digit_value byte }
    ensures digit { IfSome result (λ d. d < 16) }
{
    match byte {
        b'0'..=b'9' => Some(byte - b'0'),
        b'a'..=b'f' => Some(byte - b'a' + 10),
        _ => None,
    }
}
