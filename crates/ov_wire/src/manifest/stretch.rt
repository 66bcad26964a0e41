// Where in a blob the bytes of an entry lie.
ghost use Rattle.std.specs.Prelude.{◌≡◌, ◌+◌, ◌≤◌, Ok, Err, IfOk, IfErr, drop, length, take};
ghost use Rattle.ov_wire.specs.ManifestEntries as spec;

use super::blob::Blob;
use super::entry::number_within;
use super::fault::EntryFault;

// The blob of a number, and where in it the bytes of an entry lie: from a place on or else from its
// start, so many or else all that are left.
pub(super) fn stretch(
    blobs: &[Blob],
    number: i64,
    at: Option<i64>,
    size: Option<i64>,
) -> Result<(&Blob, usize, usize), EntryFault>
    ensures ok { IfOk result (λ r.
        spec.stretch blobs.now number at size ≡ Ok (take r.2 (drop r.1 r.0.now))) }
    ensures err { IfErr result (λ fault. spec.stretch blobs.now number at size ≡ Err fault) }
    ensures within { IfOk result (λ r. r.1 + r.2 ≤ length r.0.now) }
{
    let blob = blob_at(blobs, number)?;
    let bytes = blob.as_slice();
    let start = number_or(bytes.len() as u64, 0, at)?;
    let count = count_of(&bytes[start as usize..], size)?;
    Ok((blob, start as usize, count))
}

fn blob_at(blobs: &[Blob], number: i64) -> Result<&Blob, EntryFault>
    ensures ok { IfOk result (λ blob. spec.blob_at blobs.now number ≡ Ok blob.now) }
    ensures err { IfErr result (λ fault. spec.blob_at blobs.now number ≡ Err fault) }
{
    if number < 0 {
        return Err(EntryFault::Value);
    }
    match blobs.get(number as usize) {
        Some(blob) => Ok(blob),
        None => Err(EntryFault::Value),
    }
}

// How many of these bytes are taken: so many, all of them without a number.
fn count_of(bytes: &[u8], size: Option<i64>) -> Result<usize, EntryFault>
    ensures ok { IfOk result (λ count. spec.first_of bytes.now size ≡ Ok (take count bytes.now)) }
    ensures err { IfErr result (λ fault. spec.first_of bytes.now size ≡ Err fault) }
    ensures within { IfOk result (λ count. count ≤ length bytes.now) }
{
    let length = bytes.len() as u64;
    let count = number_or(length, length, size)?;
    Ok(count as usize)
}

// A number, which may be at most `most`; `default` without one.
fn number_or(most: u64, default: u64, number: Option<i64>) -> Result<u64, EntryFault>
    requires { default ≤ most }
    ensures number { result ≡ spec.number_in most default number }
    ensures most { IfOk result (λ n. n ≤ most) }
{
    match number {
        Some(number) => number_within(most, number),
        None => Ok(default),
    }
}
