// The bytes of a file, by one of the keys that a manifest has for them.
ghost use Rattle.ov_server.specs.Devices.{Marks};

use crate::devices::Output;
use crate::fault::DeviceFault;
use crate::quoted::Quoted;
use ov_base::FileBytes;
use ov_devices::Sink;
use std::alloc::{AllocError, Global};
use std::str;

/// Puts out the bytes of a file by the key that takes the least: `zeros`, `text` or `hex`, or none
/// where there are none. They are gone over as they lie in memory; only a text in several places is
/// put together.
pub(crate) fn put_bytes<K: Sink>(
    alloc: Global,
    bytes: &FileBytes,
    output: &mut Output<K>,
) -> Result<(), DeviceFault>
    ensures { Marks (K.failures output.old.sink) (K.failures output.new.sink) result }
{
    if is_zero(bytes) {
        put_zeros(bytes.len(), &mut output.text)?;
        return Ok(());
    }
    if is_text(bytes) && has_few_controls(bytes) {
        put_text(alloc, bytes, &mut output.text)?;
        return output.relieve();
    }
    output.text.push_str("hex = \"")?;
    put_digits(bytes, output)?;
    output.text.push_str("\"\n")?;
    Ok(())
}

// Whether all bytes are zero.
fn is_zero(bytes: &FileBytes) -> bool {
    let mut place = 0;
    for _ in 0..u64::MAX {
        if place >= bytes.len() {
            return true;
        }
        let slice = bytes.slice_at(place);
        if !slice.iter().all(|byte| *byte == 0) {
            return false;
        }
        place = place.saturating_add(slice.len());
    }
    false
}

// Whether the bytes are UTF-8.
fn is_text(bytes: &FileBytes) -> bool {
    let mut place = 0;
    for _ in 0..u64::MAX {
        if place >= bytes.len() {
            return true;
        }
        let count = text_from(bytes, place);
        if count == 0 {
            return false;
        }
        place = place.saturating_add(count);
    }
    false
}

// How many bytes from a place on are whole characters, as far as they lie one after another.
fn text_from(bytes: &FileBytes, place: usize) -> usize {
    if place >= bytes.len() {
        return 0;
    }
    let count = text_front(bytes.slice_at(place));
    if count > 0 {
        return count;
    }
    // The character may go on elsewhere.
    let mut character = [0; 4];
    let count = bytes.read_into(place, &mut character);
    text_front(&character[..count.min(4)])
}

// How many bytes at the front are whole characters.
fn text_front(bytes: &[u8]) -> usize {
    match str::from_utf8(bytes) {
        Ok(_) => bytes.len(),
        Err(fault) => fault.valid_up_to(),
    }
}

// Adds so many zero bytes.
fn put_zeros(count: usize, text: &mut String) -> Result<(), AllocError> {
    if count == 0 {
        return Ok(());
    }
    writeln!(text, "zeros = {count}")
}

// Whether a text of these bytes takes less than two digits for each: a control character takes six.
fn has_few_controls(bytes: &FileBytes) -> bool {
    let mut controls: usize = 0;
    let mut place = 0;
    for _ in 0..u64::MAX {
        if place >= bytes.len() {
            break;
        }
        let slice = bytes.slice_at(place);
        let count = slice.iter().filter(|byte| is_control(**byte)).count();
        controls = controls.saturating_add(count);
        place = place.saturating_add(slice.len());
    }
    controls <= bytes.len() / 5
}

fn is_control(byte: u8) -> bool {
    byte < b' ' && byte != b'\n' && byte != b'\t' || byte == 0x7f
}

// Adds the bytes of a text, which are some.
fn put_text(alloc: Global, bytes: &FileBytes, text: &mut String) -> Result<(), AllocError> {
    if bytes.len() == 0 {
        return Ok(());
    }
    let slice = bytes.slice_at(0);
    if slice.len() == bytes.len() {
        return put_quoted(slice, text);
    }
    let mut all = Vec::new(alloc);
    bytes.append_to(0, bytes.len(), &mut all)?;
    put_quoted(all.as_slice(), text)
}

fn put_quoted(bytes: &[u8], text: &mut String) -> Result<(), AllocError> {
    let quoted = Quoted(str::from_utf8(bytes).unwrap_or(""));
    writeln!(text, "text = {quoted}")
}

// Puts out the digits of the bytes.
fn put_digits<K: Sink>(bytes: &FileBytes, output: &mut Output<K>) -> Result<(), DeviceFault>
    ensures { Marks (K.failures output.old.sink) (K.failures output.new.sink) result }
{
    let mut place = 0;
    for _ in 0..u64::MAX {
        if place >= bytes.len() {
            break;
        }
        let slice = bytes.slice_at(place);
        put_pairs(slice, output)?;
        place = place.saturating_add(slice.len());
    }
    Ok(())
}

fn put_pairs<K: Sink>(bytes: &[u8], output: &mut Output<K>) -> Result<(), DeviceFault>
    ensures { Marks (K.failures output.old.sink) (K.failures output.new.sink) result }
{
    for byte in bytes {
        let byte = *byte;
        write!(output.text, "{byte:02x}")?;
        output.relieve()?;
    }
    Ok(())
}
