// Bytes that are laid over others.
ghost use Rattle.std.specs.Prelude.{◌≡◌, ◌+◌, ◌^◌, ◌<◌, ◌≤◌, IfOk, is_ok};
ghost use Rattle.std.specs.Prelude.{if◌then◌else◌, length};
ghost use Rattle.file_bytes.specs.Bytes.{over};

use std::alloc::{AllocError, Global};

/// A copy of bytes with others laid over it from a place on.
pub fn laid(alloc: Global, under: &[u8], start: usize, bytes: &[u8]) -> Result<Vec<u8>, AllocError>
    requires start { start ≤ length under.now }
    requires end { start + length bytes.now < 2 ^ 64 }
    ensures { IfOk result (λ v. v.items ≡ over under.now start bytes.now) }
{
    let end = start + bytes.len();
    let mut all = Vec::with_capacity(alloc, end.max(under.len()))?;
    all.extend_from_slice(&under[..start])?;
    all.extend_from_slice(bytes)?;
    if end < under.len() {
        all.extend_from_slice(&under[end..])?;
    }
    Ok(all)
}

/// Lays bytes over those of a vector from a place on. It fails only when out of memory, and changes
/// nothing then.
pub fn lay_in(all: &mut Vec<u8>, start: usize, bytes: &[u8]) -> Result<(), AllocError>
    requires start { start ≤ length all.old.items }
    requires end { start + length bytes.now < 2 ^ 64 }
    ensures { all.new.items
        ≡ (if is_ok result then over all.old.items start bytes.now
        else all.old.items) }
{
    let end = start + bytes.len();
    if all.len() <= end {
        let more = end - all.len();
        all.reserve(more)?;
        all.truncate(start);
        return all.extend_from_slice(bytes);
    }
    copy_in(&mut all[..], start, bytes);
    Ok(())
}

/// Copies bytes over those of a slice from a place on.
pub fn copy_in(all: &mut [u8], start: usize, bytes: &[u8])
    requires { start + length bytes.now ≤ length all.old }
    ensures { all.new ≡ over all.old start bytes.now }
{
    all[start..start + bytes.len()].copy_from_slice(bytes);
}
