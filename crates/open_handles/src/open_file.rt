// One file that is open, and its places in bytes.
ghost use Rattle.std.specs.Prelude.{◌≡◌, ◌<◌, ◌≤◌, ◌^◌, IfOk};
ghost use Rattle.open_handles.specs.Places.{sought_from, base_of, write_begin, count_fitting, IsSeekBase, IsWritePlace, AreFitting};

use ov_base::{Errno, Place};

/// The greatest place in a file, in bytes: 2^63 - 1, as `off_t` has it.
pub const PLACE_MAX: u64 = 0x7fff_ffff_ffff_ffff;

/// Where an open file's bytes are: in the upper under a key, or in a lower layer, which never
/// changes (overlayfs.rst, "Non-standard behavior").
#[derive(Clone, Copy)]
pub enum FileSource {
    Upper(usize),
    Lower { layer: usize, key: usize },
}

/// A file that is open, the lower file whose bytes it keeps if it keeps any, its access, and its
/// place in bytes (POSIX.1-2017, "Open File Description"; overlayfs.rst, "Non-standard behavior").
#[derive(Clone, Copy)]
pub struct OpenFile {
    pub source: FileSource,
    pub low: Option<Place>,
    pub reads: bool,
    pub writes: bool,
    pub append: bool,
    pub place: u64,
}

impl OpenFile {
    /// From where a seek counts in a file of so many bytes: its start, its place, or its end.
    /// Another whence is EINVAL (lseek(2)).
    pub fn seek_base(&self, whence: u8, size: usize) -> Result<u64, Errno>
        ensures base { result ≡ base_of self.now.place size whence }
        ensures machine { IfOk result (IsSeekBase self.now.place size whence) }
    {
        match whence {
            0 => Ok(0),
            1 => Ok(self.place),
            2 => Ok(size as u64),
            _ => Err(Errno::EINVAL),
        }
    }

    /// Where a write to a file of so many bytes begins: at its end with O_APPEND, else at the place
    /// (open(2)).
    pub fn write_place(&self, size: usize) -> u64
        ensures place { result ≡ write_begin self.now size }
        ensures machine { IsWritePlace self.now size result }
    {
        if self.append { size as u64 } else { self.place }
    }
}

/// The place that a seek leads to. Over 2^63 - 1 is EOVERFLOW, below 0 EINVAL (lseek(2)).
pub fn sought(base: u64, offset: i64) -> Result<u64, Errno>
    ensures place { result ≡ sought_from base offset }
    ensures bound { IfOk result (λ place. place < 2 ^ 63) }
{
    match base.checked_add_signed(offset) {
        None if offset < 0 => Err(Errno::EINVAL),
        None => Err(Errno::EOVERFLOW),
        Some(place) if place > PLACE_MAX => Err(Errno::EOVERFLOW),
        Some(place) => Ok(place),
    }
}

/// How many of so many bytes fit into a file of at most `limit` bytes from a place on. EFBIG where
/// there are any and the place is there or over (write(2)).
pub fn fitting(limit: u64, at: u64, count: usize) -> Result<usize, Errno>
    ensures count { result ≡ count_fitting limit at count }
    ensures within { IfOk result (λ n. n ≤ count) }
    ensures machine { IfOk result (AreFitting limit at count) }
{
    let room = limit.saturating_sub(at) as usize;
    if count > 0 && room == 0 {
        return Err(Errno::EFBIG);
    }
    Ok(room.min(count))
}
