// A file's bytes.
ghost use Rattle.std.specs.Prelude.{◌≡◌, ◌+◌, ◌^◌, ◌<◌, ◌≤◌, ◌++◌, [], IfOk, IsOk, OnOk, is_ok};
ghost use Rattle.std.specs.Prelude.{if◌then◌else◌, drop, length, take};
ghost use Rattle.std.specs.Arc.{arc_value};
ghost use Rattle.file_bytes.specs.Bytes.{over, sized, written};

use crate::grid::CHUNK;
use crate::laying::copy_in;
use crate::stored;
use crate::stored::{SMALL, Stored};
use crate::stretch::Stretch;
use std::alloc::{AllocError, Global};
use std::marker::Model;
use std::sync::Arc;

/// A file's bytes: they are shared with other files until they are written.
#[derive(Drop)]
pub struct FileBytes {
    alloc: Global,
    stored: Stored,
}

impl Model for FileBytes {
    ghost use Rattle.std.specs.Prelude.{List, ℕ};
    ghost use Rattle.file_bytes.specs.Stored.{stored_bytes, IsStored};

    ghost Value = { List ℕ };

    ghost view = { λ f. stored_bytes f.stored };

    ghost invariant = { λ f. IsStored f.stored };
}

impl FileBytes {
    /// No bytes.
    pub fn new(alloc: Global) -> FileBytes
        ensures { result ≡ [] }
    {
        FileBytes {
            alloc,
            stored: Stored::Own(Vec::new(alloc)),
        }
    }

    /// These bytes: none is copied, and where they are many, none is when they are shared.
    pub fn from_vec(alloc: Global, bytes: Vec<u8>) -> Result<FileBytes, AllocError>
        ensures { IfOk result (λ f. f ≡ bytes.items) }
    {
        if bytes.len() <= SMALL {
            return Ok(FileBytes {
                alloc,
                stored: Stored::Own(bytes),
            });
        }
        let len = bytes.len();
        let blob = Arc::new(alloc, bytes)?;
        Ok(FileBytes::from_blob(alloc, blob, 0, len))
    }

    /// So many bytes of a shared vector from a place on: none is copied.
    pub fn from_blob(alloc: Global, blob: Arc<Vec<u8>, Global>, at: usize, len: usize) -> FileBytes
        requires { at + len ≤ length (arc_value blob).items }
        ensures { result ≡ take len (drop at (arc_value blob).items) }
    {
        FileBytes {
            alloc,
            stored: Stored::Lent(Stretch::of(blob, at, len)),
        }
    }

    /// How many there are.
    pub fn len(&self) -> usize
        ensures { result ≡ length self.now }
    {
        stored::len_of(&self.stored)
    }

    /// The bytes from a place on, as far as they lie one after another: at least one.
    pub fn slice_at(&self, at: usize) -> &[u8]
        requires { at < length self.now }
        ensures some { 0 < length result.now }
        ensures bytes { result.now ≡ take (length result.now) (drop at self.now) }
    {
        stored::slice_at(&self.stored, at)
    }

    /// The first bytes for another file.
    pub fn share(&self, count: usize) -> Result<FileBytes, AllocError>
        ensures { IfOk result (λ f. f ≡ take count self.now) }
    {
        let count = count.min(self.len());
        let stored = stored::share_of(self.alloc, &self.stored, count)?;
        Ok(FileBytes {
            alloc: self.alloc,
            stored,
        })
    }

    /// Puts bytes from a place on at the end of a vector, so many or those that are left. It fails
    /// only when out of memory.
    pub fn append_to(&self, at: usize, count: usize, to: &mut Vec<u8>) -> Result<(), AllocError>
        ensures { OnOk result (
            to.new.items ≡ to.old.items ++ take count (drop at self.now)) }
    {
        let len = self.len();
        if at >= len {
            return Ok(());
        }
        let end = at + count.min(len - at);
        to.reserve(end - at)?;
        let mut place = at;
        while place < end {
            let slice = self.slice_at(place);
            let part = &slice[..slice.len().min(end - place)];
            to.extend_from_slice(part)?;
            place += part.len();
        }
        Ok(())
    }

    /// Copies the bytes from a place on into a buffer, as many as it takes or as there are, and
    /// returns how many; the rest of the buffer stays.
    pub fn read_into(&self, at: usize, to: &mut [u8]) -> usize
        ensures count { result ≡ length (take (length to.old) (drop at self.now)) }
        ensures bytes { to.new
            ≡ take (length to.old) (drop at self.now) ++ drop result to.old }
    {
        let len = self.len();
        if at >= len {
            return 0;
        }
        let count = to.len().min(len - at);
        let mut done = 0;
        while done < count {
            let slice = self.slice_at(at + done);
            let size = slice.len().min(count - done);
            copy_in(to, done, &slice[..size]);
            done += size;
        }
        count
    }

    /// Cuts the bytes to a length, or fills them with zero bytes up to it. It fails only when out
    /// of memory, and changes nothing then; a cut never fails.
    pub fn resize(&mut self, size: usize) -> Result<(), AllocError>
        ensures sized { self.new ≡ (if is_ok result then sized self.old size else self.old) }
        ensures succeeds { size ≤ length self.old → IsOk result }
    {
        let len = self.len();
        if size <= len {
            stored::cut(&mut self.stored, size);
            return Ok(());
        }
        stored::grow(self.alloc, &mut self.stored, size - len)
    }

    /// Lays bytes over these from a place on, with zero bytes between their end and that place. It
    /// fails only when out of memory, and changes nothing then. More than 65,536 bytes are laid
    /// over a copy, which takes the place of the file at the end.
    pub fn lay_over(&mut self, start: usize, bytes: &[u8]) -> Result<(), AllocError>
        requires { start + length bytes.now < 2 ^ 64 }
        ensures { self.new ≡ (if is_ok result then written self.old start bytes.now else self.old) }
    {
        if bytes.len() <= CHUNK {
            return self.lay_few(start, bytes);
        }
        let mut copy = self.share(self.len())?;
        copy.lay_many(start, bytes)?;
        *self = copy;
        Ok(())
    }

    // Lays at most the bytes of one piece over these. An allocation failure changes nothing.
    fn lay_few(&mut self, start: usize, bytes: &[u8]) -> Result<(), AllocError>
        requires few { length bytes.now ≤ 65536 }
        requires end { start + length bytes.now < 2 ^ 64 }
        ensures { self.new ≡ (if is_ok result then written self.old start bytes.now else self.old) }
    {
        let len = self.len();
        if start <= len {
            return stored::lay_over(self.alloc, &mut self.stored, start, bytes);
        }
        stored::grow(self.alloc, &mut self.stored, start - len)?;
        let outcome = stored::lay_over(self.alloc, &mut self.stored, start, bytes);
        if outcome.is_err() {
            stored::cut(&mut self.stored, len);
        }
        outcome
    }

    // Lays bytes over these, those of one piece after another. Without memory some are laid.
    fn lay_many(&mut self, start: usize, bytes: &[u8]) -> Result<(), AllocError>
        requires { start + length bytes.now < 2 ^ 64 }
        ensures { OnOk result (self.new ≡ written self.old start bytes.now) }
    {
        let mut done = CHUNK.min(bytes.len());
        self.lay_few(start, &bytes[..done])?;
        while done < bytes.len() {
            let count = CHUNK.min(bytes.len() - done);
            self.lay_few(start + done, &bytes[done..done + count])?;
            done += count;
        }
        Ok(())
    }

    /// Lets later owners share the bytes that were written since: none is copied. It fails only
    /// when out of memory, and changes nothing that is seen.
    pub fn settle(&mut self) -> Result<(), AllocError>
        ensures { self.new ≡ self.old }
    {
        stored::settle(self.alloc, &mut self.stored)
    }
}

impl Clone for FileBytes {
    ghost is_clone = { λ a b. b ≡ a };

    fn clone(&self) -> Result<FileBytes, AllocError> {
        self.share(self.len())
    }
}
