// A piece of a file's bytes.
ghost use Rattle.std.specs.Prelude.{◌≡◌, ◌+◌, ◌^◌, ◌<◌, ◌≤◌, ◌++◌, IfOk, is_ok, if◌then◌else◌};
ghost use Rattle.std.specs.Prelude.{drop, length, replicate, take};
ghost use Rattle.file_bytes.specs.Bytes.{over};

use crate::held::{Held, cut, fill, laid_of, lay_over, len_of, settle, share_of, slice_at};
use crate::stretch::Stretch;
use std::alloc::{AllocError, Global};
use std::marker::Model;

/// A piece of a file's bytes.
#[derive(Drop)]
pub struct Piece {
    held: Held,
}

impl Model for Piece {
    ghost use Rattle.std.specs.Prelude.{List, ℕ};
    ghost use Rattle.file_bytes.specs.Held.{held_bytes};

    ghost Value = { List ℕ };

    ghost view = { λ p. held_bytes p.held };
}

impl Piece {
    /// These bytes, with no copy.
    pub fn own(bytes: Vec<u8>) -> Piece
        ensures { result ≡ bytes.items }
    {
        Piece {
            held: Held::Own(bytes),
        }
    }

    /// These bytes, which others share.
    pub fn lent(stretch: Stretch) -> Piece
        ensures { result ≡ stretch }
    {
        Piece {
            held: Held::Lent(stretch),
        }
    }

    /// How many bytes it has.
    pub fn len(&self) -> usize
        ensures { result ≡ length self.now }
    {
        len_of(&self.held)
    }

    /// Its bytes from a place on, as far as they lie one after another.
    pub fn slice_at(&self, at: usize) -> &[u8]
        requires { at < length self.now }
        ensures some { 0 < length result.now }
        ensures bytes { result.now ≡ take (length result.now) (drop at self.now) }
    {
        slice_at(&self.held, at)
    }

    /// The same bytes for another owner: those that are its own are copied.
    pub fn share(&self, alloc: Global) -> Result<Piece, AllocError>
        ensures { IfOk result (λ p. p ≡ self.now) }
    {
        let held = share_of(alloc, &self.held)?;
        Ok(Piece { held })
    }

    /// Keeps its first bytes.
    pub fn cut(&mut self, count: usize)
        requires { count ≤ length self.old }
        ensures { self.new ≡ take count self.old }
    {
        cut(&mut self.held, count);
    }

    /// A copy with bytes laid over it from a place on.
    pub fn laid(&self, alloc: Global, start: usize, bytes: &[u8]) -> Result<Piece, AllocError>
        requires start { start ≤ length self.now }
        requires end { start + length bytes.now < 2 ^ 64 }
        ensures { IfOk result (λ p. p ≡ over self.now start bytes.now) }
    {
        let held = laid_of(alloc, &self.held, start, bytes)?;
        Ok(Piece { held })
    }

    /// Lays bytes over these from a place on; what others share stays as it is. It fails only when
    /// out of memory, and changes nothing then.
    pub fn lay_over(&mut self, alloc: Global, start: usize, bytes: &[u8]) -> Result<(), AllocError>
        requires start { start ≤ length self.old }
        requires end { start + length bytes.now < 2 ^ 64 }
        ensures { self.new ≡ (if is_ok result then over self.old start bytes.now else self.old) }
    {
        lay_over(alloc, &mut self.held, start, bytes)
    }

    /// Puts zero bytes at its end; bytes that others share are copied before. It fails only when
    /// out of memory, and changes nothing then.
    pub fn fill(&mut self, alloc: Global, count: usize) -> Result<(), AllocError>
        requires { length self.old + count < 2 ^ 64 }
        ensures { self.new ≡ (if is_ok result then self.old ++ replicate count 0 else self.old) }
    {
        fill(alloc, &mut self.held, count)
    }

    /// Puts bytes of its own where others can share them: none is copied. It fails only when out of
    /// memory, and changes no byte.
    pub fn settle(&mut self, alloc: Global) -> Result<(), AllocError>
        ensures { self.new ≡ self.old }
    {
        settle(alloc, &mut self.held)
    }
}
