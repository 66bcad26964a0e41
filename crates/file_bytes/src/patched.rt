// A stretch of which a part was written.
ghost use Rattle.std.specs.Prelude.{◌≡◌, ◌+◌, ◌^◌, ◌<◌, ◌≤◌, IfOk, OnErr};
ghost use Rattle.std.specs.Prelude.{if◌then◌else◌, drop, length, take};
ghost use Rattle.file_bytes.specs.Bytes.{over};

use crate::laying::{laid, lay_in};
use crate::stretch::Stretch;
use std::alloc::{AllocError, Global};
use std::marker::Model;

/// Bytes that others share, with bytes of its own laid over them from a place on.
#[derive(Drop)]
pub struct Patched {
    under: Stretch,
    at: usize,
    own: Vec<u8>,
}

impl Model for Patched {
    ghost use Rattle.std.specs.Prelude.{List, ℕ, ◌+◌, ◌^◌, ◌<◌, ◌≤◌, length};
    ghost use Rattle.file_bytes.specs.Bytes.{over};

    ghost Value = { List ℕ };

    ghost view = { λ p. over p.under p.at p.own.items };

    ghost invariant = { λ p. (p.at ≤ length p.under) × (p.at + length p.own.items < 2 ^ 64) };
}

impl Patched {
    /// A stretch with these bytes laid over it from a place on.
    pub fn of(under: Stretch, at: usize, own: Vec<u8>) -> Patched
        requires start { at ≤ length under }
        requires end { at + length own.items < 2 ^ 64 }
        ensures { result ≡ over under at own.items }
    {
        Patched { under, at, own }
    }

    /// How many there are.
    pub fn len(&self) -> usize
        ensures { result ≡ length self.now }
    {
        self.under.len().max(self.at + self.own.len())
    }

    /// The bytes from a place on, as far as they lie one after another.
    pub fn slice_at(&self, place: usize) -> &[u8]
        requires { place < length self.now }
        ensures some { 0 < length result.now }
        ensures bytes { result.now ≡ take (length result.now) (drop place self.now) }
    {
        if place < self.at {
            return &self.under.as_slice()[place..self.at];
        }
        if place < self.at + self.own.len() {
            return &self.own.as_slice()[place - self.at..];
        }
        &self.under.as_slice()[place..]
    }

    /// A copy of all in one vector.
    pub fn to_vec(&self, alloc: Global) -> Result<Vec<u8>, AllocError>
        ensures { IfOk result (λ v. v.items ≡ self.now) }
    {
        laid(alloc, self.under.as_slice(), self.at, self.own.as_slice())
    }

    /// The same bytes for another owner: those of its own are copied.
    pub fn share(&self, alloc: Global) -> Result<Patched, AllocError>
        ensures { IfOk result (λ p. p ≡ self.now) }
    {
        let under = self.under.part(0, self.under.len())?;
        let own = Vec::from_slice(alloc, self.own.as_slice())?;
        Ok(Patched {
            under,
            at: self.at,
            own,
        })
    }

    /// Keeps the first bytes.
    pub fn cut(&mut self, count: usize)
        requires { count ≤ length self.old }
        ensures { self.new ≡ take count self.old }
    {
        let at = self.at.min(count);
        self.at = at;
        self.own.truncate(count - at);
        let len = self.under.len().min(count);
        self.under.cut(len);
    }

    /// Lays bytes over these from a place on, where that is in its own or at their end, and returns
    /// whether it did. It fails only when out of memory, and changes nothing then.
    pub fn lay_over(&mut self, start: usize, bytes: &[u8]) -> Result<bool, AllocError>
        requires { start + length bytes.now < 2 ^ 64 }
        ensures ok { IfOk result (λ is_laid. self.new
            ≡ (if is_laid then over self.old start bytes.now else self.old)) }
        ensures err { OnErr result (self.new ≡ self.old) }
    {
        if start < self.at || self.at + self.own.len() < start {
            return Ok(false);
        }
        let from = start - self.at;
        lay_in(&mut self.own, from, bytes)?;
        Ok(true)
    }
}
