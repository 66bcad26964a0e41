// What holds the bytes of a piece.
ghost use Rattle.std.specs.Prelude.{◌≡◌, ◌+◌, ◌^◌, ◌<◌, ◌≤◌, ◌++◌, IfOk, OnErr, is_ok};
ghost use Rattle.std.specs.Prelude.{if◌then◌else◌, drop, length, replicate, take};
ghost use Rattle.file_bytes.specs.Bytes.{over};
ghost use Rattle.file_bytes.specs.Held.{held_bytes};

use crate::laying::{laid, lay_in};
use crate::patched::Patched;
use crate::stretch::Stretch;
use std::alloc::{AllocError, Global};
use std::mem::replace;
use std::sync::Arc;

/// The most bytes of a write that are laid over a shared stretch as they are; for more of them, and
/// where the stretch is no longer than that, the stretch is copied.
const FEW: usize = 4_096;

/// A vector of its own, a stretch that others share, or such a stretch with bytes of its own over a
/// part of it.
#[derive(Drop)]
pub enum Held {
    Own(Vec<u8>),
    Lent(Stretch),
    Patched(Box<Patched>),
}

/// How many bytes there are.
pub fn len_of(held: &Held) -> usize
    ensures { result ≡ length (held_bytes held.now) }
{
    match held {
        Held::Own(bytes) => bytes.len(),
        Held::Lent(stretch) => stretch.len(),
        Held::Patched(patched) => patched.len(),
    }
}

/// The bytes from a place on, as far as they lie one after another.
pub fn slice_at(held: &Held, at: usize) -> &[u8]
    requires { at < length (held_bytes held.now) }
    ensures some { 0 < length result.now }
    ensures bytes { result.now ≡ take (length result.now) (drop at (held_bytes held.now)) }
{
    match held {
        Held::Own(bytes) => &bytes.as_slice()[at..],
        Held::Lent(stretch) => &stretch.as_slice()[at..],
        Held::Patched(patched) => patched.slice_at(at),
    }
}

/// The same bytes for another owner: those of its own are copied.
pub fn share_of(alloc: Global, held: &Held) -> Result<Held, AllocError>
    ensures { IfOk result (λ h. held_bytes h ≡ held_bytes held.now) }
{
    match held {
        Held::Own(bytes) => {
            let copy = Vec::from_slice(alloc, bytes.as_slice())?;
            Ok(Held::Own(copy))
        }
        Held::Lent(stretch) => {
            let part = stretch.part(0, stretch.len())?;
            Ok(Held::Lent(part))
        }
        Held::Patched(patched) => {
            let copy = patched.share(alloc)?;
            let boxed = Box::new(alloc, copy)?;
            Ok(Held::Patched(boxed))
        }
    }
}

/// Keeps the first bytes.
pub fn cut(held: &mut Held, count: usize)
    requires { count ≤ length (held_bytes held.old) }
    ensures { held_bytes held.new ≡ take count (held_bytes held.old) }
{
    match held {
        Held::Own(bytes) => bytes.truncate(count),
        Held::Lent(stretch) => stretch.cut(count),
        Held::Patched(patched) => patched.cut(count),
    }
}

/// Lays bytes over these from a place on; what others share stays as it is. It fails only when out
/// of memory, and changes nothing then.
pub fn lay_over(
    alloc: Global,
    held: &mut Held,
    start: usize,
    bytes: &[u8],
) -> Result<(), AllocError>
    requires start { start ≤ length (held_bytes held.old) }
    requires end { start + length bytes.now < 2 ^ 64 }
    ensures { held_bytes held.new
        ≡ (if is_ok result then over (held_bytes held.old) start bytes.now
        else held_bytes held.old) }
{
    let is_laid = lay_own(held, start, bytes)?;
    if is_laid {
        return Ok(());
    }
    let laid = laid_of(alloc, held, start, bytes)?;
    *held = laid;
    Ok(())
}

// Lays bytes over these where that changes what is its own, and returns whether it did. It fails
// only when out of memory, and changes nothing then.
fn lay_own(held: &mut Held, start: usize, bytes: &[u8]) -> Result<bool, AllocError>
    requires start { start ≤ length (held_bytes held.old) }
    requires end { start + length bytes.now < 2 ^ 64 }
    ensures ok { IfOk result (λ is_laid. held_bytes held.new
        ≡ (if is_laid then over (held_bytes held.old) start bytes.now else held_bytes held.old)) }
    ensures err { OnErr result (held_bytes held.new ≡ held_bytes held.old) }
{
    match held {
        Held::Own(own) => {
            lay_in(own, start, bytes)?;
            Ok(true)
        }
        Held::Lent(_) => Ok(false),
        Held::Patched(patched) => patched.lay_over(start, bytes),
    }
}

/// The same bytes with others laid over them from a place on, for another owner.
pub fn laid_of(alloc: Global, held: &Held, start: usize, bytes: &[u8]) -> Result<Held, AllocError>
    requires start { start ≤ length (held_bytes held.now) }
    requires end { start + length bytes.now < 2 ^ 64 }
    ensures { IfOk result (λ h. held_bytes h ≡ over (held_bytes held.now) start bytes.now) }
{
    match held {
        Held::Own(own) => {
            let all = laid(alloc, own.as_slice(), start, bytes)?;
            Ok(Held::Own(all))
        }
        Held::Lent(stretch) => laid_on(alloc, stretch, start, bytes),
        Held::Patched(patched) => {
            let mut all = patched.to_vec(alloc)?;
            lay_in(&mut all, start, bytes)?;
            Ok(Held::Own(all))
        }
    }
}

// A stretch with bytes laid over it: few are kept beside it.
fn laid_on(alloc: Global, stretch: &Stretch, start: usize, bytes: &[u8]) -> Result<Held, AllocError>
    requires start { start ≤ length stretch.now }
    requires end { start + length bytes.now < 2 ^ 64 }
    ensures { IfOk result (λ h. held_bytes h ≡ over stretch.now start bytes.now) }
{
    if bytes.len() > FEW || stretch.len() <= FEW {
        let all = laid(alloc, stretch.as_slice(), start, bytes)?;
        return Ok(Held::Own(all));
    }
    let under = stretch.part(0, stretch.len())?;
    let own = Vec::from_slice(alloc, bytes)?;
    let patched = Box::new(alloc, Patched::of(under, start, own))?;
    Ok(Held::Patched(patched))
}

/// Puts zero bytes at the end; bytes that others share are copied before. It fails only when out of
/// memory, and changes nothing then.
pub fn fill(alloc: Global, held: &mut Held, count: usize) -> Result<(), AllocError>
    requires { length (held_bytes held.old) + count < 2 ^ 64 }
    ensures { held_bytes held.new
        ≡ (if is_ok result then held_bytes held.old ++ replicate count 0
        else held_bytes held.old) }
{
    let len = len_of(held) + count;
    match held {
        Held::Own(own) => own.resize(len, 0),
        Held::Lent(stretch) => {
            let mut own = Vec::with_capacity(alloc, len)?;
            own.extend_from_slice(stretch.as_slice())?;
            own.resize(len, 0)?;
            *held = Held::Own(own);
            Ok(())
        }
        Held::Patched(patched) => {
            let mut own = patched.to_vec(alloc)?;
            own.resize(len, 0)?;
            *held = Held::Own(own);
            Ok(())
        }
    }
}

/// Puts a vector of its own where others can share it: no byte is copied, but where only a part of
/// a stretch was written. It fails only when out of memory, and changes no byte.
pub fn settle(alloc: Global, held: &mut Held) -> Result<(), AllocError>
    ensures { held_bytes held.new ≡ held_bytes held.old }
{
    let stretch = match held {
        Held::Own(bytes) => lent_of(alloc, bytes)?,
        Held::Lent(_) => return Ok(()),
        Held::Patched(patched) => {
            let mut all = patched.to_vec(alloc)?;
            lent_of(alloc, &mut all)?
        }
    };
    *held = Held::Lent(stretch);
    Ok(())
}

/// Takes the bytes of a vector as a stretch that others can share. Out of memory, the vector keeps
/// them.
pub fn lent_of(alloc: Global, bytes: &mut Vec<u8>) -> Result<Stretch, AllocError>
    ensures ok { IfOk result (λ s. s ≡ bytes.old.items) }
    ensures err { OnErr result (bytes.new.items ≡ bytes.old.items) }
{
    let len = bytes.len();
    let all = replace(bytes, Vec::new(alloc));
    match Arc::new(alloc, all) {
        Ok(blob) => Ok(Stretch::of(blob, 0, len)),
        Err(refused) => {
            *bytes = refused.value;
            Err(AllocError)
        }
    }
}
