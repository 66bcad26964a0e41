// How a file's bytes are kept.
ghost use Rattle.std.specs.Prelude.{◌≡◌, ◌+◌, ◌-◌, ◌^◌, ◌<◌, ◌≤◌, ◌++◌, IfOk, OnOk, OnErr, IsOk};
ghost use Rattle.std.specs.Prelude.{is_ok, if◌then◌else◌, drop, length, replicate, take};
ghost use Rattle.std.specs.List.{concat};
ghost use Rattle.file_bytes.specs.Bytes.{over};
ghost use Rattle.file_bytes.specs.Grid.{IsGrid};
ghost use Rattle.file_bytes.specs.Stored.{stored_bytes, IsStored, IsInPieces};

use crate::grid;
use crate::grid::CHUNK;
use crate::held::lent_of;
use crate::laying::lay_in;
use crate::piece::Piece;
use crate::stretch::Stretch;
use std::alloc::{AllocError, Global};
use std::mem::replace;

/// The most bytes of a vector that is kept as it is, and copied when it is shared.
pub const SMALL: usize = 4_096;

/// A vector of its own, a stretch that others share, or pieces.
#[derive(Drop)]
pub enum Stored {
    Own(Vec<u8>),
    Lent(Stretch),
    Pieces(Vec<Piece>),
}

/// How many bytes there are.
pub fn len_of(stored: &Stored) -> usize
    requires { IsStored stored.now }
    ensures { result ≡ length (stored_bytes stored.now) }
{
    match stored {
        Stored::Own(bytes) => bytes.len(),
        Stored::Lent(stretch) => stretch.len(),
        Stored::Pieces(pieces) => grid::len_of(pieces),
    }
}

/// The bytes from a place on, as far as they lie one after another.
pub fn slice_at(stored: &Stored, at: usize) -> &[u8]
    requires stored { IsStored stored.now }
    requires within { at < length (stored_bytes stored.now) }
    ensures some { 0 < length result.now }
    ensures bytes { result.now ≡ take (length result.now) (drop at (stored_bytes stored.now)) }
{
    match stored {
        Stored::Own(bytes) => &bytes.as_slice()[at..],
        Stored::Lent(stretch) => &stretch.as_slice()[at..],
        Stored::Pieces(pieces) => grid::slice_at(pieces, at),
    }
}

/// The first bytes for another owner: a vector of its own is copied.
pub fn share_of(alloc: Global, stored: &Stored, count: usize) -> Result<Stored, AllocError>
    requires stored { IsStored stored.now }
    requires within { count ≤ length (stored_bytes stored.now) }
    ensures bytes { IfOk result (λ s. stored_bytes s ≡ take count (stored_bytes stored.now)) }
    ensures stored { IfOk result IsStored }
{
    match stored {
        Stored::Own(bytes) => {
            let copy = Vec::from_slice(alloc, &bytes.as_slice()[..count])?;
            Ok(Stored::Own(copy))
        }
        Stored::Lent(stretch) => {
            let part = stretch.part(0, count)?;
            Ok(Stored::Lent(part))
        }
        Stored::Pieces(pieces) => {
            let mut copy = grid::share_of(alloc, pieces)?;
            grid::cut(&mut copy, count);
            Ok(Stored::Pieces(copy))
        }
    }
}

/// Keeps the first bytes.
pub fn cut(stored: &mut Stored, size: usize)
    requires stored { IsStored stored.old }
    requires within { size ≤ length (stored_bytes stored.old) }
    ensures bytes { stored_bytes stored.new ≡ take size (stored_bytes stored.old) }
    ensures stored { IsStored stored.new }
{
    match stored {
        Stored::Own(bytes) => {
            bytes.truncate(size);
            give_back(bytes);
        }
        Stored::Lent(stretch) => stretch.cut(size),
        Stored::Pieces(pieces) => grid::cut(pieces, size),
    }
}

// Gives memory back where less than half of it is in use.
fn give_back(bytes: &mut Vec<u8>)
    ensures { bytes.new.items ≡ bytes.old.items }
{
    if bytes.len() < bytes.capacity() / 2 {
        bytes.shrink_to_fit();
    }
}

/// Puts zero bytes at the end. It fails only when out of memory, and changes nothing then.
pub fn grow(alloc: Global, stored: &mut Stored, count: usize) -> Result<(), AllocError>
    requires stored { IsStored stored.old }
    requires fits { length (stored_bytes stored.old) + count < 2 ^ 64 }
    ensures bytes { stored_bytes stored.new
        ≡ (if is_ok result then stored_bytes stored.old ++ replicate count 0
        else stored_bytes stored.old) }
    ensures stored { IsStored stored.new }
{
    let len = len_of(stored);
    if let Stored::Own(bytes) = stored {
        if len + count <= CHUNK {
            return bytes.resize(len + count, 0);
        }
    }
    split(alloc, stored)?;
    match stored {
        Stored::Pieces(pieces) => grid::grow(alloc, pieces, count),
        _ => unreachable!(),
    }
}

/// Lays bytes over these from a place on that they reach. It fails only when out of memory, and
/// changes nothing then.
pub fn lay_over(
    alloc: Global,
    stored: &mut Stored,
    start: usize,
    bytes: &[u8],
) -> Result<(), AllocError>
    requires stored { IsStored stored.old }
    requires few { length bytes.now ≤ 65536 }
    requires start { start ≤ length (stored_bytes stored.old) }
    requires end { start + length bytes.now < 2 ^ 64 }
    ensures bytes { stored_bytes stored.new
        ≡ (if is_ok result then over (stored_bytes stored.old) start bytes.now
        else stored_bytes stored.old) }
    ensures stored { IsStored stored.new }
{
    if let Stored::Own(own) = stored {
        if start + bytes.len() <= CHUNK {
            return lay_in(own, start, bytes);
        }
    }
    split(alloc, stored)?;
    match stored {
        Stored::Pieces(pieces) => grid::lay_over(alloc, pieces, start, bytes),
        _ => unreachable!(),
    }
}

// Keeps the same bytes in pieces: none is copied. It fails only when out of memory, and changes
// nothing then.
fn split(alloc: Global, stored: &mut Stored) -> Result<(), AllocError>
    requires { IsStored stored.old }
    ensures same { stored_bytes stored.new ≡ stored_bytes stored.old }
    ensures stored { IsStored stored.new }
    ensures pieces { OnOk result (IsInPieces stored.new) }
{
    let pieces = match stored {
        Stored::Own(bytes) => piece_of(alloc, bytes)?,
        Stored::Lent(stretch) => grid::split_of(alloc, stretch)?,
        Stored::Pieces(_) => return Ok(()),
    };
    *stored = Stored::Pieces(pieces);
    Ok(())
}

// A vector as a piece, which takes its bytes.
fn piece_of(alloc: Global, bytes: &mut Vec<u8>) -> Result<Vec<Piece>, AllocError>
    requires { length bytes.old.items ≤ 65536 }
    ensures bytes { IfOk result (λ v. concat v.items ≡ bytes.old.items) }
    ensures grid { IfOk result (λ v. IsGrid 65536 v.items) }
    ensures err { OnErr result (bytes.new.items ≡ bytes.old.items) }
{
    let mut pieces = Vec::with_capacity(alloc, 1)?;
    if bytes.len() != 0 {
        let all = replace(bytes, Vec::new(alloc));
        pieces.push_reserved(Piece::own(all));
    }
    Ok(pieces)
}

/// Puts what is a vector of its own, if it has more than a few bytes, where others can share it: no
/// byte is copied. It fails only when out of memory, and changes no byte.
pub fn settle(alloc: Global, stored: &mut Stored) -> Result<(), AllocError>
    requires { IsStored stored.old }
    ensures same { stored_bytes stored.new ≡ stored_bytes stored.old }
    ensures stored { IsStored stored.new }
{
    match stored {
        Stored::Own(bytes) => {
            if bytes.len() <= SMALL {
                return Ok(());
            }
            let stretch = lent_of(alloc, bytes)?;
            *stored = Stored::Lent(stretch);
            Ok(())
        }
        Stored::Lent(_) => Ok(()),
        Stored::Pieces(pieces) => grid::settle(alloc, pieces),
    }
}
