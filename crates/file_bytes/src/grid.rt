// Pieces of one length, but for the last.
ghost use Rattle.std.specs.Prelude.{◌≡◌, ◌+◌, ◌-◌, ◌*◌, ◌^◌, ◌<◌, ◌≤◌, ◌++◌, [], IfOk, OnErr};
ghost use Rattle.std.specs.Prelude.{is_ok, if◌then◌else◌, drop, length, replicate, take};
ghost use Rattle.std.specs.Prelude.{slice_index_or, vec_capacity};
ghost use Rattle.std.specs.List.{concat};
ghost use Rattle.file_bytes.specs.Bytes.{over, sized};
ghost use Rattle.file_bytes.specs.Grid.{IsGrid, put_at};

use crate::piece::Piece;
use crate::stretch::Stretch;
use std::alloc::{AllocError, Global};
use std::sync::Arc;

/// The bytes of a piece, but for the last.
pub const CHUNK: usize = 65_536;

/// How many bytes pieces have.
pub fn len_of(pieces: &[Piece]) -> usize
    requires grid { IsGrid 65536 pieces.now }
    requires fits { length (concat pieces.now) < 2 ^ 64 }
    ensures { result ≡ length (concat pieces.now) }
{
    if pieces.len() == 0 {
        return 0;
    }
    let last = pieces.len() - 1;
    last * CHUNK + pieces[last].len()
}

/// The bytes of pieces from a place on, as far as they lie one after another.
pub fn slice_at(pieces: &[Piece], at: usize) -> &[u8]
    requires grid { IsGrid 65536 pieces.now }
    requires within { at < length (concat pieces.now) }
    ensures some { 0 < length result.now }
    ensures bytes { result.now ≡ take (length result.now) (drop at (concat pieces.now)) }
{
    let place = at / CHUNK;
    let from = at % CHUNK;
    pieces[place].slice_at(from)
}

/// The same bytes for another owner.
pub fn share_of(alloc: Global, pieces: &[Piece]) -> Result<Vec<Piece>, AllocError>
    ensures { IfOk result (λ v. v.items ≡ pieces.now) }
{
    let mut copy = Vec::with_capacity(alloc, pieces.len())?;
    for piece in pieces {
        let shared = piece.share(alloc)?;
        copy.push(shared)?;
    }
    Ok(copy)
}

/// Lets later owners share all bytes: none is copied. It fails only when out of memory, and changes
/// no byte.
pub fn settle(alloc: Global, pieces: &mut Vec<Piece>) -> Result<(), AllocError>
    ensures { pieces.new.items ≡ pieces.old.items }
{
    for place in 0..pieces.len() {
        let piece = &mut pieces[place];
        piece.settle(alloc)?;
    }
    Ok(())
}

/// A stretch in pieces: no byte is copied.
pub fn split_of(alloc: Global, stretch: &Stretch) -> Result<Vec<Piece>, AllocError>
    ensures bytes { IfOk result (λ v. concat v.items ≡ stretch.now) }
    ensures grid { IfOk result (λ v. IsGrid 65536 v.items) }
{
    let len = stretch.len();
    let mut pieces = Vec::new(alloc);
    pieces.reserve(len.div_ceil(CHUNK))?;
    let mut at = 0;
    while at < len {
        let count = CHUNK.min(len - at);
        let part = stretch.part(at, count)?;
        pieces.push(Piece::lent(part))?;
        at += count;
    }
    Ok(pieces)
}

/// So many zero bytes in pieces, which are all stretches of one vector.
pub fn zeros(alloc: Global, count: usize) -> Result<Vec<Piece>, AllocError>
    ensures bytes { IfOk result (λ v. concat v.items ≡ replicate count 0) }
    ensures grid { IfOk result (λ v. IsGrid 65536 v.items) }
{
    let mut pieces = Vec::new(alloc);
    if count == 0 {
        return Ok(pieces);
    }
    let block = zero_block(alloc, CHUNK.min(count))?;
    pieces.reserve(count.div_ceil(CHUNK))?;
    let mut at = 0;
    while at < count {
        let size = CHUNK.min(count - at);
        let part = block.part(0, size)?;
        pieces.push(Piece::lent(part))?;
        at += size;
    }
    Ok(pieces)
}

fn zero_block(alloc: Global, count: usize) -> Result<Stretch, AllocError>
    ensures { IfOk result (λ s. s ≡ replicate count 0) }
{
    let mut zeros = Vec::new(alloc);
    zeros.resize(count, 0)?;
    let len = zeros.len();
    let blob = Arc::new(alloc, zeros)?;
    Ok(Stretch::of(blob, 0, len))
}

/// Keeps the first bytes.
pub fn cut(pieces: &mut Vec<Piece>, size: usize)
    requires grid { IsGrid 65536 pieces.old.items }
    requires within { size ≤ length (concat pieces.old.items) }
    ensures bytes { concat pieces.new.items ≡ take size (concat pieces.old.items) }
    ensures grid { IsGrid 65536 pieces.new.items }
{
    let place = size / CHUNK;
    let rest = size % CHUNK;
    if rest == 0 {
        pieces.truncate(place);
        return;
    }
    let last = &mut pieces[place];
    last.cut(rest);
    pieces.truncate(place + 1);
}

/// Puts zero bytes at the end. It fails only when out of memory, and changes nothing then.
pub fn grow(alloc: Global, pieces: &mut Vec<Piece>, count: usize) -> Result<(), AllocError>
    requires grid { IsGrid 65536 pieces.old.items }
    requires fits { length (concat pieces.old.items) + count < 2 ^ 64 }
    ensures bytes { concat pieces.new.items
        ≡ (if is_ok result then concat pieces.old.items ++ replicate count 0
        else concat pieces.old.items) }
    ensures grid { IsGrid 65536 pieces.new.items }
{
    let len = len_of(pieces);
    let filled = fill_last(alloc, pieces, count)?;
    match add_zeros(alloc, pieces, count - filled) {
        Ok(()) => Ok(()),
        Err(error) => {
            cut(pieces, len);
            Err(error)
        }
    }
}

// Fills the last piece with zero bytes, at most so many, and returns how many: all, or as many as
// make it full.
fn fill_last(alloc: Global, pieces: &mut Vec<Piece>, count: usize) -> Result<usize, AllocError>
    requires { IsGrid 65536 pieces.old.items }
    ensures ok { IfOk result (λ n. concat pieces.new.items
        ≡ concat pieces.old.items ++ replicate n 0) }
    ensures err { OnErr result (concat pieces.new.items ≡ concat pieces.old.items) }
    ensures most { IfOk result (λ n. n ≤ count) }
    ensures full { IfOk result (λ n. n < count
        → length pieces.new.items * 65536 ≤ length (concat pieces.new.items)) }
    ensures grid { IsGrid 65536 pieces.new.items }
{
    if pieces.len() == 0 {
        return Ok(0);
    }
    let last = pieces.len() - 1;
    let piece = &mut pieces[last];
    let filling = count.min(CHUNK - piece.len());
    piece.fill(alloc, filling)?;
    Ok(filling)
}

// Puts pieces of zero bytes after full ones.
fn add_zeros(alloc: Global, pieces: &mut Vec<Piece>, count: usize) -> Result<(), AllocError>
    requires grid { IsGrid 65536 pieces.old.items }
    requires full { 0 < count → length pieces.old.items * 65536 ≤ length (concat pieces.old.items) }
    ensures bytes { concat pieces.new.items
        ≡ (if is_ok result then concat pieces.old.items ++ replicate count 0
        else concat pieces.old.items) }
    ensures grid { IsGrid 65536 pieces.new.items }
{
    let mut tail = zeros(alloc, count)?;
    pieces.append(&mut tail)
}

/// Lays bytes, at most those of one piece, over these from a place on that they reach. It fails
/// only when out of memory, and changes nothing then.
pub fn lay_over(
    alloc: Global,
    pieces: &mut Vec<Piece>,
    start: usize,
    bytes: &[u8],
) -> Result<(), AllocError>
    requires grid { IsGrid 65536 pieces.old.items }
    requires few { length bytes.now ≤ 65536 }
    requires start { start ≤ length (concat pieces.old.items) }
    ensures bytes { concat pieces.new.items
        ≡ (if is_ok result then over (concat pieces.old.items) start bytes.now
        else concat pieces.old.items) }
    ensures grid { IsGrid 65536 pieces.new.items }
{
    if bytes.len() == 0 {
        return Ok(());
    }
    let place = start / CHUNK;
    let from = start % CHUNK;
    let room = CHUNK - from;
    if bytes.len() <= room {
        return lay_at(alloc, pieces, place, from, bytes);
    }
    let (head, rest) = bytes.split_at(room);
    let next = next_of(alloc, pieces, place + 1, rest)?;
    pieces.reserve(1)?;
    lay_in(alloc, pieces, place, from, head)?;
    put(pieces, place + 1, next);
    Ok(())
}

// Lays bytes over those of the piece at a place, which stands there or is to stand at the end.
fn lay_at(
    alloc: Global,
    pieces: &mut Vec<Piece>,
    place: usize,
    from: usize,
    bytes: &[u8],
) -> Result<(), AllocError>
    requires grid { IsGrid 65536 pieces.old.items }
    requires place { place * 65536 + from ≤ length (concat pieces.old.items) }
    requires fits { from + length bytes.now ≤ 65536 }
    requires some { 0 < length bytes.now }
    ensures { pieces.new.items
        ≡ (if is_ok result then put_at pieces.old.items place (over (slice_index_or pieces.old.items place []) from bytes.now)
        else pieces.old.items) }
{
    if place < pieces.len() {
        return lay_in(alloc, pieces, place, from, bytes);
    }
    let own = Vec::from_slice(alloc, bytes)?;
    pieces.push(Piece::own(own))?;
    Ok(())
}

// Lays bytes over those of a piece.
fn lay_in(
    alloc: Global,
    pieces: &mut Vec<Piece>,
    place: usize,
    from: usize,
    bytes: &[u8],
) -> Result<(), AllocError>
    requires place { place < length pieces.old.items }
    requires start { from ≤ length (slice_index_or pieces.old.items place []) }
    requires end { from + length bytes.now ≤ 65536 }
    ensures items { pieces.new.items
        ≡ (if is_ok result then put_at pieces.old.items place (over (slice_index_or pieces.old.items place []) from bytes.now)
        else pieces.old.items) }
    ensures capacity { vec_capacity pieces.new ≡ vec_capacity pieces.old }
{
    let piece = &mut pieces[place];
    piece.lay_over(alloc, from, bytes)
}

// A copy of the piece at a place with these bytes laid over its first, or these bytes alone.
fn next_of(alloc: Global, pieces: &[Piece], place: usize, bytes: &[u8]) -> Result<Piece, AllocError>
    ensures { IfOk result (λ p. p ≡ over (slice_index_or pieces.now place []) 0 bytes.now) }
{
    if place < pieces.len() {
        return pieces[place].laid(alloc, 0, bytes);
    }
    let own = Vec::from_slice(alloc, bytes)?;
    Ok(Piece::own(own))
}

// Puts a piece at a place, where one stands or which is the end.
fn put(pieces: &mut Vec<Piece>, place: usize, piece: Piece)
    requires place { place ≤ length pieces.old.items }
    requires room { length pieces.old.items < vec_capacity pieces.old }
    ensures { pieces.new.items ≡ put_at pieces.old.items place piece }
{
    if place < pieces.len() {
        pieces[place] = piece;
    } else {
        pieces.push_reserved(piece);
    }
}
