// Open files: where the layers have them, and what they hold.
ghost use Rattle.std.specs.Prelude.{◌≡◌, [], Some, IfOk, drop, is_some, length, option_map};
ghost use Rattle.std.specs.Prelude.{take, unwrap_or, ◌+◌, ◌++◌, ◌<◌, ◌^◌};
ghost use Rattle.std.specs.Option.{option_and_then, option_copied};
ghost use Rattle.plain_model.specs.Layers.{Inode as HeldInode};
ghost use Rattle.layer_tree.specs.Tree.{inode_of, mark_at};
ghost use Rattle.merged_lookup.specs.Lower.{lower_bytes};
ghost use Rattle.merged_lookup.specs.Merged.{upper_of, lowers_of};
ghost use Rattle.mount_calls.specs.Files as files;
ghost use Rattle.mount_calls.specs.Files.{place_below, read_mark, seen_inode};
ghost use Rattle.mount_calls.specs.Files.{source_inode, bytes_of_inode, with_file, IsKept};
ghost use Rattle.mount_calls.specs.Status.{stat_of_inode};

use crate::status::{file_status, inode_status};
use layer_tree::Node;
use merged_lookup::Layers;
use open_handles::{FileSource, OpenFile};
use ov_base::{Bytes, Content, Errno, FileBytes, OpenFlags, Place, Stat};
use std::alloc::{AllocError, Global};

/// A file that is opened with these flags, where it is shown at this place, with the bytes that it
/// keeps.
pub(crate) fn file_at(place: Place, flags: OpenFlags, low: Option<Place>) -> OpenFile
    ensures { result ≡ files.file_at place flags low }
{
    let source = if place.layer == 0 {
        FileSource::Upper(place.key)
    } else {
        FileSource::Lower {
            layer: place.layer,
            key: place.key,
        }
    };
    OpenFile {
        source,
        low,
        reads: flags.reads,
        writes: flags.writes,
        append: flags.append,
        place: 0,
    }
}

/// The lower file whose bytes are kept by an open with these flags of what is shown at a place: the one
/// at the mark of a file of the upper that is opened for reading alone (overlayfs.rst, "Non-standard
/// behavior"). It takes no memory, and fails only where the mark shows no file, which no mount has.
pub(crate) fn kept_low(
    layers: &Layers,
    place: Place,
    flags: OpenFlags,
) -> Result<Option<Place>, AllocError>
    ensures { IfOk result (IsKept (lowers_of layers.now) (read_mark layers.now place flags.writes)) }
{
    if flags.writes || place.layer > 0 {
        return Ok(None);
    }
    let Some(mark) = layers.upper().mark(place.key) else {
        return Ok(None);
    };
    match layers.low_file(mark) {
        Some(low) => Ok(Some(low)),
        None => Err(AllocError),
    }
}

/// Whether a file of the upper bears a mark.
pub(crate) fn is_marked(layers: &Layers, key: usize) -> bool
    ensures { result ≡ is_some (mark_at layers.now.upper key) }
{
    layers.upper().mark(key).is_some()
}

/// The place of the file that the lower layers show at the mark of a file of the upper, if they show
/// one there.
pub(crate) fn marked_place(layers: &Layers, key: usize) -> Option<Place>
    ensures { result ≡ place_below (lowers_of layers.now) (mark_at layers.now.upper key) }
{
    match layers.upper().mark(key) {
        Some(mark) => layers.low_file(mark),
        None => None,
    }
}

// Where the layers have an open file.
fn place_of(source: FileSource) -> Place
    ensures { result ≡ files.source_place source }
{
    match source {
        FileSource::Upper(key) => Place { layer: 0, key },
        FileSource::Lower { layer, key } => Place { layer, key },
    }
}

/// The bytes of the file that a lower layer has at a place, if it has one there.
pub(crate) fn low_bytes(layers: &Layers, source: Place) -> Option<&FileBytes>
    ensures { option_copied result ≡ lower_bytes (lowers_of layers.now) source }
{
    if source.layer == 0 {
        return None;
    }
    layers.layer(source.layer)?.read(source.key)
}

/// The bytes of an open file: those that it keeps, or else what it holds now; none where there is
/// no such file.
pub(crate) fn bytes_in(layers: &Layers, file: OpenFile) -> Option<&FileBytes>
    ensures { (i : HeldInode) →
        seen_inode (upper_of layers.now) (lowers_of layers.now) file.source file.low ≡ Some i →
        unwrap_or (option_copied result) [] ≡ bytes_of_inode i }
{
    match file.low {
        Some(low) => low_bytes(layers, low),
        None => bytes_now(layers, file.source),
    }
}

// What an open file holds now.
fn bytes_now(layers: &Layers, source: FileSource) -> Option<&FileBytes>
    ensures { (i : HeldInode) →
        source_inode (upper_of layers.now) (lowers_of layers.now) source ≡ Some i →
        unwrap_or (option_copied result) [] ≡ bytes_of_inode i }
{
    match layers.content_at(place_of(source)) {
        Some(Content::File(bytes)) => Some(bytes),
        _ => None,
    }
}

/// How many bytes there are of a file; without one there are none.
pub(crate) fn size_of(bytes: Option<&FileBytes>) -> usize
    ensures { result ≡ length (unwrap_or (option_copied bytes.entry) []) }
{
    match bytes {
        Some(bytes) => bytes.len(),
        None => 0,
    }
}

/// What a read of at most so many bytes at a place gives; none at the end or past it (read(2)).
pub(crate) fn read_at(
    alloc: Global,
    bytes: Option<&FileBytes>,
    place: u64,
    count: usize,
) -> Result<Bytes, AllocError>
    ensures bytes { IfOk result (λ b.
        b ≡ take count (drop place (unwrap_or (option_copied bytes.entry) []))) }
    ensures end { IfOk result (λ b. place + length b < 2 ^ 64) }
{
    let mut read = Vec::new(alloc);
    if let Some(bytes) = bytes
        && (place as usize) < bytes.len()
    {
        bytes.append_to(place as usize, count, &mut read)?;
    }
    Ok(Bytes::from_vec(read))
}

/// The same into some room, as far as that goes; it is else as it was. Gives how many are there.
pub(crate) fn read_into(bytes: Option<&FileBytes>, place: u64, room: &mut [u8]) -> usize
    ensures count { result ≡ length (take (length room.old)
        (drop place (unwrap_or (option_copied bytes.entry) []))) }
    ensures bytes { room.new ≡ take (length room.old)
        (drop place (unwrap_or (option_copied bytes.entry) [])) ++ drop result room.old }
    ensures end { place + result < 2 ^ 64 }
{
    match bytes {
        Some(bytes) if (place as usize) < bytes.len() => bytes.read_into(place as usize, room),
        _ => 0,
    }
}

/// What fstat(2) shows of an open file.
pub(crate) fn status_in(layers: &Layers, file: OpenFile) -> Result<Stat, Errno>
    ensures { (i : HeldInode) → seen_inode (upper_of layers.now) (lowers_of layers.now) file.source file.low ≡ Some i → result ≡ stat_of_inode (Some i) }
{
    let place = place_of(file.source);
    match file.low {
        Some(low) => sized_status(layers.node(place), low_bytes(layers, low)),
        None => inode_status(layers, place),
    }
}

// What stat(2) shows of an inode as of a file of these bytes, or of none; a directory, and nothing,
// is ENOENT.
fn sized_status(node: Option<&Node>, bytes: Option<&FileBytes>) -> Result<Stat, Errno>
    ensures { result ≡ stat_of_inode
        (option_map (with_file (unwrap_or (option_copied bytes.entry) []))
        (option_and_then inode_of (option_copied node.entry))) }
{
    match node {
        Some(Node::Inode(inode)) => Ok(file_status(inode, size_of(bytes))),
        _ => Err(Errno::ENOENT),
    }
}
