// What is against the lines that the engine prints of a layer.
use crate::contents::size_of;
use crate::entries::Entry;
use crate::layer_lines::push_layer;
use crate::list::List;
use crate::merged::{needless_whiteout, size_shown};
use crate::mount::{PlainMount, lines_of};
use crate::plain_layer::PlainLayer;
use crate::text::Text;
use crate::told_entries::{Told, told_in};
use ov_script::Escaped;
use std::alloc::{AllocError, Global};

/// How the lines that are told of a layer differ from what they have to be; None where they are right. A lower layer is as the manifest
/// describes it.
pub fn layer_difference(
    alloc: Global,
    mount: &PlainMount,
    index: usize,
    told: &[u8],
) -> Result<Option<String>, AllocError> {
    if index == 0 {
        return upper_difference(alloc, mount, told);
    }
    let lines = mount.layer_lines(alloc, index)?;
    if lines.as_bytes() == told {
        Ok(None)
    } else {
        Ok(Some(format!(in alloc; "the layer is\n{lines}")?))
    }
}

// The upper's lines are those of a layer, whose marks are those that the reference tells, which shows over the lower layers what the reference shows, and has no
// needless whiteout.
fn upper_difference(
    alloc: Global,
    mount: &PlainMount,
    told: &[u8],
) -> Result<Option<String>, AllocError> {
    let text = String::from_utf8_lossy(alloc, told)?;
    let list = told_in(alloc, text.as_str())?;
    let entries = entries_of(alloc, list.as_slice())?;
    told_difference(alloc, mount, told, PlainLayer { entries })
}

fn entries_of<'a>(alloc: Global, list: &'a [Told<'a>]) -> Result<Vec<Entry<'a>>, AllocError> {
    let mut entries: List<Entry<'a>> = List::new(alloc);
    for told in list {
        entries.add(told.entry());
    }
    entries.end()
}

// The same of the upper that the lines tell.
fn told_difference(
    alloc: Global,
    mount: &PlainMount,
    told: &[u8],
    upper: PlainLayer<'_>,
) -> Result<Option<String>, AllocError> {
    if !has_lines(alloc, &upper, told)? {
        return no_layer(alloc, told);
    }
    let mut layers = mount.layers_below(alloc, upper)?;
    let found = layers_difference(alloc, mount, layers.as_mut_slice());
    drop(layers);
    found
}

fn no_layer(alloc: Global, told: &[u8]) -> Result<Option<String>, AllocError> {
    let text = String::from_utf8_lossy(alloc, told)?;
    Ok(Some(format!(in alloc; "these are no layer's lines\n{text}")?))
}

fn has_lines(alloc: Global, upper: &PlainLayer<'_>, told: &[u8]) -> Result<bool, AllocError> {
    let mut lines = Text::new(alloc);
    push_layer(alloc, upper, &mut lines);
    let lines = lines.end()?;
    Ok(lines.as_bytes() == told)
}

fn layers_difference(
    alloc: Global,
    mount: &PlainMount,
    layers: &mut [PlainLayer<'_>],
) -> Result<Option<String>, AllocError> {
    if let Some(found) = mark_difference(alloc, mount, layers)? {
        return Ok(Some(found));
    }
    if let Some(found) = shown_difference(alloc, mount, layers)? {
        return Ok(Some(found));
    }
    whiteout_difference(alloc, mount, layers)
}

// What stands in the upper without bytes of its own is marked by the path that the reference tells, and all else by none; it has the size
// of the file that the lower layers show at its mark.
fn mark_difference(
    alloc: Global,
    mount: &PlainMount,
    layers: &[PlainLayer<'_>],
) -> Result<Option<String>, AllocError> {
    let began = mount.layers(alloc)?;
    let (Some((upper, lowers)), Some(first)) = (layers.split_first(), began.first()) else {
        return Ok(None);
    };
    for entry in upper.entries.as_slice() {
        if let Some(found) = entry_difference(alloc, mount, (first, lowers), entry)? {
            return Ok(Some(found));
        }
    }
    Ok(None)
}

// The same of one entry, where the upper began with this layer.
fn entry_difference(
    alloc: Global,
    mount: &PlainMount,
    (first, lowers): (&PlainLayer<'_>, &[PlainLayer<'_>]),
    entry: &Entry<'_>,
) -> Result<Option<String>, AllocError> {
    if !has_mark(alloc, mount, first, entry)? {
        return told_path(alloc, "another mark is at ", entry.path);
    }
    let Some(mark) = entry.metacopy else {
        return Ok(None);
    };
    if size_shown(alloc, lowers, mark)? == Some(size_of(entry.bytes)) {
        return Ok(None);
    }
    told_path(alloc, "no such file is below the mark ", mark)
}

// Whether an entry has the mark that the reference tells.
fn has_mark(
    alloc: Global,
    mount: &PlainMount,
    first: &PlainLayer<'_>,
    entry: &Entry<'_>,
) -> Result<bool, AllocError> {
    let wanted = mount.mark_at(alloc, first, entry.path)?;
    Ok(match (&wanted, entry.metacopy) {
        (Some(wanted), Some(mark)) => wanted.as_slice() == mark,
        (None, None) => true,
        _ => false,
    })
}

// A line that ends with a path.
fn told_path(alloc: Global, line: &str, path: &[u8]) -> Result<Option<String>, AllocError> {
    let path = Escaped(path);
    Ok(Some(format!(in alloc; "{line}{path}\n")?))
}

fn shown_difference(
    alloc: Global,
    mount: &PlainMount,
    layers: &[PlainLayer<'_>],
) -> Result<Option<String>, AllocError> {
    let shown = lines_of(alloc, layers)?;
    let tree = mount.merge_lines(alloc)?;
    if shown.as_str() == tree.as_str() {
        Ok(None)
    } else {
        let found = format!(in alloc; "the upper shows\n{shown}where the reference shows\n{tree}")?;
        Ok(Some(found))
    }
}

// A mount that begins with a needless whiteout may keep it.
fn whiteout_difference(
    alloc: Global,
    mount: &PlainMount,
    layers: &mut [PlainLayer<'_>],
) -> Result<Option<String>, AllocError> {
    let Some(path) = needless_whiteout(alloc, layers)? else {
        return Ok(None);
    };
    let mut layers = mount.layers(alloc)?;
    if needless_whiteout(alloc, layers.as_mut_slice())?.is_some() {
        return Ok(None);
    }
    told_path(alloc, "a whiteout hides nothing at ", path)
}
