// The object lines of a layer, from its entries.
use crate::contents::size_of;
use crate::entries::{Entry, Kind, Spelling};
use crate::plain_layer::PlainLayer;
use crate::text::Text;
use crate::tree_lines::{push_escaped, push_path, push_words};
use ov_base::{ObjectKind, Path, Stat};
use std::alloc::{AllocError, Global};

/// The most objects of a layer that are printed.
const OBJECTS_MOST: u32 = 1_000_000;

/// Appends the lines of a layer, depth first, each directory before what is in it, names in the order of their bytes.
pub fn push_layer(alloc: Global, layer: &PlainLayer<'_>, lines: &mut Text) {
    let mut left = Vec::new(alloc);
    lines.note(left.extend_from_slice(&[layer.root()]));
    for _ in 0..OBJECTS_MOST {
        let Some(entry) = left.pop() else {
            break;
        };
        push_entry(alloc, &entry, lines);
        if entry.kind == Kind::Directory {
            lines.note(push_inside(alloc, layer, entry.path, &mut left));
        }
    }
}

// Puts what is in a directory on the pile, the first name on top.
fn push_inside<'a>(
    alloc: Global,
    layer: &PlainLayer<'a>,
    directory: &[u8],
    left: &mut Vec<Entry<'a>>,
) -> Result<(), AllocError> {
    let inside = layer.inside(alloc, directory)?;
    left.extend_from_slice(inside.as_slice())
}

// Where the bytes of a path are none there is no line.
fn push_entry(alloc: Global, entry: &Entry<'_>, lines: &mut Text) {
    let text = if entry.path.is_empty() {
        b"/"
    } else {
        entry.path
    };
    match Path::parse(alloc, text) {
        Ok(Ok(path)) => push_line(alloc, entry, &path, lines),
        Ok(Err(_)) => {}
        Err(fault) => lines.note(Err(fault)),
    }
}

fn push_line(alloc: Global, entry: &Entry<'_>, path: &Path, lines: &mut Text) {
    match stat_of(entry) {
        Some(stat) => push_words(alloc, stat, lines),
        None => lines.add("c 0000 0 0 0 1 "),
    }
    push_path(alloc, path, lines);
    push_rest(alloc, entry, lines);
    lines.add("\n");
}

// None for a whiteout.
fn stat_of(entry: &Entry<'_>) -> Option<Stat> {
    let kind = match entry.kind {
        Kind::Directory => ObjectKind::Directory,
        Kind::File => ObjectKind::File,
        Kind::SymbolicLink => ObjectKind::SymbolicLink,
        Kind::Whiteout => return None,
    };
    Some(Stat {
        kind,
        mode: entry.mode,
        uid: entry.uid,
        gid: entry.gid,
        size: size_of(entry.bytes),
        links: entry.links,
    })
}

// The words after a path.
fn push_rest(alloc: Global, entry: &Entry<'_>, lines: &mut Text) {
    if entry.opaque {
        lines.add(" opaque");
    }
    if let Some(redirect) = entry.redirect {
        push_escaped(alloc, " redirect ", redirect, lines);
    }
    if let Some(path) = entry.metacopy {
        push_escaped(alloc, " metacopy ", path, lines);
    }
    if let (Kind::SymbolicLink, Spelling::Text(target)) = (entry.kind, entry.bytes) {
        push_escaped(alloc, " -> ", target, lines);
    }
}
