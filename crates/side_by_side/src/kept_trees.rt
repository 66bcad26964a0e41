// The trees that a mount keeps: each layer, and the merge of all.
use dir_listing::names;
use layer_tree::{Entry, Layer, Marks, Node};
use merged_lookup::{Found, Layers};
use mount_calls::status_of;
use ov_base::{Content, NameList, Path, Place, Redirect, Stat};
use script_reference::{Text, Tree, push_escaped, push_path, push_target, push_words};
use std::alloc::{AllocError, Global};

/// The layer of a number, among those of a mount.
#[derive(Clone, Copy)]
pub struct KeptLayer<'a> {
    pub layers: &'a Layers,
    pub index: usize,
    pub layer: &'a Layer,
}

impl Tree for KeptLayer<'_> {
    fn push_object(&self, alloc: Global, path: &Path, lines: &mut Text) {
        match self.layer.find(path) {
            Some(Entry::Object(key)) => push_kept(alloc, self, key, path, lines),
            Some(Entry::Whiteout) => {
                lines.add("c 0000 0 0 0 1 ");
                push_path(alloc, path, lines);
                lines.add("\n");
            }
            None => {}
        }
    }

    fn names_at(&self, alloc: Global, path: &Path) -> Result<NameList, AllocError> {
        match self.layer.find(path) {
            Some(Entry::Object(key)) => Ok(NameList::from_vec(self.layer.names(alloc, key)?)),
            _ => Ok(NameList::new(alloc)),
        }
    }
}

/// The merge of the layers of a mount.
#[derive(Clone, Copy)]
pub struct KeptMerge<'a> {
    pub layers: &'a Layers,
}

impl Tree for KeptMerge<'_> {
    fn push_object(&self, alloc: Global, path: &Path, lines: &mut Text) {
        let Ok(shown) = self.layers.walk_topmost(path) else {
            return;
        };
        let place = shown.place();
        if let Some(node) = self.layers.node(place) {
            push_node(alloc, node, size_at(self.layers, place), path, lines);
            lines.add("\n");
        }
    }

    fn names_at(&self, alloc: Global, path: &Path) -> Result<NameList, AllocError> {
        match self.layers.walk(path) {
            Ok(Found::Directory(stack)) => {
                let found = names(alloc, self.layers, &stack);
                drop(stack);
                Ok(NameList::from_vec(found?))
            }
            _ => Ok(NameList::new(alloc)),
        }
    }
}

// Appends the line of an object that a layer keeps under a key.
fn push_kept(alloc: Global, kept: &KeptLayer<'_>, key: usize, path: &Path, lines: &mut Text) {
    let place = Place {
        layer: kept.index,
        key,
    };
    if let Some(node) = kept.layer.node(key) {
        push_node(alloc, node, size_at(kept.layers, place), path, lines);
        if let Some(marks) = kept.layer.marks(key) {
            push_marks(alloc, marks, lines);
        }
        if let Some(mark) = kept.layer.mark(key) {
            lines.add(" metacopy ");
            push_path(alloc, mark, lines);
        }
        lines.add("\n");
    }
}

// How many bytes the file or the target of the symbolic link at a place shows.
fn size_at(layers: &Layers, place: Place) -> u64 {
    match layers.content_at(place) {
        Some(Content::File(bytes)) => bytes.len() as u64,
        Some(Content::SymbolicLink(target)) => target.as_bytes().as_slice().len() as u64,
        None => 0,
    }
}

// Appends what a line says of an object of this size but for its marks.
fn push_node(alloc: Global, node: &Node, size: u64, path: &Path, lines: &mut Text) {
    let status = Stat {
        size,
        ..status_of(node)
    };
    push_words(alloc, status, lines);
    push_path(alloc, path, lines);
    if let Node::Inode(inode) = node {
        if let Content::SymbolicLink(target) = &inode.content {
            push_target(alloc, target.as_bytes().as_slice(), lines);
        }
    }
}

fn push_marks(alloc: Global, marks: &Marks, lines: &mut Text) {
    if marks.opaque {
        lines.add(" opaque");
    }
    match &marks.redirect {
        None => {}
        Some(Redirect::Absolute(path)) => {
            lines.add(" redirect ");
            push_path(alloc, path, lines);
        }
        Some(Redirect::Single(name)) => push_escaped(alloc, " redirect ", name.as_slice(), lines),
    }
}
