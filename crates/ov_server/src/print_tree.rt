// Trees as object lines, each directory before what is in it, names by their bytes.
ghost use Rattle.std.specs.Prelude.{◌≡◌, ◌∷◌, ◌++◌, [], OnOk, string_bytes};
ghost use Rattle.ov_server.specs.Devices.{Marks};
ghost use Rattle.merged_lookup.specs.Marking.{content_in, inode_over};
ghost use Rattle.ov_server.specs.Objects.{content_size, object_line, whiteout_line};

use crate::devices::Output;
use crate::fault::DeviceFault;
use crate::object_lines::{ObjectLine, WhiteoutLine};
use dir_listing::names;
use layer_tree::{Entry, Layer, Node, ROOT};
use merged_lookup::{Found, Layers, Stack};
use ov_base::{Content, Name, Place};
use ov_devices::Sink;
use std::alloc::{AllocError, Global};

// A tree that can be printed: one layer, or the merge of all.
trait Tree {
    // What names a directory of the tree.
    type Directory: Drop;

    // Whether lines tell the marks of objects.
    const WITH_MARKS: bool;

    fn root(&self) -> Self::Directory;

    fn names(&self, alloc: Global, directory: &Self::Directory) -> Result<Vec<Name>, AllocError>;

    fn node(&self, directory: &Self::Directory) -> Option<&Node>;

    fn child(&self, directory: &Self::Directory, name: &Name) -> Child<'_, Self::Directory>;
}

// What a tree has at a name.
#[derive(Drop)]
enum Child<'a, D> {
    Directory(D),
    // With the size that it shows.
    Inode(&'a Node, u64),
    Whiteout,
    Nothing,
}

// The layer of a number, among those of a mount.
#[derive(Clone, Copy)]
struct LayerTree<'a> {
    layers: &'a Layers,
    index: usize,
    layer: &'a Layer,
}

impl Tree for LayerTree<'_> {
    type Directory = usize;

    const WITH_MARKS: bool = true;

    fn root(&self) -> usize {
        ROOT
    }

    fn names(&self, alloc: Global, directory: &usize) -> Result<Vec<Name>, AllocError> {
        self.layer.names(alloc, *directory)
    }

    fn node(&self, directory: &usize) -> Option<&Node> {
        self.layer.node(*directory)
    }

    fn child(&self, directory: &usize, name: &Name) -> Child<'_, usize> {
        match self.layer.entry(*directory, name) {
            Some(Entry::Object(key)) => match self.layer.node(key) {
                Some(Node::Directory(_)) => Child::Directory(key),
                Some(node) => {
                    let place = Place {
                        layer: self.index,
                        key,
                    };
                    Child::Inode(node, size_at(self.layers, place))
                }
                None => Child::Nothing,
            },
            Some(Entry::Whiteout) => Child::Whiteout,
            None => Child::Nothing,
        }
    }
}

#[derive(Clone, Copy)]
struct MergedTree<'a>(&'a Layers);

impl Tree for MergedTree<'_> {
    type Directory = Stack;

    const WITH_MARKS: bool = false;

    fn root(&self) -> Stack {
        self.0.root()
    }

    fn names(&self, alloc: Global, directory: &Stack) -> Result<Vec<Name>, AllocError> {
        names(alloc, self.0, directory)
    }

    fn node(&self, directory: &Stack) -> Option<&Node> {
        self.0.node(directory.top())
    }

    fn child(&self, directory: &Stack, name: &Name) -> Child<'_, Stack> {
        match self.0.step(directory, name) {
            Some(Found::Directory(stack)) => Child::Directory(stack),
            Some(Found::Inode(place)) => match self.0.node(place) {
                Some(node) => Child::Inode(node, size_at(self.0, place)),
                None => Child::Nothing,
            },
            None => Child::Nothing,
        }
    }
}

// How many bytes what stands at a place shows, of a file or the target of a symbolic link.
fn size_at(layers: &Layers, place: Place) -> u64
    ensures { result ≡ content_size (content_in (inode_over layers.now place)) }
{
    match layers.content_at(place) {
        Some(Content::File(bytes)) => bytes.len() as u64,
        Some(Content::SymbolicLink(target)) => target.as_bytes().as_slice().len() as u64,
        None => 0,
    }
}

// A directory on the way to the place that is printed, and its names that are left, the next one last.
#[derive(Drop)]
struct Level<D> {
    directory: D,
    left: Vec<Name>,
}

// A walk over a tree: the path that it has come to, and the directories on the way.
#[derive(Drop)]
struct Walk<D> {
    path: Vec<Name>,
    levels: Vec<Level<D>>,
}

/// Puts the tree of the layer of a number out, if there is one: the upper's marked files have the size that they show.
pub fn write_layer<K: Sink>(
    alloc: Global,
    layers: &Layers,
    index: usize,
    output: &mut Output<K>,
) -> Result<(), DeviceFault>
    ensures { Marks (K.failures output.old.sink) (K.failures output.new.sink) result }
{
    let Some(layer) = layers.layer(index) else {
        return Ok(());
    };
    let tree = LayerTree {
        layers,
        index,
        layer,
    };
    write_tree(alloc, &tree, output)
}

/// Puts the merged tree out.
pub fn write_merge<K: Sink>(
    alloc: Global,
    layers: &Layers,
    output: &mut Output<K>,
) -> Result<(), DeviceFault>
    ensures { Marks (K.failures output.old.sink) (K.failures output.new.sink) result }
{
    write_tree(alloc, &MergedTree(layers), output)
}

fn write_tree<T: Tree, K: Sink>(
    alloc: Global,
    tree: &T,
    output: &mut Output<K>,
) -> Result<(), DeviceFault>
    ensures { Marks (K.failures output.old.sink) (K.failures output.new.sink) result }
{
    let mut walk = begun(alloc, tree, &mut output.text)?;
    for _ in 0..u64::MAX {
        if !go_on(alloc, tree, &mut walk, &mut output.text)? {
            return Ok(());
        }
        output.relieve()?;
    }
    // No memory holds a tree of so many objects.
    Err(DeviceFault::Memory)
}

// A walk at the root of a tree, of which it adds the line.
fn begun<T: Tree>(
    alloc: Global,
    tree: &T,
    text: &mut String,
) -> Result<Walk<T::Directory>, AllocError> {
    let path = Vec::new(alloc);
    let mut levels = Vec::new(alloc);
    levels.push(entered(alloc, tree, tree.root(), path.as_slice(), text)?)?;
    Ok(Walk { path, levels })
}

// Goes on to the next name and adds its line, or goes back out of a directory; false where all was printed.
fn go_on<T: Tree>(
    alloc: Global,
    tree: &T,
    walk: &mut Walk<T::Directory>,
    text: &mut String,
) -> Result<bool, AllocError> {
    let Some(mut level) = walk.levels.pop() else {
        return Ok(false);
    };
    let Some(name) = level.left.pop() else {
        let _ = walk.path.pop();
        return Ok(true);
    };
    let child = tree.child(&level.directory, &name);
    walk.path.push(name)?;
    walk.levels.push(level)?;
    match written(alloc, tree, child, walk.path.as_slice(), text)? {
        Some(below) => walk.levels.push(below)?,
        None => {
            let _ = walk.path.pop();
        }
    }
    Ok(true)
}

// Adds the line of what stands at a path, and lists it where it is a directory.
fn written<T: Tree>(
    alloc: Global,
    tree: &T,
    child: Child<'_, T::Directory>,
    path: &[Name],
    text: &mut String,
) -> Result<Option<Level<T::Directory>>, AllocError> {
    match child {
        Child::Directory(directory) => Ok(Some(entered(alloc, tree, directory, path, text)?)),
        Child::Inode(node, size) => {
            write_object(node, size, path, T::WITH_MARKS, text)?;
            Ok(None)
        }
        Child::Whiteout => {
            write_whiteout(path, text)?;
            Ok(None)
        }
        Child::Nothing => Ok(None),
    }
}

// Adds the line of a directory and lists it.
fn entered<T: Tree>(
    alloc: Global,
    tree: &T,
    directory: T::Directory,
    path: &[Name],
    text: &mut String,
) -> Result<Level<T::Directory>, AllocError> {
    if let Some(node) = tree.node(&directory) {
        write_object(node, 0, path, T::WITH_MARKS, text)?;
    }
    let mut left = tree.names(alloc, &directory)?;
    left.reverse();
    Ok(Level { directory, left })
}

fn write_object(
    node: &Node,
    size: u64,
    path: &[Name],
    with_marks: bool,
    text: &mut String,
) -> Result<(), AllocError>
    ensures { OnOk result (string_bytes text.new ≡ string_bytes text.old ++ object_line with_marks node.now size path.now ++ 10 ∷ []) }
{
    let line = ObjectLine {
        node,
        size,
        path,
        with_marks,
    };
    writeln!(text, "{line}")
}

fn write_whiteout(path: &[Name], text: &mut String) -> Result<(), AllocError>
    ensures { OnOk result (string_bytes text.new ≡ string_bytes text.old ++ whiteout_line path.now ++ 10 ∷ []) }
{
    let line = WhiteoutLine(path);
    writeln!(text, "{line}")
}
