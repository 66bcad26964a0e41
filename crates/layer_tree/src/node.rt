// The objects of a layer.
use crate::name_table::NameTable;
use ov_base::{Attributes, Content, Path, Redirect};

/// The marks of a directory: `trusted.overlay.opaque` and `trusted.overlay.redirect` of overlayfs.rst.
#[derive(Drop)]
pub struct Marks {
    pub opaque: bool,
    pub redirect: Option<Redirect>,
}

/// A directory of a layer: its names, attributes and marks.
#[derive(Drop)]
pub struct Directory {
    pub names: NameTable,
    pub attributes: Attributes,
    pub marks: Marks,
}

/// A file or symbolic link of a layer, and how many names it has there. A file with a mark has no
/// bytes of its own: they are those of the file that the layers below show at the mark's path
/// (overlayfs.rst, "Metadata only copy up").
#[derive(Drop)]
pub struct Inode {
    pub content: Content,
    pub attributes: Attributes,
    pub links: u64,
    pub mark: Option<Box<Path>>,
}

/// What stands under a key of a layer.
#[derive(Drop)]
pub enum Node {
    Directory(Directory),
    Inode(Inode),
}

// A layer holds many: the names of a directory stand on the heap, so that a file is no wider than it has to be.
const _: () = prove!(size_of::<Node>() == 120);

/// An object on its way into a layer.
#[derive(Drop)]
pub enum Object {
    Directory(Attributes, Marks),
    Inode(Content, Attributes),
    /// A file without bytes of its own, with its mark.
    Marked(Box<Path>, Attributes),
}
