// What a path leads to.
ghost use Rattle.std.specs.Prelude.{◌≡◌, Some};
ghost use Rattle.merged_lookup.specs.Descent.{place_shown, leads};

use crate::stack::Stack;
use ov_base::{Name, Place};

/// What is shown at a name: a merged directory, or a file or symbolic link of one layer.
#[derive(Drop)]
pub enum Found {
    Directory(Stack),
    Inode(Place),
}

/// What is shown at a name by the topmost object there: a directory, whose attributes are the merged one's, or a file or symbolic link.
#[derive(Clone, Copy)]
pub enum Topmost {
    Directory(Place),
    Inode(Place),
}

impl Topmost {
    /// The topmost object.
    pub fn place(self) -> Place
        ensures { result ≡ place_shown self }
    {
        match self {
            Topmost::Directory(place) | Topmost::Inode(place) => place,
        }
    }

    /// Whether it is a directory.
    pub fn is_directory(self) -> bool
        ensures { result ≡ leads (Some self) }
    {
        matches!(self, Topmost::Directory(_))
    }
}

/// The merged directory in which the last name of a path stands, and that name.
#[derive(Drop)]
pub struct Parent<'a> {
    pub stack: Stack,
    pub name: &'a Name,
}
