// Why a walk through the layers leads to no directory (POSIX.1-2017, 4.13).
ghost use Rattle.std.specs.Prelude.{◌≡◌, ◌≢◌, ◌+◌, ◌<◌, [], Some, length, reverse, take};
ghost use Rattle.std.specs.Option.{option_and_then};
ghost use Rattle.layer_tree.specs.Tree.{inode_of};
ghost use Rattle.merged_lookup.specs.Merged.{trees, node_in, layers_of, way_fault, inode_fault, place_fault};
ghost use Rattle.merged_lookup.specs.Descent.{places_from};

use crate::crossing::cross_all;
use crate::descent::topmost;
use crate::layers::Layers;
use layer_tree::{Inode, Node};
use ov_base::{Content, Errno, Name, Place};

impl Layers {
    // Why a name leads to no directory: an inode that it shows, or nothing.
    pub(crate) fn fault_at(&self, inode: Option<Place>) -> Errno
        ensures { result ≡ place_fault (trees self.now) inode }
    {
        match inode {
            Some(place) => self.blocked(place),
            None => Errno::ENOENT,
        }
    }

    // Why names lead to no directory: the fault of the first one that leads to none.
    pub(crate) fn fault_on(&self, names: &[Name]) -> Errno
        requires nowhere { places_from 0 (trees self.now) (reverse names.now) ≡ [] }
        ensures { way_fault (layers_of self.now) (reverse names.now) ≡ Some result }
    {
        let directories = self.directories_on(names);
        let parent = cross_all(self, 0, &names[..directories]);
        match topmost(self, parent.as_slice(), &names[directories]) {
            Some(shown) => self.blocked(shown.place()),
            None => Errno::ENOENT,
        }
    }

    // How many of the names lead to directories, by about as many crossings of the layers as their number has binary digits.
    fn directories_on(&self, names: &[Name]) -> usize
        requires nowhere { places_from 0 (trees self.now) (reverse names.now) ≡ [] }
        ensures within { result < length names.now }
        ensures directory { places_from 0 (trees self.now) (reverse (take result names.now)) ≢ [] }
        ensures nowhere { places_from 0 (trees self.now) (reverse (take (result + 1) names.now)) ≡ [] }
    {
        let mut directories = 0;
        let mut beyond = names.len();
        while beyond - directories > 1 {
            let middle = directories + (beyond - directories) / 2;
            if cross_all(self, 0, &names[..middle]).is_empty() {
                beyond = middle;
            } else {
                directories = middle;
            }
        }
        directories
    }

    /// Why a walk can't go on from an inode: a symbolic link, which isn't followed, is ELOOP, and a file is ENOTDIR.
    pub fn blocked(&self, place: Place) -> Errno
        ensures { result ≡ inode_fault (option_and_then inode_of (node_in (trees self.now) place)) }
    {
        match self.node(place) {
            Some(
                Node::Inode(
                    Inode {
                        content: Content::SymbolicLink(_),
                        ..
                    },
                ),
            ) => Errno::ELOOP,
            _ => Errno::ENOTDIR,
        }
    }
}
