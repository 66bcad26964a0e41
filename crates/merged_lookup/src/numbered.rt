// Layers by their numbers, without what a mount keeps of them.
ghost use Rattle.std.specs.Prelude.{◌≡◌, ◌+◌, ◌≤◌, Some, length, slice_get};
ghost use Rattle.std.specs.Option.{option_copied, option_and_then};
ghost use Rattle.layer_tree.specs.Tree.{inode_of};
ghost use Rattle.merged_lookup.specs.Merged.{node_in};
ghost use Rattle.merged_lookup.specs.Marking.{file_content, topmost_file};
ghost use Rattle.merged_lookup.specs.Numbered.{row};

use crate::found::Topmost;
use layer_tree::{Layer, Node};
use ov_base::{Content, Place};

// Layers by their numbers: the one under 0, and those from 1 on.
#[derive(Clone, Copy)]
pub(crate) struct Numbered<'a> {
    pub(crate) upper: &'a Layer,
    pub(crate) lowers: &'a [Layer],
}

impl<'a> Numbered<'a> {
    // How many there are.
    pub(crate) fn count(self) -> usize
        requires { length self.lowers.now ≤ 16 }
        ensures count { result ≡ length (row self.entry) }
        ensures few { result ≤ 17 }
    {
        self.lowers.len() + 1
    }

    // A layer by its number.
    pub(crate) fn layer(self, index: usize) -> Option<&'a Layer>
        ensures { option_copied result ≡ slice_get (row self.entry) index }
    {
        match index {
            0 => Some(self.upper),
            _ => self.lowers.get(index - 1),
        }
    }

    // What the file at a place holds, where one stands there.
    pub(crate) fn file_at(self, place: Place) -> Option<&'a Content>
        ensures { option_copied result ≡ file_content (option_and_then inode_of (node_in (row self.entry) place)) }
    {
        let Node::Inode(inode) = self.layer(place.layer)?.node(place.key)? else {
            return None;
        };
        match &inode.content {
            Content::File(_) => Some(&inode.content),
            Content::SymbolicLink(_) => None,
        }
    }

    // The place of what is shown, where that is a file.
    pub(crate) fn place_of_file(self, shown: Topmost) -> Option<Place>
        ensures { result ≡ topmost_file (row self.entry) (Some shown) }
    {
        match shown {
            Topmost::Directory(_) => None,
            Topmost::Inode(place) => {
                self.file_at(place)?;
                Some(place)
            }
        }
    }
}
