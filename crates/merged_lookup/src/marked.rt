// What files without bytes of their own show: the bytes of the lower file at their mark.
ghost use Rattle.std.specs.Prelude.{◌≡◌, ◌≤◌, Some, length, map};
ghost use Rattle.std.specs.Option.{option_copied, option_and_then};
ghost use Rattle.plain_model.specs.Layers.{shows, content_over};
ghost use Rattle.layer_tree.specs.Tree.{inode_of, layer_of};
ghost use Rattle.merged_lookup.specs.Merged.{trees, node_in, lowers_of};
ghost use Rattle.merged_lookup.specs.Marking.{file_place, file_content, content_in, inode_over};

use crate::crossing::cross_from;
use crate::descent::topmost_at;
use crate::layers::Layers;
use crate::numbered::Numbered;
use layer_tree::{Layer, Node};
use ov_base::{Content, Path, Place};

impl Layers {
    /// The place of the file that the lower layers show at a path, if it is a file that they show.
    pub fn low_file(&self, path: &Path) -> Option<Place>
        ensures { result ≡ file_place (shows 1 (lowers_of self.now) path.now) }
    {
        match self.kept_at(path.names()) {
            Some(kept) => self.numbered().place_of_file(kept.shown?),
            None => low_file_in(self.stacked.lowers.as_slice(), path),
        }
    }

    /// What the file or symbolic link at a place holds, as it shows: of the upper's marked files what the lower file has that their
    /// mark shows.
    pub fn content_at(&self, place: Place) -> Option<&Content>
        ensures { option_copied result ≡ content_in (inode_over self.now place) }
    {
        let Node::Inode(inode) = self.node(place)? else {
            return None;
        };
        match &inode.mark {
            Some(mark) if place.layer == 0 => Some(self.content_by(mark, &inode.content)),
            _ => Some(&inode.content),
        }
    }

    // What an inode of the upper with this mark and these contents of its own shows.
    fn content_by<'a>(&'a self, mark: &Path, own: &'a Content) -> &'a Content
        ensures { result.now ≡ content_over (lowers_of self.now) (Some mark.now) own.now }
    {
        let Content::File(_) = own else {
            return own;
        };
        let Some(place) = self.low_file(mark) else {
            return own;
        };
        match self.file_at(place) {
            Some(low) => low,
            None => unreachable!(),
        }
    }

    // What the file at a place holds, where one stands there.
    pub(crate) fn file_at(&self, place: Place) -> Option<&Content>
        ensures { option_copied result ≡ file_content (option_and_then inode_of (node_in (trees self.now) place)) }
    {
        self.numbered().file_at(place)
    }
}

/// The place of the file that lower layers show at a path, if it is a file that they show: `Layers::low_file` before there is a mount.
pub fn low_file_in(lowers: &[Layer], path: &Path) -> Option<Place>
    requires { length lowers.now ≤ 16 }
    ensures { result ≡ file_place (shows 1 (map layer_of lowers.now) path.now) }
{
    let (name, parents) = path.split_last()?;
    let layers = Numbered {
        upper: lowers.first()?,
        lowers,
    };
    let directories = cross_from(layers, 1, parents);
    layers.place_of_file(topmost_at(layers, directories.as_slice(), name)?)
}
