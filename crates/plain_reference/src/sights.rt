// What the tree shows at a path, without a client.

use crate::node::{bytes_of, has_low_bytes, names_in, stat_of};
use crate::reference::Reference;
use ov_base::{Bytes, Name, NameList, Path, Reply, copy_names};
use std::alloc::AllocError;

impl Reference {
    /// What `stat` shows at a path.
    pub fn status(&self, path: &Path) -> Result<Reply, AllocError> {
        let node = self.unwatched.node(path)?;
        Ok(stat_of(node))
    }

    /// The sorted names in the directory at a path; elsewhere none.
    pub fn names(&self, path: &Path) -> Result<NameList, AllocError> {
        let node = self.unwatched.node(path)?;
        names_in(self.unwatched.alloc, node)
    }

    /// The bytes of the file, or the target of the symbolic link, at a path; elsewhere none.
    pub fn content(&self, path: &Path) -> Result<Bytes, AllocError> {
        let node = self.unwatched.node(path)?;
        bytes_of(self.unwatched.alloc, node)
    }

    /// Where the mount began with the file at a path that stands in the upper without bytes of its
    /// own (overlayfs.rst, "Metadata only copy up"): the names from the last one up. That file isn't
    /// written to, and a directory that moves leads where it led, so the layers below have it there
    /// for ever. None for all else.
    pub fn marked_from(&self, path: &Path) -> Result<Option<Vec<Name>>, AllocError> {
        let unwatched = &self.unwatched;
        let Some(id) = unwatched.tree.node_at(unwatched.alloc, path.names())? else {
            return Ok(None);
        };
        if !has_low_bytes(unwatched.tree.node(&id)) {
            return Ok(None);
        }
        match id.began_at() {
            Some(names) => Ok(Some(copy_names(unwatched.alloc, names)?)),
            None => Ok(None),
        }
    }
}
