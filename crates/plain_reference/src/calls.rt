// The calls by path.

use crate::node::{Node, bytes_of, stat_of};
use crate::unwatched::Unwatched;
use ov_base::{Path, Reply};
use std::alloc::AllocError;

impl Unwatched {
    // The node at a path.
    pub(crate) fn node(&self, path: &Path) -> Result<Option<&Node>, AllocError> {
        let look = self.look(path)?;
        let node = self.tree.node_found(&look);
        Ok(node)
    }

    pub(crate) fn stat(&self, path: &Path) -> Result<Reply, AllocError> {
        if let Some(errno) = self.stat_refusal(path)? {
            return Ok(Reply::Refused(errno));
        }
        let node = self.node(path)?;
        Ok(stat_of(node))
    }

    pub(crate) fn readlink(&self, path: &Path) -> Result<Reply, AllocError> {
        if let Some(errno) = self.readlink_refusal(path)? {
            return Ok(Reply::Refused(errno));
        }
        let node = self.node(path)?;
        let bytes = bytes_of(self.alloc, node)?;
        Ok(Reply::Target(bytes))
    }
}
