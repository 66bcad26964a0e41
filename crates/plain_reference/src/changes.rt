// The calls that change the tree.

use crate::clients::is_held;
use crate::content::Content;
use crate::id::Id;
use crate::names::Names;
use crate::node::{Node, Origin, count_of, is_named};
use crate::unwatched::Unwatched;
use ov_base::{Attributes, Bytes, Errno, LinkTarget, Mode, Path, Reply, UserAttributes};
use std::alloc::{AllocError, Global};

fn fresh(alloc: Global, mode: Mode) -> Attributes {
    Attributes {
        mode,
        uid: 0,
        gid: 0,
        user: UserAttributes::new(alloc),
    }
}

fn new_directory(alloc: Global, mode: Mode) -> Node {
    Node::Directory {
        attributes: fresh(alloc, mode),
        is_base: false,
        names: Names::new(alloc),
        count: 1,
    }
}

fn new_link(alloc: Global, target: LinkTarget) -> Node {
    Node::Leaf {
        content: Content::SymbolicLink(target),
        attributes: fresh(alloc, Mode::of_links()),
        origin: Origin::Own(false),
        count: 1,
    }
}

/// A new file, without bytes.
pub fn new_file(alloc: Global, mode: Mode) -> Node {
    Node::Leaf {
        content: Content::File(Bytes::new(alloc)),
        attributes: fresh(alloc, mode),
        origin: Origin::Own(false),
        count: 1,
    }
}

impl Unwatched {
    /// Puts a new node under the next serial, and leads the last name of a path to it.
    pub(crate) fn make(&mut self, path: &Path, node: Node) -> Result<(), AllocError> {
        let way = self.tree.way_of(self.alloc, path.names())?;
        self.tree.place(&way, Id::new(self.serial), node)
    }

    // Takes the node of an identity out of the tree where it has neither name nor handle.
    pub(crate) fn settle(&mut self, id: &Id) {
        let named = is_named(self.tree.node(id));
        let held = is_held(self.clients.as_slice(), id);
        if !named && !held {
            self.tree.take_out(id);
        }
    }

    // The same of what a name led to, if anything.
    pub(crate) fn settle_any(&mut self, node: &Option<Id>) {
        if let Some(id) = node {
            self.settle(id);
        }
    }

    // Takes the last name of a path away from the node that it leads to.
    fn drop_name(&mut self, path: &Path) -> Result<(), AllocError> {
        let node = self.tree.node_at(self.alloc, path.names())?;
        let way = self.tree.way_of(self.alloc, path.names())?;
        if let Some(id) = &node {
            self.tree.lose_name(id);
        }
        self.tree.unlead_way(&way);
        self.settle_any(&node);
        Ok(())
    }

    // Gives a node a further name, the last one of a path. The name is there before it is counted.
    fn add_name(&mut self, path: &Path, id: &Id) -> Result<(), AllocError> {
        let way = self.tree.way_of(self.alloc, path.names())?;
        self.tree.lead_way(&way, id)?;
        self.tree.gain_name(self.options.metacopy, id);
        Ok(())
    }

    pub(crate) fn mkdir(&mut self, path: &Path, mode: u32) -> Result<Option<Reply>, AllocError> {
        if self.serial == u64::MAX {
            return Ok(None);
        }
        if let Some(errno) = self.mkdir_refusal(path, mode)? {
            return Ok(Some(Reply::Refused(errno)));
        }
        let mode = match Mode::parse(mode) {
            Ok(mode) => mode,
            Err(errno) => return Ok(Some(Reply::Refused(errno))),
        };
        self.make(path, new_directory(self.alloc, mode))?;
        self.serial = self.serial.saturating_add(1);
        Ok(Some(Reply::Done))
    }

    pub(crate) fn symlink(
        &mut self,
        target: &Bytes,
        path: &Path,
    ) -> Result<Option<Reply>, AllocError> {
        if self.serial == u64::MAX {
            return Ok(None);
        }
        if let Some(errno) = self.symlink_refusal(target, path)? {
            return Ok(Some(Reply::Refused(errno)));
        }
        let target = match LinkTarget::parse(target.clone()?) {
            Ok(target) => target,
            Err(errno) => return Ok(Some(Reply::Refused(errno))),
        };
        self.make(path, new_link(self.alloc, target))?;
        self.serial = self.serial.saturating_add(1);
        Ok(Some(Reply::Done))
    }

    pub(crate) fn unlink(&mut self, path: &Path) -> Result<Reply, AllocError> {
        if let Some(errno) = self.unlink_refusal(path)? {
            return Ok(Reply::Refused(errno));
        }
        self.drop_name(path)?;
        Ok(Reply::Done)
    }

    pub(crate) fn rmdir(&mut self, path: &Path) -> Result<Reply, AllocError> {
        if let Some(errno) = self.rmdir_refusal(path)? {
            return Ok(Reply::Refused(errno));
        }
        self.drop_name(path)?;
        Ok(Reply::Done)
    }

    /// Gives what is at a path a further name. That is not offered when its names can't be counted any further.
    pub(crate) fn link(&mut self, old: &Path, new: &Path) -> Result<Option<Reply>, AllocError> {
        if let Some(errno) = self.link_refusal(old, new)? {
            return Ok(Some(Reply::Refused(errno)));
        }
        let Some(node) = self.tree.node_at(self.alloc, old.names())? else {
            return Ok(Some(Reply::Refused(Errno::ENOENT)));
        };
        if count_of(self.tree.node(&node)) == u64::MAX {
            return Ok(None);
        }
        self.add_name(new, &node)?;
        Ok(Some(Reply::Done))
    }
}
