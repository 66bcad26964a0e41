// The opening tree, put together by hand.

use crate::clients::Clients;
use crate::content::Content;
use crate::id::Id;
use crate::instances::Instances;
use crate::names::Names;
use crate::node::{Node, Origin};
use crate::options::MountOptions;
use crate::reference::Reference;
use crate::tree::Tree;
use crate::unwatched::Unwatched;
use ov_base::{Attributes, Bytes, Path};
use std::alloc::{AllocError, Global};

/// Puts an opening tree together, node by node from the root down, with nothing of the engine's look-up.
#[derive(Drop)]
pub struct Builder {
    tree: Tree,
    options: MountOptions,
    alloc: Global,
}

impl Builder {
    /// A tree of the root alone, of a mount that is told this.
    pub fn new(
        alloc: Global,
        root: Attributes,
        options: MountOptions,
    ) -> Result<Builder, AllocError> {
        let mut tree = Tree::new(alloc);
        tree.put(
            Id::root(alloc),
            Node::Directory {
                attributes: root,
                is_base: true,
                names: Names::new(alloc),
                count: 1,
            },
        )?;
        Ok(Builder {
            tree,
            options,
            alloc,
        })
    }

    // Puts a node at a path whose parent is there.
    fn put(&mut self, path: &Path, node: Node) -> Result<(), AllocError> {
        let way = self.tree.way_of(self.alloc, path.names())?;
        let id = Id::at(self.alloc, path)?;
        self.tree.place(&way, id, node)
    }

    /// Puts a directory at a path, and says whether a lower layer has it too. Nothing changes where the path has no parent, and where
    /// memory is refused.
    pub fn directory(
        &mut self,
        path: &Path,
        attributes: Attributes,
        is_base: bool,
    ) -> Result<(), AllocError> {
        let names = Names::new(self.alloc);
        self.put(
            path,
            Node::Directory {
                attributes,
                is_base,
                names,
                count: 1,
            },
        )
    }

    /// Puts a file or a symbolic link at a path, of the upper layer or untouched in a lower one, and says how many names it has: this
    /// one, and those that `name` gives it. Nothing changes where the path has no parent, and where memory is refused.
    pub fn leaf(
        &mut self,
        path: &Path,
        content: Content,
        attributes: Attributes,
        origin: Origin,
        count: u64,
    ) -> Result<(), AllocError> {
        self.put(
            path,
            Node::Leaf {
                content,
                attributes,
                origin,
                count,
            },
        )
    }

    /// Makes a path a further name of the file or symbolic link at another one, which was said to have it. Nothing changes where nothing
    /// is there or the path has no parent, and where memory is refused.
    pub fn name(&mut self, path: &Path, of: &Path) -> Result<(), AllocError> {
        let way = self.tree.way_of(self.alloc, path.names())?;
        if let Some(node) = self.tree.node_at(self.alloc, of.names())? {
            self.tree.lead_way(&way, &node)?;
        }
        Ok(())
    }

    /// The plain machine at the tree, with no client.
    pub fn finish(self) -> Reference {
        let Builder {
            tree,
            options,
            alloc,
        } = self;
        let unwatched = Unwatched {
            tree,
            clients: Clients::new(alloc),
            serial: 0,
            renames: 0,
            options,
            alloc,
        };
        Reference {
            unwatched,
            instances: Instances::new(alloc),
        }
    }
}
