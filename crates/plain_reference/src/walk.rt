// The walk of a path (POSIX.1-2017, Pathname Resolution), narrowed: symbolic links are never followed.

use crate::content::Content;
use crate::id::Id;
use crate::node::Node;
use crate::tree::Tree;
use ov_base::{Errno, Name};
use std::alloc::{AllocError, Global};

/// Where a path leads: to a node, or its last name is absent from a directory, or the walk is refused.
#[derive(Drop)]
pub enum Look {
    Found(Id),
    Absent(Id),
    Fails(Errno),
}

// One name on from a node.
fn enter(directory: Id, node: Option<&Node>, name: &Name) -> Result<Look, AllocError> {
    match node {
        None => Ok(Look::Fails(Errno::ENOENT)),
        Some(Node::Directory { names, .. }) => match names.get(name) {
            Some(id) => Ok(Look::Found(id.clone()?)),
            None => Ok(Look::Absent(directory)),
        },
        Some(Node::Leaf { content, .. }) => match content {
            Content::File(_) => Ok(Look::Fails(Errno::ENOTDIR)),
            Content::SymbolicLink(_) => Ok(Look::Fails(Errno::ELOOP)),
        },
    }
}

impl Tree {
    // One name on from where a walk has led.
    fn into(&self, look: Look, name: &Name) -> Result<Look, AllocError> {
        match look {
            Look::Found(id) => {
                let node = self.node(&id);
                enter(id, node, name)
            }
            Look::Absent(_) => Ok(Look::Fails(Errno::ENOENT)),
            Look::Fails(errno) => Ok(Look::Fails(errno)),
        }
    }

    /// The walk of names from the root down.
    pub fn look(&self, alloc: Global, names: &[Name]) -> Result<Look, AllocError> {
        let mut at = Look::Found(Id::root(alloc));
        for name in names {
            at = self.into(at, name)?;
        }
        Ok(at)
    }

    /// The node that a walk leads to.
    pub fn node_found(&self, look: &Look) -> Option<&Node> {
        match look {
            Look::Found(id) => self.node(id),
            _ => None,
        }
    }

    /// The way in to a path: its directory and its last name. The root has none.
    pub fn way_of(&self, alloc: Global, names: &[Name]) -> Result<Option<(Id, Name)>, AllocError> {
        match names {
            [] => Ok(None),
            [parents @ .., last] => {
                let way = way_in(self.look(alloc, parents)?, last.clone()?);
                Ok(way)
            }
        }
    }

    /// The identity at a path.
    pub fn node_at(&self, alloc: Global, names: &[Name]) -> Result<Option<Id>, AllocError> {
        let id = found_in(self.look(alloc, names)?);
        Ok(id)
    }
}

/// The node that a walk leads to.
pub fn found_in(look: Look) -> Option<Id> {
    match look {
        Look::Found(id) => Some(id),
        _ => None,
    }
}

fn way_in(look: Look, name: Name) -> Option<(Id, Name)> {
    match look {
        Look::Found(directory) => Some((directory, name)),
        _ => None,
    }
}

/// Whether two walks lead to one node.
pub fn same_found(first: &Look, second: &Look) -> bool {
    match (first, second) {
        (Look::Found(node), Look::Found(other)) => node.is(other),
        _ => false,
    }
}
