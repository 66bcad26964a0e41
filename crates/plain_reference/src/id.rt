// Which node of the tree is meant.

use ov_base::{Name, Path, copy_names};
use std::alloc::{AllocError, Global};

/// The identity of a node, as `NodeId`: the path at which the mount began with it, here the last name first, or its serial.
#[derive(Clone, Drop)]
pub struct Id {
    key: Key,
}

#[derive(Clone, Drop)]
enum Key {
    At(Vec<Name>),
    New(u64),
}

impl Id {
    /// The root.
    pub fn root(alloc: Global) -> Id {
        Id {
            key: Key::At(Vec::new(alloc)),
        }
    }

    /// The node that the mount began with at a path.
    pub fn at(alloc: Global, path: &Path) -> Result<Id, AllocError> {
        let mut names = copy_names(alloc, path.names())?;
        names.reverse();
        Ok(Id {
            key: Key::At(names),
        })
    }

    /// The node that was made under a serial.
    pub fn new(serial: u64) -> Id {
        Id {
            key: Key::New(serial),
        }
    }

    /// The names of the path at which the mount began with the node, the last first; none where it
    /// was made.
    pub fn began_at(&self) -> Option<&[Name]> {
        match &self.key {
            Key::At(names) => Some(names.as_slice()),
            Key::New(_) => None,
        }
    }

    /// Whether two identities are the same.
    pub fn is(&self, other: &Id) -> bool {
        match (&self.key, &other.key) {
            (Key::At(first), Key::At(second)) => first.as_slice() == second.as_slice(),
            (Key::New(first), Key::New(second)) => *first == *second,
            _ => false,
        }
    }
}
