// The names of a directory.

use crate::id::Id;
use ov_base::Name;
use std::alloc::{AllocError, Global};
use std::collections::BTreeMap;

/// The names of a directory, sorted by their bytes, and where each leads.
#[derive(Drop)]
pub struct Names {
    ids: BTreeMap<Name, Id>,
}

impl Names {
    /// No names.
    pub fn new(alloc: Global) -> Names {
        Names {
            ids: BTreeMap::new(alloc),
        }
    }

    /// Where a name leads.
    pub fn get(&self, name: &Name) -> Option<&Id> {
        self.ids.get(name)
    }

    /// Leads a name to a node.
    pub fn insert(&mut self, name: Name, id: Id) -> Result<(), AllocError> {
        self.ids.insert(name, id)?;
        Ok(())
    }

    /// Takes a name out.
    pub fn remove(&mut self, name: &Name) {
        self.ids.remove(name);
    }

    /// Whether there is no name.
    pub fn is_empty(&self) -> bool {
        self.ids.len() == 0
    }

    /// The names in their order.
    pub fn list(&self, alloc: Global) -> Result<Vec<Name>, AllocError> {
        let mut list = Vec::new(alloc);
        for name in self.ids.keys() {
            list.push(name.clone()?)?;
        }
        Ok(list)
    }
}
