// The nodes of the tree by their identities.

use crate::id::Id;
use crate::node::Node;
use ov_base::{Attributes, Bytes, Name, OpenFlags};
use std::alloc::{AllocError, Global};

/// An identity, and the node that stands there, if it is still in the tree.
#[derive(Drop)]
pub struct Slot {
    id: Id,
    node: Option<Node>,
}

/// The nodes of the tree, each under an identity of its own.
#[derive(Drop)]
pub struct Tree {
    slots: Vec<Slot>,
}

impl Tree {
    /// A tree of no nodes.
    pub fn new(alloc: Global) -> Tree {
        Tree {
            slots: Vec::new(alloc),
        }
    }

    fn slot_mut(&mut self, id: &Id) -> Option<&mut Slot> {
        self.slots.iter_mut().find(|slot| slot.id.is(id))
    }

    fn node_mut(&mut self, id: &Id) -> Option<&mut Node> {
        self.slot_mut(id)?.node.as_mut()
    }

    /// The node of an identity.
    pub fn node(&self, id: &Id) -> Option<&Node> {
        let slot = self.slots.iter().find(|slot| slot.id.is(id))?;
        slot.node.as_ref()
    }

    /// Puts a node at an identity that none has.
    pub fn put(&mut self, id: Id, node: Node) -> Result<(), AllocError> {
        self.slots.push(Slot {
            id,
            node: Some(node),
        })?;
        Ok(())
    }

    /// Leads a name in a directory to a node.
    pub fn lead(&mut self, directory: &Id, name: &Name, to: Id) -> Result<(), AllocError> {
        if let Some(node) = self.node_mut(directory) {
            node.lead(name, to)?;
        }
        Ok(())
    }

    /// Takes a name out of a directory.
    pub fn unlead(&mut self, directory: &Id, name: &Name) {
        if let Some(node) = self.node_mut(directory) {
            node.unlead(name);
        }
    }

    /// Leads a way in to a node; without one nothing changes.
    pub fn lead_way(&mut self, way: &Option<(Id, Name)>, to: &Id) -> Result<(), AllocError> {
        if let Some((directory, name)) = way {
            self.lead(directory, name, to.clone()?)?;
        }
        Ok(())
    }

    /// Takes the name of a way in out of its directory; without one nothing changes.
    pub fn unlead_way(&mut self, way: &Option<(Id, Name)>) {
        if let Some((directory, name)) = way {
            self.unlead(directory, name);
        }
    }

    /// Lets a node have a name less.
    pub fn lose_name(&mut self, id: &Id) {
        if let Some(node) = self.node_mut(id) {
            node.lose_name();
        }
    }

    /// Lets a file or symbolic link have a name more, as far as numbers go.
    pub fn gain_name(&mut self, metacopy: bool, id: &Id) {
        if let Some(node) = self.node_mut(id) {
            node.gain_name(metacopy);
        }
    }

    /// Lets a file or symbolic link of a lower layer be copied up where its attributes or names change.
    pub fn copy_up(&mut self, metacopy: bool, id: &Id) {
        if let Some(node) = self.node_mut(id) {
            node.copy_up(metacopy);
        }
    }

    /// Gives a node other attributes.
    pub fn give(&mut self, metacopy: bool, id: &Id, attributes: Attributes) {
        if let Some(node) = self.node_mut(id) {
            node.give(metacopy, attributes);
        }
    }

    /// Lets a node be opened.
    pub fn open(&mut self, alloc: Global, id: &Id, flags: OpenFlags) {
        if let Some(node) = self.node_mut(id) {
            node.open(alloc, flags);
        }
    }

    /// Gives a file other bytes.
    pub fn fill(&mut self, id: &Id, bytes: Bytes) {
        if let Some(node) = self.node_mut(id) {
            node.fill(bytes);
        }
    }

    /// Takes the node of an identity out of the tree.
    pub fn take_out(&mut self, id: &Id) {
        if let Some(slot) = self.slot_mut(id) {
            slot.node = None;
        }
    }

    /// Puts a node under an identity and leads a way in to it; without one nothing changes. Nor
    /// does it where memory is refused.
    pub fn place(
        &mut self,
        way: &Option<(Id, Name)>,
        id: Id,
        node: Node,
    ) -> Result<(), AllocError> {
        match way {
            Some((directory, name)) => {
                let node = Some(node);
                self.place_in(directory, name, Slot { id, node })
            }
            None => Ok(()),
        }
    }

    fn place_in(&mut self, directory: &Id, name: &Name, slot: Slot) -> Result<(), AllocError> {
        let leads_to = slot.id.clone()?;
        self.slots.push(slot)?;
        let led = self.lead(directory, name, leads_to);
        if led.is_err() {
            self.slots.pop();
        }
        led
    }
}
