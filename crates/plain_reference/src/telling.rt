// Whom a call tells, as far as that is known before its change.

use crate::id::Id;
use crate::subject::{Aim, Subject};
use ov_base::Name;
use std::alloc::{AllocError, Global};

/// A subject that is for the watches on a node, held in itself.
#[derive(Drop)]
pub struct Told {
    node: Id,
    bits: u32,
    cookie: u32,
    name: Option<Name>,
}

impl Told {
    /// The subject.
    pub fn subject(&self) -> Subject<'_> {
        Subject {
            aim: Aim::On(&self.node),
            bits: self.bits,
            cookie: self.cookie,
            name: self.name.as_ref(),
        }
    }
}

/// Whom a call tells: first these subjects, and then the end of a node where the tree doesn't have it any more.
#[derive(Drop)]
pub struct Telling {
    pub told: Vec<Told>,
    pub ends: Option<Id>,
}

impl Telling {
    /// It tells nobody.
    pub fn new(alloc: Global) -> Telling {
        Telling {
            told: Vec::new(alloc),
            ends: None,
        }
    }

    /// Tells the directory of a way in, with the name.
    pub fn by_way(
        &mut self,
        way: &Option<(Id, Name)>,
        bits: u32,
        cookie: u32,
    ) -> Result<(), AllocError> {
        if let Some((directory, name)) = way {
            self.told.push(Told {
                node: directory.clone()?,
                bits,
                cookie,
                name: Some(name.clone()?),
            })?;
        }
        Ok(())
    }

    /// Tells a node, without a name.
    pub fn of_node(&mut self, node: Option<&Id>, bits: u32) -> Result<(), AllocError> {
        if let Some(node) = node {
            self.told.push(Told {
                node: node.clone()?,
                bits,
                cookie: 0,
                name: None,
            })?;
        }
        Ok(())
    }

    /// Tells the directory of a way in, and then the node.
    pub fn both(
        &mut self,
        way: &Option<(Id, Name)>,
        node: Option<&Id>,
        bits: u32,
    ) -> Result<(), AllocError> {
        self.by_way(way, bits, 0)?;
        self.of_node(node, bits)
    }
}
