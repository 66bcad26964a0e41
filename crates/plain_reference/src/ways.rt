// The ways in by which nodes were opened.

use crate::id::Id;
use ov_base::Name;
use std::alloc::{AllocError, Global};

/// Whether two ways in are one directory and name. The root has none, which is like no other.
pub fn same_way(first: &Option<(Id, Name)>, second: &Option<(Id, Name)>) -> bool {
    match (first, second) {
        (Some((directory, name)), Some((other, called))) => directory.is(other) && name == called,
        _ => false,
    }
}

/// Copies of a way in. They are made ahead, so that handing them out can't fail.
#[derive(Drop)]
pub struct Copies {
    way: Option<(Id, Name)>,
    made: Vec<Option<(Id, Name)>>,
}

impl Copies {
    /// No copies yet.
    pub fn new(alloc: Global, way: Option<(Id, Name)>) -> Copies {
        Copies {
            way,
            made: Vec::new(alloc),
        }
    }

    /// Makes one more.
    pub fn add(&mut self) -> Result<(), AllocError> {
        let copy = self.way.clone()?;
        self.made.push(copy)?;
        Ok(())
    }

    /// Hands one out.
    pub fn take(&mut self) -> Option<(Id, Name)> {
        self.made.pop().flatten()
    }
}
