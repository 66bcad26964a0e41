// The calls that read user attributes.

use crate::node::{user_names, value_in};
use crate::unwatched::Unwatched;
use ov_base::{Bytes, Path, Reply};
use std::alloc::AllocError;

impl Unwatched {
    pub(crate) fn list_attributes(&self, path: &Path) -> Result<Reply, AllocError> {
        if let Some(errno) = self.list_attributes_refusal(path)? {
            return Ok(Reply::Refused(errno));
        }
        let node = self.node(path)?;
        let names = user_names(self.alloc, node)?;
        Ok(Reply::AttributeNames(names))
    }

    pub(crate) fn get_attribute(&self, path: &Path, name: &Bytes) -> Result<Reply, AllocError> {
        if let Some(errno) = self.get_attribute_refusal(path, name)? {
            return Ok(Reply::Refused(errno));
        }
        let node = self.node(path)?;
        let value = value_in(self.alloc, node, name.as_slice())?;
        Ok(Reply::Value(value))
    }
}
