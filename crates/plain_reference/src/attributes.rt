// The calls that change attributes.

use crate::node::attributes_of;
use crate::unwatched::Unwatched;
use ov_base::{Attributes, Bytes, Mode, Path, Reply};
use std::alloc::AllocError;

// Sets a user attribute.
fn set_user(attributes: &mut Attributes, name: &Bytes, value: &Bytes) -> Result<(), AllocError> {
    attributes.user.set(name.clone()?, value.clone()?)?;
    Ok(())
}

impl Unwatched {
    // A copy of the attributes of the node at a path.
    fn attributes(&self, path: &Path) -> Result<Option<Attributes>, AllocError> {
        match attributes_of(self.node(path)?) {
            Some(attributes) => Ok(Some(attributes.clone()?)),
            None => Ok(None),
        }
    }

    // Gives the node at a path other attributes.
    fn give(&mut self, path: &Path, attributes: Attributes) -> Result<(), AllocError> {
        if let Some(id) = self.tree.node_at(self.alloc, path.names())? {
            self.tree.give(self.options.metacopy, &id, attributes);
        }
        Ok(())
    }

    pub(crate) fn chmod(&mut self, path: &Path, mode: u32) -> Result<Reply, AllocError> {
        if let Some(errno) = self.chmod_refusal(path, mode)? {
            return Ok(Reply::Refused(errno));
        }
        let mode = match Mode::parse(mode) {
            Ok(mode) => mode,
            Err(errno) => return Ok(Reply::Refused(errno)),
        };
        let Some(mut attributes) = self.attributes(path)? else {
            return Ok(Reply::Done);
        };
        attributes.mode = mode;
        self.give(path, attributes)?;
        Ok(Reply::Done)
    }

    pub(crate) fn chown(&mut self, path: &Path, uid: u32, gid: u32) -> Result<Reply, AllocError> {
        if let Some(errno) = self.chown_refusal(path, uid, gid)? {
            return Ok(Reply::Refused(errno));
        }
        let Some(mut attributes) = self.attributes(path)? else {
            return Ok(Reply::Done);
        };
        attributes.uid = uid;
        attributes.gid = gid;
        self.give(path, attributes)?;
        Ok(Reply::Done)
    }

    pub(crate) fn set_attribute(
        &mut self,
        path: &Path,
        name: &Bytes,
        value: &Bytes,
    ) -> Result<Reply, AllocError> {
        if let Some(errno) = self.set_attribute_refusal(path, name, value)? {
            return Ok(Reply::Refused(errno));
        }
        let Some(mut attributes) = self.attributes(path)? else {
            return Ok(Reply::Done);
        };
        set_user(&mut attributes, name, value)?;
        self.give(path, attributes)?;
        Ok(Reply::Done)
    }

    pub(crate) fn delete_attribute(
        &mut self,
        path: &Path,
        name: &Bytes,
    ) -> Result<Reply, AllocError> {
        if let Some(errno) = self.delete_attribute_refusal(path, name)? {
            return Ok(Reply::Refused(errno));
        }
        let Some(mut attributes) = self.attributes(path)? else {
            return Ok(Reply::Done);
        };
        attributes.user.remove(name.as_slice());
        self.give(path, attributes)?;
        Ok(Reply::Done)
    }
}
