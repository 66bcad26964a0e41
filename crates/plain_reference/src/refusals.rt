// Which calls are refused, and by which number: for each call the first line that applies.

use crate::node::{Node, has_names, is_folder, is_link, user_count, value_of};
use crate::unwatched::Unwatched;
use crate::walk::Look;
use ov_base::{AttributeName, Bytes, Errno, Path};
use std::alloc::AllocError;

/// A refusal, where its line applies.
pub fn when(applies: bool, errno: Errno) -> Option<Errno> {
    if applies { Some(errno) } else { None }
}

/// The walk of a path up to its last name.
pub fn walked(look: &Look) -> Option<Errno> {
    match look {
        Look::Fails(errno) => Some(*errno),
        _ => None,
    }
}

/// The walk of a path, and that its last name is there.
pub fn there(look: &Look) -> Option<Errno> {
    match look {
        Look::Fails(errno) => Some(*errno),
        Look::Absent(_) => Some(Errno::ENOENT),
        Look::Found(_) => None,
    }
}

/// Whether a walk leads to a node.
pub fn is_found(look: &Look) -> bool {
    matches!(look, Look::Found(_))
}

/// Whether a path is that of the root.
pub fn is_root(path: &Path) -> bool {
    path.names().is_empty()
}

/// A mode past 7777.
pub fn bad_mode(mode: u32) -> Option<Errno> {
    when(mode > 0o7777, Errno::EINVAL)
}

fn has_nul(bytes: &[u8]) -> bool {
    bytes.iter().any(|byte| *byte == 0)
}

// The fault of an attribute's name.
fn bad_attribute(name: &Bytes) -> Result<Option<Errno>, AllocError> {
    let parsed = AttributeName::parse(name.clone()?);
    Ok(parsed.err())
}

fn readlink_line(look: &Look, node: Option<&Node>) -> Option<Errno> {
    if let Some(errno) = there(look) {
        return Some(errno);
    }
    when(!is_link(node), Errno::EINVAL)
}

// The lines of a call on what is there and is no symbolic link.
fn solid_line(look: &Look, node: Option<&Node>) -> Option<Errno> {
    if let Some(errno) = there(look) {
        return Some(errno);
    }
    when(is_link(node), Errno::ELOOP)
}

fn chmod_line(mode: u32, look: &Look, node: Option<&Node>) -> Option<Errno> {
    if let Some(errno) = bad_mode(mode) {
        return Some(errno);
    }
    solid_line(look, node)
}

fn set_attribute_line(
    fault: Option<Errno>,
    name: &Bytes,
    value: &Bytes,
    look: &Look,
    node: Option<&Node>,
) -> Option<Errno> {
    if let Some(errno) = fault {
        return Some(errno);
    }
    if value.as_slice().len() > 1024 {
        return Some(Errno::EFBIG);
    }
    if let Some(errno) = there(look) {
        return Some(errno);
    }
    if is_link(node) {
        return Some(Errno::ELOOP);
    }
    let is_new = value_of(node, name.as_slice()).is_none();
    let is_full = user_count(node) >= 64;
    when(is_new && is_full, Errno::EFBIG)
}

// The lines of a call on an attribute that is there.
fn held_attribute_line(
    fault: Option<Errno>,
    name: &Bytes,
    look: &Look,
    node: Option<&Node>,
) -> Option<Errno> {
    if let Some(errno) = fault {
        return Some(errno);
    }
    if let Some(errno) = there(look) {
        return Some(errno);
    }
    if is_link(node) {
        return Some(Errno::ELOOP);
    }
    when(value_of(node, name.as_slice()).is_none(), Errno::ENODATA)
}

fn mkdir_line(mode: u32, look: &Look) -> Option<Errno> {
    if let Some(errno) = bad_mode(mode) {
        return Some(errno);
    }
    if let Some(errno) = walked(look) {
        return Some(errno);
    }
    when(is_found(look), Errno::EEXIST)
}

fn symlink_line(target: &Bytes, look: &Look) -> Option<Errno> {
    if target.as_slice().len() > 4095 {
        return Some(Errno::ENAMETOOLONG);
    }
    if target.as_slice().is_empty() {
        return Some(Errno::ENOENT);
    }
    if has_nul(target.as_slice()) {
        return Some(Errno::EINVAL);
    }
    if let Some(errno) = walked(look) {
        return Some(errno);
    }
    when(is_found(look), Errno::EEXIST)
}

fn unlink_line(path: &Path, look: &Look, node: Option<&Node>) -> Option<Errno> {
    if is_root(path) {
        return Some(Errno::EBUSY);
    }
    if let Some(errno) = there(look) {
        return Some(errno);
    }
    when(is_folder(node), Errno::EISDIR)
}

fn rmdir_line(path: &Path, look: &Look, node: Option<&Node>) -> Option<Errno> {
    if is_root(path) {
        return Some(Errno::EBUSY);
    }
    if let Some(errno) = there(look) {
        return Some(errno);
    }
    if !is_folder(node) {
        return Some(Errno::ENOTDIR);
    }
    when(has_names(node), Errno::ENOTEMPTY)
}

fn link_line(look: &Look, node: Option<&Node>, new: &Look) -> Option<Errno> {
    if let Some(errno) = there(look) {
        return Some(errno);
    }
    if let Some(errno) = walked(new) {
        return Some(errno);
    }
    if is_found(new) {
        return Some(Errno::EEXIST);
    }
    when(is_folder(node), Errno::EPERM)
}

impl Unwatched {
    /// The walk of a path.
    pub(crate) fn look(&self, path: &Path) -> Result<Look, AllocError> {
        self.tree.look(self.alloc, path.names())
    }

    /// The refusal of a call with these lines. Where nothing may be written, a call that writes is refused last.
    pub(crate) fn or_read_only(&self, lines: Option<Errno>, writes: bool) -> Option<Errno> {
        if let Some(errno) = lines {
            return Some(errno);
        }
        when(writes && self.options.read_only, Errno::EROFS)
    }

    pub(crate) fn stat_refusal(&self, path: &Path) -> Result<Option<Errno>, AllocError> {
        let look = self.look(path)?;
        Ok(there(&look))
    }

    pub(crate) fn readlink_refusal(&self, path: &Path) -> Result<Option<Errno>, AllocError> {
        let look = self.look(path)?;
        let node = self.tree.node_found(&look);
        Ok(readlink_line(&look, node))
    }

    pub(crate) fn chmod_refusal(
        &self,
        path: &Path,
        mode: u32,
    ) -> Result<Option<Errno>, AllocError> {
        let look = self.look(path)?;
        let node = self.tree.node_found(&look);
        Ok(self.or_read_only(chmod_line(mode, &look, node), true))
    }

    pub(crate) fn chown_refusal(
        &self,
        path: &Path,
        uid: u32,
        gid: u32,
    ) -> Result<Option<Errno>, AllocError> {
        let look = self.look(path)?;
        let node = self.tree.node_found(&look);
        Ok(self.or_read_only(solid_line(&look, node), true))
    }

    pub(crate) fn list_attributes_refusal(&self, path: &Path) -> Result<Option<Errno>, AllocError> {
        let look = self.look(path)?;
        let node = self.tree.node_found(&look);
        Ok(solid_line(&look, node))
    }

    pub(crate) fn set_attribute_refusal(
        &self,
        path: &Path,
        name: &Bytes,
        value: &Bytes,
    ) -> Result<Option<Errno>, AllocError> {
        let fault = bad_attribute(name)?;
        let look = self.look(path)?;
        let node = self.tree.node_found(&look);
        let lines = set_attribute_line(fault, name, value, &look, node);
        Ok(self.or_read_only(lines, true))
    }

    pub(crate) fn get_attribute_refusal(
        &self,
        path: &Path,
        name: &Bytes,
    ) -> Result<Option<Errno>, AllocError> {
        let fault = bad_attribute(name)?;
        let look = self.look(path)?;
        let node = self.tree.node_found(&look);
        Ok(held_attribute_line(fault, name, &look, node))
    }

    pub(crate) fn delete_attribute_refusal(
        &self,
        path: &Path,
        name: &Bytes,
    ) -> Result<Option<Errno>, AllocError> {
        let fault = bad_attribute(name)?;
        let look = self.look(path)?;
        let node = self.tree.node_found(&look);
        Ok(self.or_read_only(held_attribute_line(fault, name, &look, node), true))
    }

    pub(crate) fn mkdir_refusal(
        &self,
        path: &Path,
        mode: u32,
    ) -> Result<Option<Errno>, AllocError> {
        let look = self.look(path)?;
        Ok(self.or_read_only(mkdir_line(mode, &look), true))
    }

    pub(crate) fn symlink_refusal(
        &self,
        target: &Bytes,
        path: &Path,
    ) -> Result<Option<Errno>, AllocError> {
        let look = self.look(path)?;
        Ok(self.or_read_only(symlink_line(target, &look), true))
    }

    pub(crate) fn unlink_refusal(&self, path: &Path) -> Result<Option<Errno>, AllocError> {
        let look = self.look(path)?;
        let node = self.tree.node_found(&look);
        Ok(self.or_read_only(unlink_line(path, &look, node), true))
    }

    pub(crate) fn rmdir_refusal(&self, path: &Path) -> Result<Option<Errno>, AllocError> {
        let look = self.look(path)?;
        let node = self.tree.node_found(&look);
        Ok(self.or_read_only(rmdir_line(path, &look, node), true))
    }

    pub(crate) fn link_refusal(&self, old: &Path, new: &Path) -> Result<Option<Errno>, AllocError> {
        let look = self.look(old)?;
        let node = self.tree.node_found(&look);
        let further = self.look(new)?;
        Ok(self.or_read_only(link_line(&look, node, &further), true))
    }
}
