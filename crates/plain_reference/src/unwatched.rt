// The state of the reference without its watches, and the calls that are made without them.

use crate::clients::Clients;
use crate::options::MountOptions;
use crate::tree::Tree;
use ov_base::{Call, Errno, Reply};
use std::alloc::{AllocError, Global};

/// The plain machine without its watches: the tree, the attached clients' descriptors, the next serial, how many renames moved
/// something, and what the mount was told as it began.
#[derive(Drop)]
pub struct Unwatched {
    pub(crate) tree: Tree,
    pub(crate) clients: Clients,
    pub(crate) serial: u64,
    pub(crate) renames: u64,
    pub(crate) options: MountOptions,
    pub(crate) alloc: Global,
}

impl Unwatched {
    /// Makes a client's call as the plain machine without watches does. None where it isn't
    /// offered: a new node when the serials have run out, or a further name or move that can't be
    /// counted. An allocation failure changes nothing.
    pub(crate) fn call(&mut self, client: u32, call: &Call) -> Result<Option<Reply>, AllocError> {
        match call {
            Call::Mkdir { path, mode } => self.mkdir(path, *mode),
            Call::Symlink { target, path } => self.symlink(target, path),
            Call::Open { path, flags, mode } => self.open(client, path, *flags, *mode),
            Call::Hardlink { old, new } => self.link(old, new),
            Call::Rename { old, new } => self.rename(old, new),
            _ => {
                let reply = self.made_by_path(client, call)?;
                Ok(Some(reply))
            }
        }
    }

    // The reply to a call that is always offered.
    fn made_by_path(&mut self, client: u32, call: &Call) -> Result<Reply, AllocError> {
        match call {
            Call::Stat { path } => self.stat(path),
            Call::Readlink { path } => self.readlink(path),
            Call::Chmod { path, mode } => self.chmod(path, *mode),
            Call::Chown { path, uid, gid } => self.chown(path, *uid, *gid),
            Call::SetAttribute { path, name, value } => self.set_attribute(path, name, value),
            Call::GetAttribute { path, name } => self.get_attribute(path, name),
            Call::DeleteAttribute { path, name } => self.delete_attribute(path, name),
            Call::ListAttributes { path } => self.list_attributes(path),
            Call::Unlink { path } => self.unlink(path),
            Call::Rmdir { path } => self.rmdir(path),
            _ => self.made_by_descriptor(client, call),
        }
    }

    // The same of a call by descriptor. `close` and the calls on watches are made elsewhere.
    fn made_by_descriptor(&mut self, client: u32, call: &Call) -> Result<Reply, AllocError> {
        match call {
            Call::Seek {
                descriptor,
                offset,
                whence,
            } => Ok(self.seek(client, *descriptor, *offset, *whence)),
            Call::Read { descriptor, count } => self.read(client, *descriptor, *count),
            Call::Write { descriptor, bytes } => self.write(client, *descriptor, bytes),
            Call::Truncate { descriptor, size } => self.truncate(client, *descriptor, *size),
            Call::Fstat { descriptor } => Ok(self.fstat(client, *descriptor)),
            Call::ListNames { descriptor, count } => self.list(client, *descriptor, *count),
            _ => Ok(Reply::Refused(Errno::EINVAL)),
        }
    }
}
