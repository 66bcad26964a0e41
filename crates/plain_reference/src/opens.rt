// The call `open`.

use crate::changes::new_file;
use crate::clients::Handle;
use crate::id::Id;
use crate::unwatched::Unwatched;
use crate::view::View;
use ov_base::{Mode, OpenFlags, Path, Reply};
use std::alloc::AllocError;

impl Unwatched {
    // Leads the lowest free descriptor of a client to a new handle.
    fn hold(&mut self, client: u32, handle: Handle) -> u32 {
        let descriptor = self.clients.free_descriptor(client);
        self.clients.set(client, descriptor, Some(handle));
        descriptor
    }

    // Opens a node that is there.
    fn open_node(
        &mut self,
        client: u32,
        path: &Path,
        flags: OpenFlags,
        node: Id,
    ) -> Result<u32, AllocError> {
        let way = self.tree.way_of(self.alloc, path.names())?;
        let view = View::of(flags, self.tree.node(&node))?;
        self.tree.open(self.alloc, &node, flags);
        let handle = Handle::new(flags, node, way, view);
        Ok(self.hold(client, handle))
    }

    // Makes a file under the next serial, and opens it.
    fn open_new(
        &mut self,
        client: u32,
        path: &Path,
        flags: OpenFlags,
        mode: Mode,
    ) -> Result<u32, AllocError> {
        let way = self.tree.way_of(self.alloc, path.names())?;
        self.make(path, new_file(self.alloc, mode))?;
        let node = Id::new(self.serial);
        self.serial = self.serial.saturating_add(1);
        let handle = Handle::new(flags, node, way, View::Live);
        Ok(self.hold(client, handle))
    }

    /// Opens what is at a path under the lowest free descriptor, and makes a file where nothing is
    /// there and CREAT is set. A new file is not offered when the serials have run out.
    pub(crate) fn open(
        &mut self,
        client: u32,
        path: &Path,
        flags: OpenFlags,
        mode: u32,
    ) -> Result<Option<Reply>, AllocError> {
        if let Some(errno) = self.open_refusal(client, path, flags, mode)? {
            return Ok(Some(Reply::Refused(errno)));
        }
        if let Some(node) = self.tree.node_at(self.alloc, path.names())? {
            let descriptor = self.open_node(client, path, flags, node)?;
            return Ok(Some(Reply::Descriptor(descriptor)));
        }
        if self.serial == u64::MAX {
            return Ok(None);
        }
        match Mode::parse(mode) {
            Ok(mode) => {
                let descriptor = self.open_new(client, path, flags, mode)?;
                Ok(Some(Reply::Descriptor(descriptor)))
            }
            Err(errno) => Ok(Some(Reply::Refused(errno))),
        }
    }
}
