// The calls on the handles of files and of directories.

use crate::clients::{Handle, open_handle};
use crate::node::{Node, bytes_in, is_folder};
use crate::unwatched::Unwatched;
use ov_base::Reply;

/// The place of a handle.
pub fn place_of(handle: Option<&Handle>) -> u64 {
    match handle {
        Some(handle) => handle.place,
        None => 0,
    }
}

impl Unwatched {
    /// The open handle of a client's descriptor.
    pub(crate) fn handle(&self, client: u32, descriptor: u32) -> Option<&Handle> {
        open_handle(self.clients.as_slice(), client, descriptor)
    }

    /// The node of a handle.
    pub(crate) fn handle_node(&self, handle: Option<&Handle>) -> Option<&Node> {
        match handle {
            Some(handle) => self.tree.node(&handle.node),
            None => None,
        }
    }

    /// The bytes that a handle reads.
    pub(crate) fn bytes_read<'a>(&'a self, handle: Option<&'a Handle>) -> &'a [u8] {
        match handle {
            Some(handle) => handle.view.bytes(self.tree.node(&handle.node)),
            None => &[],
        }
    }

    /// Where a write begins.
    pub(crate) fn write_place(&self, handle: Option<&Handle>) -> u64 {
        let Some(handle) = handle else {
            return 0;
        };
        if handle.append {
            return bytes_in(self.tree.node(&handle.node)).len() as u64;
        }
        handle.place
    }

    /// From where a seek counts.
    pub(crate) fn seek_base(&self, handle: Option<&Handle>, whence: u8) -> u64 {
        match whence {
            0 => 0,
            1 => place_of(handle),
            _ => self.bytes_read(handle).len() as u64,
        }
    }

    // What fstat(2) shows of a handle.
    fn status_of(&self, handle: Option<&Handle>) -> Reply {
        match handle {
            Some(handle) => handle.view.stat(self.tree.node(&handle.node)),
            None => Reply::Done,
        }
    }

    pub(crate) fn fstat(&self, client: u32, descriptor: u32) -> Reply {
        if let Some(errno) = self.fstat_refusal(client, descriptor) {
            return Reply::Refused(errno);
        }
        self.status_of(self.handle(client, descriptor))
    }

    /// Moves a handle; a directory's goes back to its start alone, and forgets its listing.
    pub(crate) fn seek(&mut self, client: u32, descriptor: u32, offset: i64, whence: u8) -> Reply {
        match self.sought(client, descriptor, offset, whence) {
            Err(errno) => Reply::Refused(errno),
            Ok(place) => {
                let is_directory = is_folder(self.handle_node(self.handle(client, descriptor)));
                self.clients
                    .move_to(client, descriptor, place, is_directory);
                Reply::Place(place)
            }
        }
    }

    /// Frees an open descriptor, and lets go of its node where nothing else keeps it. Gives the handle.
    pub(crate) fn release(&mut self, client: u32, descriptor: u32) -> Option<Handle> {
        let handle = self.clients.take(client, descriptor);
        if let Some(closed) = &handle {
            self.settle(&closed.node);
        }
        handle
    }
}
