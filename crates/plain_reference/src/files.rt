// The calls on the bytes of files.

use crate::clients::open_handle;
use crate::handles::place_of;
use crate::node::bytes_in;
use crate::unwatched::Unwatched;
use ov_base::{Bytes, Reply};
use std::alloc::{AllocError, Global};

/// What stands from a place on, at most so much.
pub fn part<T>(all: &[T], place: u64, count: u32) -> &[T] {
    let start = all.len().min(place as usize);
    let rest = &all[start..];
    &rest[..rest.len().min(count as usize)]
}

// Bytes cut or filled with zeros to a length.
fn sized(alloc: Global, bytes: &[u8], size: usize) -> Result<Vec<u8>, AllocError> {
    let mut all = Vec::from_slice(alloc, bytes)?;
    all.resize(size, 0)?;
    Ok(all)
}

// Bytes after a write at a place, with zeros between where it is past the end.
fn written(alloc: Global, bytes: &[u8], at: usize, new: &[u8]) -> Result<Vec<u8>, AllocError> {
    let mut all = sized(alloc, bytes, at)?;
    all.extend_from_slice(new)?;
    let end = bytes.len().min(at.saturating_add(new.len()));
    all.extend_from_slice(&bytes[end..])?;
    Ok(all)
}

// What of a write fits into a file of at most `limit` bytes.
fn fitting(limit: u64, at: u64, bytes: &[u8]) -> &[u8] {
    let room = limit.saturating_sub(at) as usize;
    &bytes[..bytes.len().min(room)]
}

impl Unwatched {
    /// Reads the next bytes of a file's handle, at most so many.
    pub(crate) fn read(
        &mut self,
        client: u32,
        descriptor: u32,
        count: u32,
    ) -> Result<Reply, AllocError> {
        if let Some(errno) = self.read_refusal(client, descriptor, count) {
            return Ok(Reply::Refused(errno));
        }
        let handle = self.handle(client, descriptor);
        let place = place_of(handle);
        let read = part(self.bytes_read(handle), place, count);
        let end = place.saturating_add(read.len() as u64);
        let copy = Bytes::from_slice(self.alloc, read)?;
        self.clients.move_to(client, descriptor, end, false);
        Ok(Reply::Read(copy))
    }

    // Gives the file of a client's descriptor other bytes.
    fn fill(&mut self, client: u32, descriptor: u32, bytes: Vec<u8>) {
        if let Some(handle) = open_handle(self.clients.as_slice(), client, descriptor) {
            self.tree.fill(&handle.node, Bytes::from_vec(bytes));
        }
    }

    /// Writes bytes to a file at the handle's place, or at the end with APPEND, as many as fit.
    pub(crate) fn write(
        &mut self,
        client: u32,
        descriptor: u32,
        bytes: &Bytes,
    ) -> Result<Reply, AllocError> {
        if let Some(errno) = self.write_refusal(client, descriptor, bytes) {
            return Ok(Reply::Refused(errno));
        }
        if bytes.as_slice().is_empty() {
            return Ok(Reply::Written(0));
        }
        let handle = self.handle(client, descriptor);
        let at = self.write_place(handle);
        let new = fitting(self.options.file_limit, at, bytes.as_slice());
        let old = bytes_in(self.handle_node(handle));
        let all = written(self.alloc, old, at as usize, new)?;
        self.fill(client, descriptor, all);
        let end = at.saturating_add(new.len() as u64);
        self.clients.move_to(client, descriptor, end, false);
        Ok(Reply::Written(u32::try_from(new.len()).unwrap_or(u32::MAX)))
    }

    /// Cuts a file to a length, or fills it with zeros up to it.
    pub(crate) fn truncate(
        &mut self,
        client: u32,
        descriptor: u32,
        size: u64,
    ) -> Result<Reply, AllocError> {
        if let Some(errno) = self.truncate_refusal(client, descriptor, size) {
            return Ok(Reply::Refused(errno));
        }
        let old = bytes_in(self.handle_node(self.handle(client, descriptor)));
        let all = sized(self.alloc, old, size as usize)?;
        self.fill(client, descriptor, all);
        Ok(Reply::Done)
    }
}
