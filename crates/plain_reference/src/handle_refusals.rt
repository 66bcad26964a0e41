// Which calls by descriptor are refused, and by which number: for each call the first line that applies.

use crate::clients::Handle;
use crate::node::{Node, is_folder};
use crate::unwatched::Unwatched;
use ov_base::{Bytes, Errno};

/// The most bytes of one read or write.
const TRANSFER_MAX: u32 = 65_536;

fn can_read(handle: Option<&Handle>) -> bool {
    match handle {
        Some(handle) => handle.reads,
        None => false,
    }
}

fn read_line(handle: Option<&Handle>, node: Option<&Node>, count: u32) -> Option<Errno> {
    if handle.is_none() {
        return Some(Errno::EBADF);
    }
    if count > TRANSFER_MAX {
        return Some(Errno::EINVAL);
    }
    if is_folder(node) {
        return Some(Errno::EISDIR);
    }
    if !can_read(handle) {
        return Some(Errno::EBADF);
    }
    None
}

fn can_write(handle: Option<&Handle>) -> bool {
    match handle {
        Some(handle) => handle.writes,
        None => false,
    }
}

// The lines of a write that begins at a place, where a file has at most `limit` bytes.
fn write_line(limit: u64, handle: Option<&Handle>, at: u64, bytes: &[u8]) -> Option<Errno> {
    if handle.is_none() {
        return Some(Errno::EBADF);
    }
    if bytes.len() > TRANSFER_MAX as usize {
        return Some(Errno::EINVAL);
    }
    if !can_write(handle) {
        return Some(Errno::EBADF);
    }
    if bytes.len() > 0 && at >= limit {
        return Some(Errno::EFBIG);
    }
    None
}

fn truncate_line(limit: u64, handle: Option<&Handle>, size: u64) -> Option<Errno> {
    if handle.is_none() {
        return Some(Errno::EBADF);
    }
    if !can_write(handle) {
        return Some(Errno::EINVAL);
    }
    if size > limit {
        return Some(Errno::EFBIG);
    }
    None
}

fn list_line(handle: Option<&Handle>, node: Option<&Node>, count: u32) -> Option<Errno> {
    if handle.is_none() {
        return Some(Errno::EBADF);
    }
    if !is_folder(node) {
        return Some(Errno::ENOTDIR);
    }
    if count == 0 || count > 256 {
        return Some(Errno::EINVAL);
    }
    None
}

// The lines of a seek before its place is known.
fn seek_line(
    handle: Option<&Handle>,
    node: Option<&Node>,
    offset: i64,
    whence: u8,
) -> Option<Errno> {
    if handle.is_none() {
        return Some(Errno::EBADF);
    }
    if whence > 2 {
        return Some(Errno::EINVAL);
    }
    let is_start = offset.unsigned_abs() == 0 && whence == 0;
    if is_folder(node) && !is_start {
        return Some(Errno::EINVAL);
    }
    None
}

// The place so far from another, or why a seek doesn't lead there.
fn place_from(base: u64, offset: i64) -> Result<u64, Errno> {
    let place = i128::from(base) + i128::from(offset);
    if place > i128::from(i64::MAX) {
        return Err(Errno::EOVERFLOW);
    }
    if place < 0 {
        return Err(Errno::EINVAL);
    }
    Ok(place as u64)
}

impl Unwatched {
    pub(crate) fn read_refusal(&self, client: u32, descriptor: u32, count: u32) -> Option<Errno> {
        let handle = self.handle(client, descriptor);
        read_line(handle, self.handle_node(handle), count)
    }

    pub(crate) fn write_refusal(
        &self,
        client: u32,
        descriptor: u32,
        bytes: &Bytes,
    ) -> Option<Errno> {
        let handle = self.handle(client, descriptor);
        let at = self.write_place(handle);
        write_line(self.options.file_limit, handle, at, bytes.as_slice())
    }

    pub(crate) fn truncate_refusal(
        &self,
        client: u32,
        descriptor: u32,
        size: u64,
    ) -> Option<Errno> {
        let handle = self.handle(client, descriptor);
        truncate_line(self.options.file_limit, handle, size)
    }

    pub(crate) fn list_refusal(&self, client: u32, descriptor: u32, count: u32) -> Option<Errno> {
        let handle = self.handle(client, descriptor);
        list_line(handle, self.handle_node(handle), count)
    }

    /// The place that a seek leads to, or its refusal.
    pub(crate) fn sought(
        &self,
        client: u32,
        descriptor: u32,
        offset: i64,
        whence: u8,
    ) -> Result<u64, Errno> {
        let handle = self.handle(client, descriptor);
        if let Some(errno) = seek_line(handle, self.handle_node(handle), offset, whence) {
            return Err(errno);
        }
        place_from(self.seek_base(handle, whence), offset)
    }

    pub(crate) fn fstat_refusal(&self, client: u32, descriptor: u32) -> Option<Errno> {
        if self.handle(client, descriptor).is_none() {
            return Some(Errno::EBADF);
        }
        None
    }
}
