// Which opens are refused, and by which number: the first line that applies.

use crate::clients::lowest_free;
use crate::node::{Node, is_folder, is_link};
use crate::refusals::{bad_mode, is_found, walked, when};
use crate::unwatched::Unwatched;
use crate::walk::Look;
use ov_base::{Errno, OpenFlags, Path};
use std::alloc::AllocError;

fn bad_flags(flags: OpenFlags) -> bool {
    (!flags.reads && !flags.writes)
        || flags.unknown
        || (flags.exclusive && !flags.create)
        || (flags.truncate && !flags.writes)
        || (flags.directory && flags.create)
}

fn open_line(
    flags: OpenFlags,
    mode: u32,
    look: &Look,
    node: Option<&Node>,
    free: Option<usize>,
) -> Option<Errno> {
    if bad_flags(flags) {
        return Some(Errno::EINVAL);
    }
    if let Some(errno) = bad_mode(mode) {
        return Some(errno);
    }
    if let Some(errno) = walked(look) {
        return Some(errno);
    }
    if !is_found(look) && !flags.create {
        return Some(Errno::ENOENT);
    }
    open_there(flags, look, node, free)
}

// The lines of an open whose path is walked and has what it needs.
fn open_there(
    flags: OpenFlags,
    look: &Look,
    node: Option<&Node>,
    free: Option<usize>,
) -> Option<Errno> {
    if is_found(look) && flags.create && flags.exclusive {
        return Some(Errno::EEXIST);
    }
    if is_link(node) {
        return Some(Errno::ELOOP);
    }
    if is_found(look) && flags.directory && !is_folder(node) {
        return Some(Errno::ENOTDIR);
    }
    if is_folder(node) && (flags.writes || flags.create) {
        return Some(Errno::EISDIR);
    }
    when(free.is_none(), Errno::EMFILE)
}

// Whether an open writes: it has write access, or makes what isn't there.
fn writes(flags: OpenFlags, look: &Look) -> bool {
    flags.writes || !is_found(look)
}

impl Unwatched {
    pub(crate) fn open_refusal(
        &self,
        client: u32,
        path: &Path,
        flags: OpenFlags,
        mode: u32,
    ) -> Result<Option<Errno>, AllocError> {
        let look = self.look(path)?;
        let node = self.tree.node_found(&look);
        let free = lowest_free(self.clients.as_slice(), client);
        let lines = open_line(flags, mode, &look, node, free);
        Ok(self.or_read_only(lines, writes(flags, &look)))
    }
}
