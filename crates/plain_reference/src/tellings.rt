// Whom each call tells that is not refused, as far as that is known before its change.

use crate::bits::{
    ACCESS, ATTRIB, CREATE, DELETE, ISDIR, MODIFY, MOVE_SELF, MOVED_FROM, MOVED_TO, OPEN,
};
use crate::files::part;
use crate::handles::place_of;
use crate::id::Id;
use crate::node::{Node, is_folder};
use crate::telling::Telling;
use crate::unwatched::Unwatched;
use ov_base::{Bytes, Call, Name, OpenFlags, Path};
use std::alloc::AllocError;

// Where a path leads: the way in to it, and what is there.
#[derive(Drop)]
struct Place {
    way: Option<(Id, Name)>,
    node: Option<Id>,
}

/// Bits, with ISDIR where the object is a directory.
pub fn marked(node: Option<&Node>, bits: u32) -> u32 {
    if is_folder(node) { bits | ISDIR } else { bits }
}

// The cookie of the next rename, after so many.
fn next_cookie(renames: u64) -> u32 {
    (renames % u64::from(u32::MAX)) as u32 + 1
}

impl Unwatched {
    fn place(&self, path: &Path) -> Result<Place, AllocError> {
        Ok(Place {
            way: self.tree.way_of(self.alloc, path.names())?,
            node: self.tree.node_at(self.alloc, path.names())?,
        })
    }

    // Tells the directory of the way in to a path, with the name.
    fn tell_way(
        &self,
        path: &Path,
        bits: u32,
        cookie: u32,
        telling: &mut Telling,
    ) -> Result<(), AllocError> {
        let way = self.tree.way_of(self.alloc, path.names())?;
        telling.by_way(&way, bits, cookie)
    }

    // Tells what is at a path, without a name.
    fn tell_node(&self, path: &Path, bits: u32, telling: &mut Telling) -> Result<(), AllocError> {
        let node = self.tree.node_at(self.alloc, path.names())?;
        telling.of_node(node.as_ref(), bits)
    }

    // A change of attributes.
    fn tell_attributes(&self, path: &Path, telling: &mut Telling) -> Result<(), AllocError> {
        let bits = marked(self.node(path)?, ATTRIB);
        let place = self.place(path)?;
        telling.both(&place.way, place.node.as_ref(), bits)
    }

    fn tell_open(
        &self,
        path: &Path,
        flags: OpenFlags,
        telling: &mut Telling,
    ) -> Result<(), AllocError> {
        let place = self.place(path)?;
        match &place.node {
            Some(node) => self.tell_open_of(&place.way, node, flags, telling),
            None => self.tell_open_new(&place.way, telling),
        }
    }

    // An open of a node that is there, by this way in.
    fn tell_open_of(
        &self,
        way: &Option<(Id, Name)>,
        node: &Id,
        flags: OpenFlags,
        telling: &mut Telling,
    ) -> Result<(), AllocError> {
        if flags.truncate {
            telling.both(way, Some(node), MODIFY)?;
        }
        telling.both(way, Some(node), marked(self.tree.node(node), OPEN))
    }

    // An open that makes a file by this way in.
    fn tell_open_new(
        &self,
        way: &Option<(Id, Name)>,
        telling: &mut Telling,
    ) -> Result<(), AllocError> {
        telling.by_way(way, CREATE, 0)?;
        let node = Id::new(self.serial);
        telling.both(way, Some(&node), OPEN)
    }

    fn tell_unlink(&self, path: &Path, telling: &mut Telling) -> Result<(), AllocError> {
        self.tell_way(path, DELETE, 0, telling)?;
        self.tell_node(path, ATTRIB, telling)?;
        telling.ends = self.tree.node_at(self.alloc, path.names())?;
        Ok(())
    }

    fn tell_rmdir(&self, path: &Path, telling: &mut Telling) -> Result<(), AllocError> {
        self.tell_way(path, DELETE | ISDIR, 0, telling)?;
        telling.ends = self.tree.node_at(self.alloc, path.names())?;
        Ok(())
    }

    fn tell_link(&self, old: &Path, new: &Path, telling: &mut Telling) -> Result<(), AllocError> {
        self.tell_way(new, CREATE, 0, telling)?;
        self.tell_node(old, ATTRIB, telling)
    }

    // A rename that moves something: both directories are told, what it replaces where that is no directory, and what moves.
    fn tell_move(&self, old: &Path, new: &Path, telling: &mut Telling) -> Result<(), AllocError> {
        let moved = self.node(old)?;
        let cookie = next_cookie(self.renames);
        self.tell_way(old, marked(moved, MOVED_FROM), cookie, telling)?;
        self.tell_way(new, marked(moved, MOVED_TO), cookie, telling)?;
        if !is_folder(self.node(new)?) {
            self.tell_node(new, ATTRIB, telling)?;
        }
        self.tell_node(old, MOVE_SELF, telling)?;
        telling.ends = self.tree.node_at(self.alloc, new.names())?;
        Ok(())
    }

    fn tell_rename(&self, old: &Path, new: &Path, telling: &mut Telling) -> Result<(), AllocError> {
        match self.moved(old, new)? {
            Some(_) => self.tell_move(old, new, telling),
            None => Ok(()),
        }
    }

    // An access to what a client's handle is open on.
    fn tell_handle(
        &self,
        client: u32,
        descriptor: u32,
        bits: u32,
        telling: &mut Telling,
    ) -> Result<(), AllocError> {
        match self.handle(client, descriptor) {
            Some(handle) => {
                let bits = marked(self.tree.node(&handle.node), bits);
                telling.both(&handle.way, Some(&handle.node), bits)
            }
            None => Ok(()),
        }
    }

    fn tell_read(
        &self,
        client: u32,
        descriptor: u32,
        count: u32,
        telling: &mut Telling,
    ) -> Result<(), AllocError> {
        let handle = self.handle(client, descriptor);
        if part(self.bytes_read(handle), place_of(handle), count).is_empty() {
            return Ok(());
        }
        self.tell_handle(client, descriptor, ACCESS, telling)
    }

    fn tell_write(
        &self,
        client: u32,
        descriptor: u32,
        bytes: &Bytes,
        telling: &mut Telling,
    ) -> Result<(), AllocError> {
        if bytes.as_slice().is_empty() {
            return Ok(());
        }
        self.tell_handle(client, descriptor, MODIFY, telling)
    }

    // Whom a call tells that is made without the watches, where it isn't refused.
    fn tell_call(&self, client: u32, call: &Call, telling: &mut Telling) -> Result<(), AllocError> {
        match call {
            Call::Chmod { path, .. }
            | Call::Chown { path, .. }
            | Call::SetAttribute { path, .. }
            | Call::DeleteAttribute { path, .. } => self.tell_attributes(path, telling),
            Call::Mkdir { path, .. } => self.tell_way(path, CREATE | ISDIR, 0, telling),
            Call::Symlink { path, .. } => self.tell_way(path, CREATE, 0, telling),
            Call::Open { path, flags, .. } => self.tell_open(path, *flags, telling),
            Call::Unlink { path } => self.tell_unlink(path, telling),
            Call::Rmdir { path } => self.tell_rmdir(path, telling),
            Call::Hardlink { old, new } => self.tell_link(old, new, telling),
            Call::Rename { old, new } => self.tell_rename(old, new, telling),
            Call::Read { descriptor, count } => self.tell_read(
                client,
                *descriptor,
                *count,
                telling,
            ),
            Call::Write { descriptor, bytes } => {
                self.tell_write(client, *descriptor, bytes, telling)
            }
            Call::Truncate { descriptor, .. } => {
                self.tell_handle(client, *descriptor, MODIFY, telling)
            }
            _ => Ok(()),
        }
    }

    /// Whom a call tells that is made without the watches, where it isn't refused.
    pub(crate) fn telling(&self, client: u32, call: &Call) -> Result<Telling, AllocError> {
        let mut telling = Telling::new(self.alloc);
        self.tell_call(client, call, &mut telling)?;
        Ok(telling)
    }
}
