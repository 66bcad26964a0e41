// The calls on watches.

use crate::bits::{EVENTS, IGNORED, ONLYDIR};
use crate::id::Id;
use crate::instance::{Instance, WATCHES_MAX};
use crate::node::{Node, is_folder, is_link};
use crate::reference::Reference;
use crate::refusals::{there, when};
use crate::subject::{Aim, Subject};
use crate::walk::Look;
use crate::watch::{Watch, signed};
use ov_base::{Errno, Notice, Notices, Path, Reply};
use std::alloc::{AllocError, Global};

// The most notices that are taken at a time.
const NOTICES: u32 = 65;

// All bits that arm takes.
const ARM_BITS: u32 = 0xa100_0fff;

fn is_bad_mask(mask: u32) -> bool {
    mask & EVENTS == 0 || mask & ARM_BITS != mask
}

// Where a walk leads.
fn node_at(look: &Look) -> Option<&Id> {
    match look {
        Look::Found(id) => Some(id),
        _ => None,
    }
}

fn hooks_of(instance: Option<&Instance>) -> usize {
    match instance {
        Some(instance) => instance.tags.len(),
        None => 0,
    }
}

fn watch_on<'a>(instance: Option<&'a Instance>, node: Option<&Id>) -> Option<&'a Watch> {
    instance?.watch_on(node?)
}

fn is_busy(instance: Option<&Instance>, slot: u8, node: Option<&Id>) -> bool {
    match (instance, node) {
        (Some(instance), Some(node)) => instance.is_busy(slot, node),
        _ => false,
    }
}

// Whether a client was given all watch numbers.
fn is_spent(instance: Option<&Instance>) -> bool {
    match instance {
        Some(instance) => instance.armed >= WATCHES_MAX,
        None => false,
    }
}

// The lines of arm on the client's watches.
fn watch_line(instance: Option<&Instance>, slot: u8, node: Option<&Id>) -> Option<Errno> {
    if is_busy(instance, slot, node) {
        return Some(Errno::EBUSY);
    }
    when(
        watch_on(instance, node).is_none() && is_spent(instance),
        Errno::ENOSPC,
    )
}

// The lines of arm, in their order.
fn arm_line(
    instance: Option<&Instance>,
    slot: u8,
    mask: u32,
    look: &Look,
    node: Option<&Node>,
) -> Option<Errno> {
    if slot as usize >= hooks_of(instance) || is_bad_mask(mask) {
        return Some(Errno::EINVAL);
    }
    if let Some(errno) = there(look) {
        return Some(errno);
    }
    if is_link(node) {
        return Some(Errno::ELOOP);
    }
    if mask & ONLYDIR != 0 && !is_folder(node) {
        return Some(Errno::ENOTDIR);
    }
    watch_line(instance, slot, node_at(look))
}

// The number of the watch on a node, or the next one.
fn number_for(instance: Option<&Instance>, node: Option<&Id>) -> i32 {
    if let Some(watch) = watch_on(instance, node) {
        return signed(watch.number);
    }
    match instance {
        Some(instance) => signed(instance.armed.saturating_add(1)),
        None => 1,
    }
}

// The first notices that a client hasn't read, at most so many.
fn first_unread(
    alloc: Global,
    instance: Option<&Instance>,
    count: u32,
) -> Result<Vec<Notice>, AllocError> {
    match instance {
        Some(instance) => instance.first(alloc, count),
        None => Ok(Vec::new(alloc)),
    }
}

impl Reference {
    fn arm_refusal(
        &self,
        client: u32,
        slot: u8,
        path: &Path,
        mask: u32,
    ) -> Result<Option<Errno>, AllocError> {
        let look = self.unwatched.look(path)?;
        let node = self.unwatched.tree.node_found(&look);
        Ok(arm_line(self.instances.get(client), slot, mask, &look, node))
    }

    /// Arms what is at a path through a slot of the client's hooks, and answers the watch's number.
    pub(crate) fn arm(
        &mut self,
        client: u32,
        slot: u8,
        path: &Path,
        mask: u32,
    ) -> Result<Reply, AllocError> {
        if let Some(errno) = self.arm_refusal(client, slot, path, mask)? {
            return Ok(Reply::Refused(errno));
        }
        let node = self
            .unwatched
            .tree
            .node_at(self.unwatched.alloc, path.names())?;
        let number = number_for(self.instances.get(client), node.as_ref());
        self.instances.arm(client, slot, node, mask)?;
        Ok(Reply::Watch(number))
    }

    fn disarm_refusal(&self, client: u32, number: i32) -> Option<Errno> {
        let has = match self.instances.get(client) {
            Some(instance) => instance.has_watch(number),
            None => false,
        };
        when(!has, Errno::EINVAL)
    }

    /// Ends a client's watch: its hook is asked of that.
    pub(crate) fn disarm(&mut self, client: u32, number: i32) -> Reply {
        if let Some(errno) = self.disarm_refusal(client, number) {
            return Reply::Refused(errno);
        }
        self.instances.tell(&Subject {
            aim: Aim::Only(client, number),
            bits: IGNORED,
            cookie: 0,
            name: None,
        });
        Reply::Done
    }

    fn notices_refusal(&self, client: u32, count: u32) -> Option<Errno> {
        when(count > NOTICES, Errno::EINVAL)
    }

    /// Takes the first unread notices of a client out, at most so many.
    pub(crate) fn notices(&mut self, client: u32, count: u32) -> Result<Reply, AllocError> {
        if let Some(errno) = self.notices_refusal(client, count) {
            return Ok(Reply::Refused(errno));
        }
        let first = first_unread(self.unwatched.alloc, self.instances.get(client), count)?;
        self.instances.drop_first(client, count);
        Ok(Reply::Unread(Notices::from_vec(first)))
    }
}
