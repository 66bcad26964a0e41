// The inotify instance of one client.

use crate::answering::answer;
use crate::bits::IGNORED;
use crate::id::Id;
use crate::queue::Queue;
use crate::subject::Subject;
use crate::watch::Watch;
use ov_base::{Event, EventName, Notice};
use std::alloc::{AllocError, Global};

/// The most watch numbers that a client is given.
pub const WATCHES_MAX: u32 = 0x7fff_ffff;

/// The inotify instance of a client: the tags of its hooks by slot, its watches in the order of their numbers, how many numbers it was
/// given, and the notices that it hasn't read.
#[derive(Drop)]
pub struct Instance {
    pub client: u32,
    pub tags: Vec<u32>,
    watches: Vec<Watch>,
    pub armed: u32,
    queue: Queue,
}

// The tag of the hook in a slot; 0 where none is there.
fn tag_of(tags: &[u32], slot: u8) -> u32 {
    match tags.get(slot as usize) {
        Some(tag) => *tag,
        None => 0,
    }
}

// Asks the hook of a tag, and puts what it answers.
fn ask(tag: u32, event: &Event, queue: &mut Queue) {
    queue.put_answer(answer(tag, event));
}

// Asks what a subject asks at one watch of a client.
fn tell_watch(client: u32, tags: &[u32], watch: &Watch, queue: &mut Queue, subject: &Subject<'_>) {
    if !watch.is_reached(client, subject) {
        return;
    }
    let tag = tag_of(tags, watch.slot);
    let event = Event {
        watch: watch.number,
        bits: subject.bits,
        cookie: subject.cookie,
        name: subject.name.map(EventName::of),
    };
    ask(tag, &event, queue);
    if watch.once && subject.bits != IGNORED {
        let end = Event {
            watch: watch.number,
            bits: IGNORED,
            cookie: 0,
            name: None,
        };
        ask(tag, &end, queue);
    }
}

// Asks what a subject asks at each watch of a client.
fn tell_watches(
    client: u32,
    tags: &[u32],
    watches: &[Watch],
    queue: &mut Queue,
    subject: &Subject<'_>,
) {
    for watch in watches {
        tell_watch(client, tags, watch, queue, subject);
    }
}

// Replaces or adds to the masks of the watches on a node.
fn re_arm(watches: &mut [Watch], node: &Id, mask: u32) {
    for watch in watches.iter_mut() {
        watch.re_arm(node, mask);
    }
}

impl Instance {
    /// A client's instance as it begins.
    pub fn new(alloc: Global, client: u32, tags: Vec<u32>, queue: Queue) -> Instance {
        Instance {
            client,
            tags,
            watches: Vec::new(alloc),
            armed: 0,
            queue,
        }
    }

    /// Whether it has a watch of this number.
    pub fn has_watch(&self, number: i32) -> bool {
        self.watches.iter().any(|watch| watch.is_numbered(number))
    }

    /// The watch on a node.
    pub fn watch_on(&self, node: &Id) -> Option<&Watch> {
        self.watches.iter().find(|watch| watch.is_on(node))
    }

    /// Whether the slot is armed on another node, or the node through another slot.
    pub fn is_busy(&self, slot: u8, node: &Id) -> bool {
        self.watches.iter().any(|watch| {
            (!watch.is_on(node) && watch.slot == slot) || (watch.is_on(node) && watch.slot != slot)
        })
    }

    /// Arms a node through a slot: the watch that it has gets another mask, else it gets the next one. No node changes nothing.
    pub fn arm(&mut self, slot: u8, node: Option<Id>, mask: u32) -> Result<(), AllocError> {
        let Some(node) = node else {
            return Ok(());
        };
        if self.watch_on(&node).is_some() {
            re_arm(self.watches.as_mut_slice(), &node, mask);
            return Ok(());
        }
        let number = self.armed.saturating_add(1);
        self.watches.push(Watch::new(number, slot, node, mask))?;
        self.armed = number;
        Ok(())
    }

    /// The first unread notices, at most so many.
    pub fn first(&self, alloc: Global, count: u32) -> Result<Vec<Notice>, AllocError> {
        self.queue.first(alloc, count)
    }

    /// Takes the first unread notices out, at most so many, where it is of a client.
    pub fn drop_first_of(&mut self, client: u32, count: u32) {
        if self.client == client {
            self.queue.drop_first(count);
        }
    }

    /// Hears a subject: the hooks of the watches that it reaches are asked, and those that end with it go.
    pub fn hear(&mut self, subject: &Subject<'_>) {
        tell_watches(
            self.client,
            self.tags.as_slice(),
            self.watches.as_slice(),
            &mut self.queue,
            subject,
        );
        let client = self.client;
        self.watches
            .retain(|watch| !watch.is_ended(client, subject));
    }
}
