// One watch of a client.

use crate::bits::{EVENTS, IGNORED, MASK_ADD, ONESHOT};
use crate::id::Id;
use crate::subject::{Aim, Subject};

/// A watch of a client: its number, the slot whose hook answers, its node, the events it asks for, and whether it ends with the first.
#[derive(Drop)]
pub struct Watch {
    pub number: u32,
    pub slot: u8,
    node: Id,
    mask: u32,
    pub once: bool,
}

/// The number of a watch as notices and replies have it.
pub fn signed(number: u32) -> i32 {
    i32::try_from(number).unwrap_or(i32::MAX)
}

impl Watch {
    /// A watch with this number, of the events and the end that a mask asks for.
    pub fn new(number: u32, slot: u8, node: Id, mask: u32) -> Watch {
        Watch {
            number,
            slot,
            node,
            mask: mask & EVENTS,
            once: mask & ONESHOT != 0,
        }
    }

    /// Whether the watch is on a node.
    pub fn is_on(&self, node: &Id) -> bool {
        node.is(&self.node)
    }

    // Replaces the mask, or adds to it.
    fn re_mask(&mut self, mask: u32) {
        if mask & MASK_ADD != 0 {
            self.mask |= mask & EVENTS;
            self.once = self.once || mask & ONESHOT != 0;
        } else {
            self.mask = mask & EVENTS;
            self.once = mask & ONESHOT != 0;
        }
    }

    /// Replaces the mask, or adds to it, where the watch is on a node.
    pub fn re_arm(&mut self, node: &Id, mask: u32) {
        if self.is_on(node) {
            self.re_mask(mask);
        }
    }

    /// Whether the watch has this number.
    pub fn is_numbered(&self, number: i32) -> bool {
        i64::from(number) == i64::from(self.number)
    }

    // Whether a subject is for this watch of a client.
    fn is_aimed(&self, client: u32, aim: Aim<'_>) -> bool {
        match aim {
            Aim::On(node) => self.is_on(node),
            Aim::Only(other, number) => client == other && self.is_numbered(number),
        }
    }

    /// Whether a subject reaches this watch of a client.
    pub fn is_reached(&self, client: u32, subject: &Subject<'_>) -> bool {
        self.is_aimed(client, subject.aim)
            && (subject.bits == IGNORED || subject.bits & self.mask != 0)
    }

    /// Whether this watch of a client ends with a subject.
    pub fn is_ended(&self, client: u32, subject: &Subject<'_>) -> bool {
        self.is_reached(client, subject) && (self.once || subject.bits == IGNORED)
    }
}
