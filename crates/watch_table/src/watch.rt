// One watch of a client.
ghost use Rattle.std.specs.Prelude.{◌≡◌, bit_and};
ghost use Rattle.ov_base.specs.declared.node_id.NodeId.TheVariants.{New};
ghost use Rattle.plain_model.specs.Tree.{same_id};
ghost use Rattle.plain_model.specs.Watching as plain;
ghost use Rattle.watch_table.specs.Listening.{rearmed};
ghost use Rattle.watch_table.specs.Subjects.{subject_of};

use crate::subject::{Aim, IGNORED, Subject};
use std::marker::Model;

/// The bits of the events that a watch may ask for.
pub(crate) const EVENTS: u32 = 0xfff;

const MASK_ADD: u32 = 0x2000_0000;

const ONESHOT: u32 = 0x8000_0000;

/// A watch of a client: its number, the slot whose callback answers, the number of its object, the events it asks for, and whether it
/// ends with the first.
#[derive(Drop)]
pub struct Watch {
    number: u32,
    slot: u32,
    object: u64,
    mask: u32,
    once: bool,
}

impl Model for Watch {
    ghost use Rattle.ov_base.specs.declared.node_id.NodeId.TheVariants.{New};
    ghost use Rattle.plain_model.specs.Watching as plain;

    ghost Value = { plain.Watch };

    ghost view = { λ w. record { number = w.number; slot = w.slot; node = New w.object; mask = w.mask; once = w.once } };
}

impl Watch {
    /// A watch with this number, of the events and the end that a mask asks for.
    pub(crate) fn new(number: u32, slot: u32, object: u64, mask: u32) -> Watch
        ensures { result ≡ record { number = number; slot = slot; node = New object; mask = bit_and mask plain.EVENTS; once = plain.has_bit mask plain.ONESHOT } }
    {
        Watch {
            number,
            slot,
            object,
            mask: mask & EVENTS,
            once: mask & ONESHOT != 0,
        }
    }

    /// The watch's number, by which its client knows it.
    pub fn number(&self) -> u32
        ensures { result ≡ self.now.number }
    {
        self.number
    }

    /// The number of the object that is watched.
    pub fn object(&self) -> u64
        ensures { self.now.node ≡ New result }
    {
        self.object
    }

    pub(crate) fn slot(&self) -> u32
        ensures { result ≡ self.now.slot }
    {
        self.slot
    }

    pub(crate) fn is_once(&self) -> bool
        ensures { result ≡ self.now.once }
    {
        self.once
    }

    /// Whether the watch is on the object of this number.
    pub fn is_on(&self, object: u64) -> bool
        ensures { result ≡ same_id (New object) self.now.node }
    {
        self.object == object
    }

    // Replaces the mask, or adds to it, where the watch is on this object.
    pub(crate) fn rearm_on(&mut self, object: u64, mask: u32)
        ensures { self.new ≡ rearmed (New object) mask self.old }
    {
        if !self.is_on(object) {
            return;
        }
        if mask & MASK_ADD != 0 {
            self.mask |= mask & EVENTS;
            self.once = self.once || mask & ONESHOT != 0;
        } else {
            self.mask = mask & EVENTS;
            self.once = mask & ONESHOT != 0;
        }
    }

    /// Whether this is the client's watch of a number.
    pub fn is_numbered(&self, number: i32) -> bool
        ensures { result ≡ plain.is_numbered number self.now }
    {
        i64::from(number) == i64::from(self.number)
    }

    // Whether a subject reaches this watch of a client.
    pub(crate) fn is_reached(&self, client: u64, subject: &Subject<'_>) -> bool
        ensures { result ≡ plain.reaches client (subject_of subject.now) self.now }
    {
        let is_aimed = match subject.aim {
            Aim::On(object) => self.is_on(object),
            Aim::Only(other, number) => client == other && self.is_numbered(number),
        };
        is_aimed && (subject.bits == IGNORED || subject.bits & self.mask != 0)
    }

    // Whether a subject ends this watch of a client.
    pub(crate) fn is_ended(&self, client: u64, subject: &Subject<'_>) -> bool
        ensures { result ≡ plain.ends client (subject_of subject.now) self.now }
    {
        self.is_reached(client, subject) && (self.once || subject.bits == IGNORED)
    }
}
