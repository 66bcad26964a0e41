// What a client's handles are on, by number.
ghost use Rattle.std.specs.Prelude.{◌≡◌, ◌<◌, None, Some, IfOk, length, map, count_by, replicate, slice_set, option_copied, option_map};
ghost use Rattle.std.specs.List.{list_any};
ghost use Rattle.open_handles.specs.Descriptors.{opened};
ghost use Rattle.open_handles.specs.TrackedHandles.{came_by, free_table, re_way_of, same_way, slot_came_by, slot_is_on};

use crate::descriptors::DESCRIPTORS_MAX;
use ov_base::EventName;
use std::alloc::{AllocError, Global};
use std::marker::Model;

/// The way by which an object was opened: the number of its directory, and its name there.
#[derive(Clone, Copy)]
pub struct Way {
    pub directory: u64,
    pub name: EventName,
}

impl Way {
    // Whether another way has the same directory and name.
    fn is(&self, other: &Way) -> bool
        ensures { result ≡ same_way self.now other.now }
    {
        self.directory == other.directory && self.name.as_bytes() == other.name.as_bytes()
    }
}

/// What an open handle is on, by its number, and the way by which it was opened; the root has none.
#[derive(Clone, Copy)]
pub struct TrackedHandle {
    pub object: u64,
    pub way: Option<Way>,
}

impl TrackedHandle {
    // Whether the handle is on an object and was opened by exactly this way.
    fn came_by(&self, object: u64, way: &Way) -> bool
        ensures { result ≡ came_by object way.now self.now }
    {
        match &self.way {
            Some(own) => object == self.object && own.is(way),
            None => false,
        }
    }
}

// An attached client, and a slot for each of its descriptors.
#[derive(Drop)]
pub(crate) struct TrackedClient {
    number: u64,
    slots: Vec<Option<TrackedHandle>>,
}

impl Model for TrackedClient {
    ghost use Rattle.open_handles.specs.TrackedHandles.{TrackedTable};

    ghost Value = { TrackedTable };

    ghost view = { λ k. record { client = k.number; slots = k.slots.items } };
}

impl TrackedClient {
    // A client with nothing open. All memory for its handles is taken here.
    pub(crate) fn new(alloc: Global, number: u64) -> Result<TrackedClient, AllocError>
        ensures { IfOk result (λ client. client ≡ free_table number) }
    {
        let slots = free_slots(alloc, DESCRIPTORS_MAX)?;
        Ok(TrackedClient { number, slots })
    }

    // The number of the client.
    pub(crate) fn number(&self) -> u64
        ensures { result ≡ self.now.client }
    {
        self.number
    }

    // What a descriptor is on.
    pub(crate) fn get(&self, descriptor: u32) -> Option<&TrackedHandle>
        ensures { option_copied result ≡ opened self.now.slots descriptor }
    {
        match self.slots.get(descriptor as usize) {
            Some(Some(handle)) => Some(handle),
            _ => None,
        }
    }

    // Tells what a descriptor is on. It takes no memory.
    pub(crate) fn set(&mut self, descriptor: u32, handle: TrackedHandle)
        requires { descriptor < length self.old.slots }
        ensures { self.new ≡ record self.old { slots = slice_set self.old.slots descriptor (Some handle) } }
    {
        self.slots[descriptor as usize] = Some(handle);
    }

    // Takes out what a descriptor is on.
    pub(crate) fn take(&mut self, descriptor: u32) -> Option<TrackedHandle>
        ensures value { result ≡ opened self.old.slots descriptor }
        ensures slot { self.new ≡ record self.old { slots = slice_set self.old.slots descriptor None } }
    {
        let slot = descriptor as usize;
        if slot < self.slots.len() {
            self.slots[slot].take()
        } else {
            None
        }
    }

    // Whether a handle is on an object.
    pub(crate) fn is_on(&self, object: u64) -> bool
        ensures { result ≡ list_any (slot_is_on object) self.now.slots }
    {
        self.slots.iter().any(|slot| is_on(slot, object))
    }

    // How many handles are on an object by exactly this way.
    pub(crate) fn count_by(&self, object: u64, way: &Way) -> usize
        ensures { result ≡ count_by (slot_came_by object way.now) self.now.slots }
    {
        let mut count = 0;
        for slot in self.slots.iter() {
            if came_by(slot, object, way) {
                count += 1;
            }
        }
        count
    }

    // Each handle on an object by exactly one way has another one. It takes no memory.
    pub(crate) fn re_way(&mut self, object: u64, from: &Way, to: &Way)
        ensures { self.new ≡ record self.old { slots = map (option_map (re_way_of object from.now to.now)) self.old.slots } }
    {
        for slot in self.slots.iter_mut() {
            re_way(slot, object, from, to);
        }
    }
}

// Slots that are all free.
fn free_slots<T: Drop>(alloc: Global, count: usize) -> Result<Vec<Option<T>>, AllocError>
    ensures { IfOk result (λ slots. slots.items ≡ replicate count None) }
{
    let mut slots = Vec::with_capacity(alloc, count)?;
    for _ in 0..count {
        slots.push_reserved(None);
    }
    Ok(slots)
}

// Whether a slot's handle is on an object.
fn is_on(slot: &Option<TrackedHandle>, object: u64) -> bool
    ensures { result ≡ slot_is_on object slot.now }
{
    match slot {
        Some(handle) => object == handle.object,
        None => false,
    }
}

// Whether a slot's handle is on an object by exactly this way.
fn came_by(slot: &Option<TrackedHandle>, object: u64, way: &Way) -> bool
    ensures { result ≡ slot_came_by object way.now slot.now }
{
    match slot {
        Some(handle) => handle.came_by(object, way),
        None => false,
    }
}

// A slot's handle, if it is on an object by exactly one way, has another one.
fn re_way(slot: &mut Option<TrackedHandle>, object: u64, from: &Way, to: &Way)
    ensures { slot.new ≡ option_map (re_way_of object from.now to.now) slot.old }
{
    if let Some(handle) = slot {
        if handle.came_by(object, from) {
            handle.way = Some(*to);
        }
    }
}
