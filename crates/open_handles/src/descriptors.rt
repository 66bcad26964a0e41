// The descriptors of a client.
ghost use Rattle.std.specs.Prelude.{◌≡◌, ◌≤◌, ◌<◌, [], Some, None, true, Ok, OnOk, IfSome, IfNone, ℕ, option_copied, is_some, length, take, IsSome, vec_len};
ghost use Rattle.open_handles.specs.Descriptors.{opened, SetsSlot, IsFull, IsLowestFree};

use crate::handle::{Handle, OpenDirectory};
use dir_listing::Cursor;
use ov_base::NameList;
use std::alloc::{AllocError, Global};

/// The most descriptors of a client.
pub const DESCRIPTORS_MAX: usize = 64;

/// The descriptors of a client by number; a slot of none is free.
#[derive(Drop)]
pub struct Descriptors {
    slots: Vec<Option<Handle>>,
    ghost few: { vec_len slots ≤ 64 },
}

impl Descriptors {
    ghost use Rattle.open_handles.specs.Listings.{HasRoom, ChangesSlot, Opens, GivesNames, with_listing, with_place, open_directory, open_file};

    /// No descriptors.
    pub fn new(alloc: Global) -> Descriptors
        ensures { result.slots.items ≡ [] }
    {
        Descriptors {
            slots: Vec::new(alloc),
        }
    }

    /// The lowest free descriptor, unless all 64 are open.
    pub fn lowest_free(&self) -> Option<u32>
        ensures free { IfSome result (IsLowestFree self.now.slots.items) }
        ensures full { IfNone result (IsFull self.now.slots.items) }
    {
        let slot = first_free(self.slots.as_slice());
        if slot < DESCRIPTORS_MAX {
            Some(slot as u32)
        } else {
            None
        }
    }

    /// Opens a handle under the lowest free descriptor. An allocation failure changes nothing.
    pub fn open(&mut self, descriptor: u32, handle: Handle) -> Result<(), AllocError>
        requires { IsLowestFree self.old.slots.items descriptor }
        ensures { Opens self.old.slots.items self.new.slots.items descriptor handle result }
    {
        let slot = descriptor as usize;
        if slot < self.slots.len() {
            self.slots[slot] = Some(handle);
        } else {
            self.slots.push(Some(handle))?;
        }
        Ok(())
    }

    /// Makes room for a handle under the lowest free descriptor, so that the next `open_reserved`
    /// takes no memory. Nothing is opened.
    pub fn reserve(&mut self, descriptor: u32) -> Result<(), AllocError>
        requires { IsLowestFree self.old.slots.items descriptor }
        ensures same { self.new.slots.items ≡ self.old.slots.items }
        ensures room { OnOk result (HasRoom self.new descriptor) }
    {
        if descriptor as usize == self.slots.len() {
            self.slots.reserve(1)?;
        }
        Ok(())
    }

    /// Opens a handle under the lowest free descriptor, for which there is room.
    pub fn open_reserved(&mut self, descriptor: u32, handle: Handle)
        requires { HasRoom self.old descriptor }
        ensures { SetsSlot self.old.slots.items self.new.slots.items descriptor (Some handle) }
    {
        let slot = descriptor as usize;
        if slot < self.slots.len() {
            self.slots[slot] = Some(handle);
        } else {
            self.slots.push_reserved(Some(handle));
        }
    }

    /// What stands open under a descriptor.
    pub fn get(&self, descriptor: u32) -> Option<&Handle>
        ensures { option_copied result ≡ opened self.now.slots.items descriptor }
    {
        match self.slots.get(descriptor as usize) {
            Some(Some(handle)) => Some(handle),
            _ => None,
        }
    }

    /// The directory to which a descriptor leads, if it leads to one.
    pub fn directory(&self, descriptor: u32) -> Option<&OpenDirectory>
        ensures { option_copied result ≡ open_directory self.now.slots.items descriptor }
    {
        match self.get(descriptor) {
            Some(Handle::Directory(directory)) => Some(directory),
            _ => None,
        }
    }

    /// Keeps a listing of an open directory, in place of one that it has.
    pub fn keep_listing(&mut self, descriptor: u32, listing: Cursor)
        requires { IsSome (open_directory self.old.slots.items descriptor) }
        ensures { ChangesSlot self.old.slots.items self.new.slots.items descriptor (with_listing listing) }
    {
        if let Some(Handle::Directory(directory)) = &mut self.slots[descriptor as usize] {
            directory.listing = listing;
        }
    }

    /// Lets the listing of an open directory go.
    pub fn rewind(&mut self, descriptor: u32)
        requires { IsSome (open_directory self.old.slots.items descriptor) }
        ensures { ChangesSlot self.old.slots.items self.new.slots.items descriptor (with_listing None) }
    {
        if let Some(Handle::Directory(directory)) = &mut self.slots[descriptor as usize] {
            directory.listing.rewind();
        }
    }

    /// Gives the next names of the listing of an open directory, at most so many. An allocation
    /// failure gives none and changes nothing.
    pub fn next_names(
        &mut self,
        alloc: Global,
        descriptor: u32,
        count: usize,
    ) -> Result<NameList, AllocError>
        requires { IsSome (open_directory self.old.slots.items descriptor) }
        ensures { GivesNames self.old.slots.items self.new.slots.items descriptor count result }
    {
        match &mut self.slots[descriptor as usize] {
            Some(Handle::Directory(directory)) => directory.next_names(alloc, count),
            _ => Ok(NameList::new(alloc)),
        }
    }

    /// Moves the place of an open file.
    pub fn move_to(&mut self, descriptor: u32, place: u64)
        requires { IsSome (open_file self.old.slots.items descriptor) }
        ensures { ChangesSlot self.old.slots.items self.new.slots.items descriptor (with_place place) }
    {
        if let Some(Handle::File(file)) = &mut self.slots[descriptor as usize] {
            file.place = place;
        }
    }

    /// Takes what stands open under a descriptor out, which is free then. Where nothing
    /// does, nothing changes.
    pub fn take(&mut self, descriptor: u32) -> Option<Handle>
        ensures value { result ≡ opened self.old.slots.items descriptor }
        ensures slot { SetsSlot self.old.slots.items self.new.slots.items descriptor None }
        ensures none { IfNone result (self.new.slots.items ≡ self.old.slots.items) }
    {
        let slot = descriptor as usize;
        if slot < self.slots.len() {
            self.slots[slot].take()
        } else {
            None
        }
    }
}

// The first slot of none, or how many slots there are.
fn first_free(slots: &[Option<Handle>]) -> usize
    ensures within { result ≤ length slots.now }
    ensures free { opened slots.now result ≡ None }
    ensures lowest { (k : ℕ) → k < result → is_some (opened slots.now k) ≡ true }
{
    for (k, slot) in slots.iter().enumerate() {
        if slot.is_none() {
            return k;
        }
    }
    slots.len()
}
