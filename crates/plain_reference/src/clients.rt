// The clients and their open handles.

use crate::id::Id;
use crate::view::View;
use crate::ways::{Copies, same_way};
use ov_base::{Name, NameList, OpenFlags};
use std::alloc::{AllocError, Global};

/// The most descriptors of a client.
pub const DESCRIPTORS: usize = 64;

/// The most clients that are attached at a time.
pub const CLIENTS: usize = 64;

/// An open handle: its node, the flags of its `open`, its place in bytes or names, the directory and name by which it was opened,
/// what it sees, and the listing that it keeps.
#[derive(Drop)]
pub struct Handle {
    pub node: Id,
    pub reads: bool,
    pub writes: bool,
    pub append: bool,
    pub place: u64,
    pub way: Option<(Id, Name)>,
    pub view: View,
    pub listed: Option<NameList>,
}

impl Handle {
    /// A handle at the start, as an open with these flags makes it.
    pub fn new(flags: OpenFlags, node: Id, way: Option<(Id, Name)>, view: View) -> Handle {
        Handle {
            node,
            reads: flags.reads,
            writes: flags.writes,
            append: flags.append,
            place: 0,
            way,
            view,
            listed: None,
        }
    }

    /// Goes on by so many names of a listing, which the handle keeps.
    pub fn keep(&mut self, names: NameList, count: u32) {
        let end = names.as_slice().len() as u64;
        self.place = end.min(self.place.saturating_add(u64::from(count)));
        self.listed = Some(names);
    }

    /// Goes to a place; a directory's handle forgets its listing.
    pub fn move_to(&mut self, place: u64, is_directory: bool) {
        self.place = place;
        if is_directory {
            self.listed = None;
        }
    }
}

/// An attached client and its descriptors.
#[derive(Drop)]
pub struct Client {
    number: u32,
    handles: Vec<Option<Handle>>,
}

impl Client {
    /// Whether an open handle of the client is on a node.
    pub fn holds(&self, id: &Id) -> bool {
        self.handles.iter().any(|handle| holds(handle, id))
    }

    // Makes a copy for each handle on a node that was opened by a way in.
    fn copy_for(
        &self,
        id: &Id,
        way: &Option<(Id, Name)>,
        copies: &mut Copies,
    ) -> Result<(), AllocError> {
        for handle in self.handles.as_slice() {
            if came_by(handle, id, way) {
                copies.add()?;
            }
        }
        Ok(())
    }

    // Lets the handles on a node that were opened by a way in have another one, of which there are copies enough.
    fn re_way(&mut self, id: &Id, way: &Option<(Id, Name)>, copies: &mut Copies) {
        for handle in self.handles.iter_mut() {
            re_way(handle, id, way, copies);
        }
    }

    // Leads a descriptor to a handle, or frees it.
    fn set(&mut self, descriptor: u32, handle: Option<Handle>) {
        let index = descriptor as usize;
        if index < self.handles.len() {
            self.handles[index] = handle;
        }
    }

    // Frees a descriptor and gives its handle.
    fn take(&mut self, descriptor: u32) -> Option<Handle> {
        let index = descriptor as usize;
        if index >= self.handles.len() {
            return None;
        }
        let slot = &mut self.handles[index];
        slot.take()
    }
}

// Descriptors that are all free.
fn free_handles(alloc: Global) -> Result<Vec<Option<Handle>>, AllocError> {
    let mut handles = Vec::new(alloc);
    for _ in 0..DESCRIPTORS {
        handles.push(None)?;
    }
    Ok(handles)
}

/// The attached clients in the order of their numbers, and the number of the next.
#[derive(Drop)]
pub struct Clients {
    list: Vec<Client>,
    arrived: u32,
}

impl Clients {
    /// No clients.
    pub fn new(alloc: Global) -> Clients {
        Clients {
            list: Vec::new(alloc),
            arrived: 0,
        }
    }

    /// The clients in the order of their numbers.
    pub fn as_slice(&self) -> &[Client] {
        self.list.as_slice()
    }

    fn get_mut(&mut self, number: u32) -> Option<&mut Client> {
        self.list.iter_mut().find(|client| client.number == number)
    }

    /// The lowest free descriptor of a client; 64 where none is free.
    pub fn free_descriptor(&self, number: u32) -> u32 {
        let free = lowest_free(self.as_slice(), number).unwrap_or(DESCRIPTORS);
        u32::try_from(free).unwrap_or(u32::MAX)
    }

    /// Whether a client is attached.
    pub fn has(&self, number: u32) -> bool {
        self.list.iter().any(|client| client.number == number)
    }

    /// Leads a client's descriptor to a handle, or frees it.
    pub fn set(&mut self, number: u32, descriptor: u32, handle: Option<Handle>) {
        if let Some(client) = self.get_mut(number) {
            client.set(descriptor, handle);
        }
    }

    /// Frees a client's descriptor and gives its handle.
    pub fn take(&mut self, number: u32, descriptor: u32) -> Option<Handle> {
        self.get_mut(number)?.take(descriptor)
    }

    /// Lets a client's handle go on by so many names of a listing, which it keeps.
    pub fn keep(&mut self, number: u32, descriptor: u32, names: NameList, count: u32) {
        if let Some(mut handle) = self.take(number, descriptor) {
            handle.keep(names, count);
            self.set(number, descriptor, Some(handle));
        }
    }

    /// Lets a client's handle go to a place; a directory's forgets its listing.
    pub fn move_to(&mut self, number: u32, descriptor: u32, place: u64, is_directory: bool) {
        if let Some(mut handle) = self.take(number, descriptor) {
            handle.move_to(place, is_directory);
            self.set(number, descriptor, Some(handle));
        }
    }

    /// Copies of a new way in, one for each handle on a node that was opened by the old one.
    pub fn copies(
        &self,
        alloc: Global,
        id: &Id,
        old: &Option<(Id, Name)>,
        new: &Option<(Id, Name)>,
    ) -> Result<Copies, AllocError> {
        let mut copies = Copies::new(alloc, new.clone()?);
        for client in self.as_slice() {
            client.copy_for(id, old, &mut copies)?;
        }
        Ok(copies)
    }

    /// Lets the handles on a node that were opened by a way in have another one, of which there are copies enough.
    pub fn re_way(&mut self, id: &Id, way: &Option<(Id, Name)>, copies: Copies) {
        re_ways(self.list.as_mut_slice(), id, way, copies);
    }

    /// Whether no client can come: 64 are attached, or the numbers have run out.
    pub fn is_full(&self) -> bool {
        let is_spent = self.arrived == u32::MAX;
        self.list.len() >= CLIENTS || is_spent
    }

    /// Lets a client come, with free descriptors, and gives its number, the next one.
    pub fn attach(&mut self, alloc: Global) -> Result<u32, AllocError> {
        let handles = free_handles(alloc)?;
        let number = self.arrived;
        self.list.push(Client { number, handles })?;
        self.arrived = self.arrived.saturating_add(1);
        Ok(number)
    }

    /// Lets a client go.
    pub fn detach(&mut self, number: u32) {
        self.list.retain(|client| client.number != number);
    }
}

/// The handles of a client by their descriptors; none where it isn't attached.
pub fn handles(clients: &[Client], number: u32) -> &[Option<Handle>] {
    for client in clients {
        if client.number == number {
            return client.handles.as_slice();
        }
    }
    &[]
}

/// The open handle of a client's descriptor.
pub fn open_handle(clients: &[Client], number: u32, descriptor: u32) -> Option<&Handle> {
    match handles(clients, number).get(descriptor as usize) {
        Some(Some(handle)) => Some(handle),
        _ => None,
    }
}

/// The lowest free descriptor of a client.
pub fn lowest_free(clients: &[Client], number: u32) -> Option<usize> {
    handles(clients, number)
        .iter()
        .position(|handle| handle.is_none())
}

fn holds(handle: &Option<Handle>, id: &Id) -> bool {
    match handle {
        None => false,
        Some(handle) => id.is(&handle.node),
    }
}

/// Whether an open handle is on a node.
pub fn is_held(clients: &[Client], id: &Id) -> bool {
    clients.iter().any(|client| client.holds(id))
}

// Whether a handle is open on a node, by a way in.
fn came_by(handle: &Option<Handle>, id: &Id, way: &Option<(Id, Name)>) -> bool {
    match handle {
        None => false,
        Some(handle) => id.is(&handle.node) && same_way(&handle.way, way),
    }
}

// Lets a handle on a node that was opened by a way in have another one.
fn re_way(handle: &mut Option<Handle>, id: &Id, way: &Option<(Id, Name)>, copies: &mut Copies) {
    if let Some(open) = handle {
        if id.is(&open.node) && same_way(&open.way, way) {
            open.way = copies.take();
        }
    }
}

// The same of the handles of all clients.
fn re_ways(clients: &mut [Client], id: &Id, way: &Option<(Id, Name)>, mut copies: Copies) {
    for client in clients.iter_mut() {
        client.re_way(id, way, &mut copies);
    }
}
