// Clients come, make calls and go.

use crate::bits::{CLOSE_NOWRITE, CLOSE_WRITE};
use crate::clients::{DESCRIPTORS, Handle, open_handle};
use crate::queue::Queue;
use crate::reference::Reference;
use crate::telling::Telling;
use crate::tellings::marked;
use ov_base::{Call, Errno, Reply};
use std::alloc::AllocError;

// The most hooks of a client.
const HOOKS: usize = 16;

// Whether a call was made: it is offered and not refused.
fn is_taken(answer: &Option<Reply>) -> bool {
    match answer {
        None | Some(Reply::Refused(_)) => false,
        Some(_) => true,
    }
}

// What a close of a handle tells.
fn closes(handle: Option<&Handle>) -> u32 {
    match handle {
        Some(handle) if handle.writes => CLOSE_WRITE,
        _ => CLOSE_NOWRITE,
    }
}

impl Reference {
    /// Whether a client is attached.
    pub fn is_attached(&self, client: u32) -> bool {
        self.unwatched.clients.has(client)
    }

    /// Lets a client come with hooks of these tags, and gives its number: tag 0 answers each event
    /// as it is, 1 those of directories alone, 2 all others, 3 each without its name, any other
    /// none. None comes with over 16 hooks, where 64 are attached, or where the numbers have run
    /// out. An allocation failure changes nothing.
    pub fn attach(&mut self, tags: Vec<u32>) -> Result<Option<u32>, AllocError> {
        if tags.len() > HOOKS || self.unwatched.clients.is_full() {
            return Ok(None);
        }
        let queue = Queue::new(self.unwatched.alloc)?;
        self.instances.make_room()?;
        let number = self.unwatched.clients.attach(self.unwatched.alloc)?;
        self.instances
            .attach(self.unwatched.alloc, number, tags, queue);
        Ok(Some(number))
    }

    // Frees an open descriptor, and tells of it.
    fn release(&mut self, client: u32, descriptor: u32) {
        let handle = self.unwatched.handle(client, descriptor);
        let bits = marked(self.unwatched.handle_node(handle), closes(handle));
        if let Some(closed) = self.unwatched.release(client, descriptor) {
            self.instances.tell_both(&closed.way, &closed.node, bits);
            self.instances.tell_end(&self.unwatched.tree, &closed.node);
        }
    }

    // Closes a descriptor.
    fn close(&mut self, client: u32, descriptor: u32) -> Reply {
        if self.unwatched.handle(client, descriptor).is_none() {
            return Reply::Refused(Errno::EBADF);
        }
        self.release(client, descriptor);
        Reply::Done
    }

    // Closes the open descriptors of a client in rising order.
    fn close_all(&mut self, client: u32) {
        for descriptor in 0..DESCRIPTORS as u32 {
            if open_handle(self.unwatched.clients.as_slice(), client, descriptor).is_some() {
                self.release(client, descriptor);
            }
        }
    }

    /// Lets a client go: its watches end unheard, and then its open descriptors are closed in rising order. False where it isn't attached,
    /// and then nothing changes.
    pub fn detach(&mut self, client: u32) -> bool {
        if !self.is_attached(client) {
            return false;
        }
        self.instances.detach(client);
        self.close_all(client);
        self.unwatched.clients.detach(client);
        true
    }

    // Tells whom a telling tells.
    fn tell(&mut self, telling: &Telling) {
        self.instances.tell_all(telling.told.as_slice());
        if let Some(node) = &telling.ends {
            self.instances.tell_end(&self.unwatched.tree, node);
        }
    }

    // Makes a call without the watches, which then hear of it.
    fn make(&mut self, client: u32, call: &Call) -> Result<Option<Reply>, AllocError> {
        let telling = self.unwatched.telling(client, call)?;
        let answer = self.unwatched.call(client, call)?;
        if !is_taken(&answer) {
            return Ok(answer);
        }
        self.tell(&telling);
        Ok(answer)
    }

    /// Makes a client's call as the plain machine does. None where it isn't offered: a new node
    /// when the serials have run out, or a further name or move that can't be counted. An
    /// allocation failure changes nothing.
    pub fn call(&mut self, client: u32, call: &Call) -> Result<Option<Reply>, AllocError> {
        match call {
            Call::Close { descriptor } => Ok(Some(self.close(client, *descriptor))),
            Call::Arm { slot, path, mask } => Ok(Some(self.arm(client, *slot, path, *mask)?)),
            Call::Disarm { watch } => Ok(Some(self.disarm(client, *watch))),
            Call::TakeNotices { count } => Ok(Some(self.notices(client, *count)?)),
            _ => self.make(client, call),
        }
    }
}
