// The notices that a client hasn't read.

use crate::bits::Q_OVERFLOW;
use circular_buffer::HeapCircularBuffer;
use ov_base::{EventName, Notice};
use std::alloc::{AllocError, Global};

// The most notices that are unread, but for the overflow.
const QUEUE_MAX: usize = 64;

// The places of a queue: one is kept for the overflow.
const PLACES: usize = 65;

/// The notices that a client hasn't read, in their order.
#[derive(Drop)]
pub struct Queue {
    notices: HeapCircularBuffer<Notice>,
}

fn same_names(first: &Option<EventName>, second: &Option<EventName>) -> bool {
    match (first, second) {
        (None, None) => true,
        (Some(name), Some(other)) => name.as_bytes() == other.as_bytes(),
        _ => false,
    }
}

fn same(first: &Notice, second: &Notice) -> bool {
    first.watch == second.watch
        && first.mask == second.mask
        && first.cookie == second.cookie
        && same_names(&first.name, &second.name)
}

// The notice that some are lost.
fn overflow() -> Notice {
    Notice {
        watch: -1,
        mask: Q_OVERFLOW,
        cookie: 0,
        name: None,
    }
}

fn ends_with(notices: &HeapCircularBuffer<Notice>, notice: &Notice) -> bool {
    match notices.back() {
        Some(last) => same(last, notice),
        None => false,
    }
}

fn tells_overflow(notices: &HeapCircularBuffer<Notice>) -> bool {
    let lost = overflow();
    notices.iter().any(|notice| same(&lost, notice))
}

// Puts a notice last.
fn append(notices: &mut HeapCircularBuffer<Notice>, notice: Notice) {
    let name: Option<EventName> = notice.name;
    let _ = notices.push_back(Notice { name, ..notice });
}

impl Queue {
    /// An empty queue, with its 65 places.
    pub fn new(alloc: Global) -> Result<Queue, AllocError> {
        let notices = HeapCircularBuffer::with_capacity(alloc, PLACES)?;
        Ok(Queue { notices })
    }

    // Puts a notice. One like the last unread changes nothing; below 64 unread it goes last; else the overflow does, where none is
    // unread.
    fn put(&mut self, notice: Notice) {
        if ends_with(&self.notices, &notice) {
            return;
        }
        if self.notices.len() < QUEUE_MAX {
            append(&mut self.notices, notice);
        } else if !tells_overflow(&self.notices) {
            append(&mut self.notices, overflow());
        }
    }

    /// Puts what a hook answered.
    pub fn put_answer(&mut self, answer: Option<Notice>) {
        if let Some(notice) = answer {
            self.put(notice);
        }
    }

    /// The first notices, at most so many.
    pub fn first(&self, alloc: Global, count: u32) -> Result<Vec<Notice>, AllocError> {
        let mut first = self.notices.to_vec(alloc)?;
        first.truncate(count as usize);
        Ok(first)
    }

    /// Takes the first notices out, at most so many.
    pub fn drop_first(&mut self, count: u32) {
        let left = self.notices.len().saturating_sub(count as usize);
        self.notices.truncate_front(left);
    }
}
