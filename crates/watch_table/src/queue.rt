// The notices that a client has not read.
ghost use Rattle.std.specs.Prelude.{◌≡◌, ◌<◌, [], ◌∷◌, ◌++◌, IfOk, OnOk, OnErr, length, take, drop, option_copied};
ghost use Rattle.std.specs.List.{list_any};
ghost use Rattle.circular_buffer.specs.Buffer.{buffer};
ghost use Rattle.plain_model.specs.Watching.{same_notice, same_name_option, last_is, overflow, put_notice, put_answer};

use circular_buffer::HeapCircularBuffer;
use ov_base::{EventName, Notice, Notices};
use std::alloc::{AllocError, Global};
use std::marker::Model;

// The most notices that are unread, but for the overflow.
const QUEUE_MAX: usize = 64;

// The places of a queue: one is kept for the overflow.
const PLACES: usize = 65;

const Q_OVERFLOW: u32 = 0x4000;

// The notices that a client has not read, in their order, and whether the overflow is one of them.
#[derive(Drop)]
pub(crate) struct Queue {
    notices: HeapCircularBuffer<Notice>,
    has_overflow: bool,
}

impl Model for Queue {
    ghost use Rattle.std.specs.Prelude.{◌≡◌, List};
    ghost use Rattle.ov_base.specs.declared.notice.Notice.{Notice};
    ghost use Rattle.std.specs.List.{list_any};
    ghost use Rattle.plain_model.specs.Watching.{IsQueue, same_notice, overflow};

    ghost Value = { List Notice };

    ghost view = { λ q. q.notices.items };

    ghost invariant = { λ q. (q.notices.capacity ≡ 65) × IsQueue q.notices.items × (q.has_overflow ≡ list_any (same_notice overflow) q.notices.items) };
}

fn same_names(a: &Option<EventName>, b: &Option<EventName>) -> bool
    ensures { result ≡ same_name_option a.now b.now }
{
    match (a, b) {
        (None, None) => true,
        (Some(n), Some(m)) => n.as_bytes() == m.as_bytes(),
        _ => false,
    }
}

fn same(a: &Notice, b: &Notice) -> bool
    ensures { result ≡ same_notice a.now b.now }
{
    a.watch == b.watch && a.mask == b.mask && a.cookie == b.cookie && same_names(&a.name, &b.name)
}

fn lost() -> Notice
    ensures { result ≡ overflow }
{
    Notice {
        watch: -1,
        mask: Q_OVERFLOW,
        cookie: 0,
        name: None,
    }
}

fn ends_with(notices: &HeapCircularBuffer<Notice>, notice: &Notice) -> bool
    ensures { result ≡ last_is notices.now.items notice.now }
{
    match notices.back() {
        Some(last) => same(last, notice),
        None => false,
    }
}

fn is_overflow(notice: &Notice) -> bool
    ensures { result ≡ same_notice overflow notice.now }
{
    same(&lost(), notice)
}

fn tells_overflow(notices: &HeapCircularBuffer<Notice>) -> bool
    ensures { result ≡ list_any (same_notice overflow) notices.now.items }
{
    notices.iter().any(|notice| is_overflow(notice))
}

// Puts a notice last.
fn append(notices: &mut HeapCircularBuffer<Notice>, notice: &Notice)
    requires { length notices.old.items < notices.old.capacity }
    ensures { notices.new ≡ buffer (notices.old.items ++ notice.now ∷ []) notices.old.capacity }
{
    let name: Option<EventName> = notice.name;
    let _ = notices.push_back(Notice { name, ..*notice });
}

impl Queue {
    // An empty queue, with its 65 places.
    pub(crate) fn new(alloc: Global) -> Result<Queue, AllocError>
        ensures { IfOk result (λ q. q ≡ []) }
    {
        let notices = HeapCircularBuffer::with_capacity(alloc, PLACES)?;
        Ok(Queue {
            notices,
            has_overflow: false,
        })
    }

    // Puts a notice. One like the last unread changes nothing; below 64 unread it goes last; else the overflow does, where none is
    // unread. It takes no memory.
    pub(crate) fn put(&mut self, notice: &Notice)
        ensures { self.new ≡ put_notice self.old notice.now }
    {
        if ends_with(&self.notices, notice) {
            return;
        }
        if self.notices.len() < QUEUE_MAX {
            append(&mut self.notices, notice);
            self.has_overflow = self.has_overflow || is_overflow(notice);
        } else if !self.has_overflow {
            append(&mut self.notices, &lost());
            self.has_overflow = true;
        }
    }

    // Puts what a callback answered.
    pub(crate) fn put_answer(&mut self, answer: &Option<Notice>)
        ensures { self.new ≡ put_answer self.old answer.now }
    {
        if let Some(notice) = answer {
            self.put(notice);
        }
    }

    // Takes out the first notices, at most so many. An allocation failure leaves them all.
    pub(crate) fn take(&mut self, alloc: Global, count: usize) -> Result<Notices, AllocError>
        ensures taken { IfOk result (λ notices. notices ≡ take count self.old) }
        ensures left { OnOk result (self.new ≡ drop count self.old) }
        ensures err { OnErr result (self.new ≡ self.old) }
    {
        let mut first = self.notices.to_vec(alloc)?;
        first.truncate(count);
        let left = self.notices.len() - first.len();
        self.notices.truncate_front(left);
        self.has_overflow = tells_overflow(&self.notices);
        Ok(Notices::from_vec(first))
    }
}
