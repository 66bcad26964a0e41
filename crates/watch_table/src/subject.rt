// Whom a change tells.
ghost use Rattle.watch_table.specs.Listening.{IsEventOf};
ghost use Rattle.watch_table.specs.Subjects.{subject_of};

use ov_base::{Event, EventName};

/// The bits of the event that ends a watch.
pub const IGNORED: u32 = 0x8000;

/// Whom a subject is for: the watches on the object of a number, or one watch of a client alone.
#[derive(Clone, Copy)]
pub enum Aim {
    On(u64),
    Only(u64, i32),
}

/// What a call notifies: whom, which bits, the cookie of a rename, and the name in the directory
/// that is notified.
#[derive(Clone, Copy)]
pub struct Subject<'a> {
    pub aim: Aim,
    pub bits: u32,
    pub cookie: u32,
    pub name: Option<&'a EventName>,
}

impl Subject<'_> {
    // What is asked of the callback of a watch that the subject reaches; the watch's number is still to be set.
    pub(crate) fn event(&self) -> Event
        ensures { IsEventOf (subject_of self.now) result }
    {
        let name: Option<EventName> = match self.name {
            Some(name) => Some(*name),
            None => None,
        };
        Event {
            watch: 0,
            bits: self.bits,
            cookie: self.cookie,
            name,
        }
    }
}
