// What watches tell: inotify(7).
ghost use Rattle.std.specs.Prelude.{◌≡◌, IfSome, IsTrue};
ghost use Rattle.ov_base.specs.Names.{is_name};

use crate::event_name::EventName;
use std::marker::Model;

/// What is asked of a watch's callback.
#[derive(Clone, Copy)]
pub struct Event {
    pub watch: u32,
    pub bits: u32,
    pub cookie: u32,
    pub name: Option<EventName>,
}

impl Event {
    /// What each event's name is, where it has one; it does nothing.
    pub fn lawful(&self)
        ensures { IfSome self.now.name (λ n. IsTrue (is_name n)) }
    {
        if let Some(name) = &self.name {
            name.lawful();
        }
    }
}

/// What a client reads, as `struct inotify_event`.
#[derive(Clone, Copy)]
pub struct Notice {
    /// The watch's number, or -1 for an overflow.
    pub watch: i32,
    pub mask: u32,
    pub cookie: u32,
    pub name: Option<EventName>,
}

/// Notices in the order in which they were put.
#[derive(Drop)]
pub struct Notices {
    notices: Vec<Notice>,
}

impl Model for Notices {
    ghost use Rattle.std.specs.Prelude.{List};
    ghost use Rattle.ov_base.specs.declared.notice.Notice.{Notice};

    ghost Value = { List Notice };

    ghost view = { λ n. n.notices.items };
}

impl Notices {
    /// These notices.
    pub fn from_vec(notices: Vec<Notice>) -> Notices
        ensures { result ≡ notices.items }
    {
        Notices { notices }
    }

    /// The notices in their order.
    pub fn as_slice(&self) -> &[Notice]
        ensures { result.now ≡ self.now }
    {
        self.notices.as_slice()
    }
}
