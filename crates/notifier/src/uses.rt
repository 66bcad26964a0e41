// What uses of open handles tell.
ghost use Rattle.std.specs.Prelude.{IsSome};
ghost use Rattle.open_handles.specs.TrackedHandles.{tracked_by};
ghost use Rattle.notice_laws.specs.Steps.{Closed, Used};
ghost use Rattle.notifier.specs.Notifying.{IsOther};

use crate::kept::Notifier;
use watch_table::{Callback, Rule};

impl<F: Callback, R: Rule> Notifier<F, R> {
    /// Notifies that an open handle was used, by the bits of that event. It takes no memory.
    pub fn used(&mut self, client: u64, descriptor: u32, bits: u32)
        requires open { IsSome (tracked_by self.old.handles client descriptor) }
        requires bits { IsOther bits }
        ensures { Used R.shows self.old self.new client descriptor bits }
    {
        let handle = self.handle(client, descriptor);
        self.tell_both(&handle.way, Some(handle.object), bits);
    }

    /// Notifies that an open handle is closed, by the bits of that event; its descriptor is on
    /// nothing then. It takes no memory.
    pub fn closed(&mut self, client: u64, descriptor: u32, bits: u32)
        requires open { IsSome (tracked_by self.old.handles client descriptor) }
        requires bits { IsOther bits }
        ensures { Closed R.shows self.old self.new client descriptor bits }
    {
        let handle = self.handle(client, descriptor);
        let is_lost = self.is_lost(handle.object);
        self.shut(client, descriptor);
        let ended = self.end_of(Some(handle.object), is_lost);
        self.tell_both(&handle.way, Some(handle.object), bits);
        self.tell_end(ended);
    }
}
