// A play on a mount that threads share and that keeps no history: it hands out the reply of each
// call, with its place in a history that is there for contracts alone.
ghost use Rattle.endless_mount.specs.Names.{IsNamed};

use crate::shared_mount::SharedMount;
use crate::told::Told;
use endless_mount::{Blank, BookName, EndlessMount, Front};
use locked_history::{Open, Refused, Session};
use ov_base::{Call, Errno};
use script_reference::reply_line;
use std::alloc::Global;
use std::sync::Wait;
use watch_table::{Callback, Hook, Rule, copies_of};

/// A mount, the hooks of its clients, what was seen of its history, and how much was done. Nobody
/// else does anything on it.
struct LoneMount<'a, N: BookName, F: Callback, R: Rule> {
    alloc: Global,
    hooks: &'a [Hook<F, R>],
    mount: EndlessMount<N, F, R>,
    seen: Front<N>,
    deeds: u64,
    /// Whether each deed so far stood at the next place.
    is_whole: bool,
}

/// Plays a script on a mount, which has ended then, and tells what it answers and what it came to;
/// false where nothing is left to tell.
pub fn endless_play<N: BookName, F: Callback + Copy, R: Rule, H: Wait>(
    rt: &H,
    alloc: Global,
    blank: Blank<F, R>,
    script: &[u8],
    hooks: &[Hook<F, R>],
    told: &mut Told,
) -> bool
    requires { IsNamed N.book N.opening blank }
{
    let (mount, seen) = EndlessMount::<N, F, R>::open(blank);
    let mut played = LoneMount {
        alloc,
        hooks,
        mount,
        seen,
        deeds: 0,
        is_whole: true,
    };
    let stop = told.play(rt, alloc, &mut played, script);
    let LoneMount {
        alloc: _,
        hooks: _,
        mount,
        seen,
        deeds,
        is_whole,
    } = played;
    let (core, whole) = mount.finish(rt, seen);
    let told = told.end(alloc, &core, script, stop, is_whole && whole.len() == deeds);
    drop(core);
    told
}

impl<N: BookName, F: Callback, R: Rule> LoneMount<'_, N, F, R> {
    // Counts what was done at a place.
    fn count(&mut self, place: u64) {
        self.is_whole = self.is_whole && place == self.deeds;
        self.deeds = self.deeds.saturating_add(1);
    }
}

impl<N: BookName, F: Callback + Copy, R: Rule> SharedMount for LoneMount<'_, N, F, R> {
    fn attach<H: Wait>(&mut self, rt: &H) -> Result<Session, Errno> {
        let Ok(copies) = copies_of(self.alloc, self.hooks) else {
            return Err(Errno::ENOMEM);
        };
        match self.mount.attach(rt, copies) {
            Ok((session, place, seen)) => {
                self.seen = self.seen.longer(&seen);
                self.count(place);
                Ok(session)
            }
            Err(fault) => Err(fault.errno),
        }
    }

    fn detach<H: Wait>(&mut self, rt: &H, session: Session) -> bool {
        match self.mount.detach(rt, session, &mut self.seen) {
            Ok((_, place)) => {
                self.count(place);
                true
            }
            Err(_) => false,
        }
    }

    fn call<H: Wait>(
        &mut self,
        rt: &H,
        session: &mut Session,
        client: u32,
        call: Call,
    ) -> Result<String, Refused> {
        let (place, reply) = self.mount.call(rt, session, &mut self.seen, call, &Open)?;
        self.count(place);
        let line = reply_line(self.alloc, client, &reply);
        drop(reply);
        match line {
            Ok(line) => Ok(line),
            Err(_) => Err(Refused::Memory),
        }
    }
}
