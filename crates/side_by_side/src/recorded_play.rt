// A play on a mount that threads share and that keeps its history: what it answers is read by
// receipts, which all stand in its past when it has ended.
ghost use Rattle.locked_history.specs.Names.{IsNamed};

use crate::shared_mount::SharedMount;
use crate::told::Told;
use locked_history::{Blank, Deed, Mount, MountName, Open, Receipt, Refused, Session};
use ov_base::{Call, Errno};
use script_reference::reply_line;
use std::alloc::Global;
use std::sync::Wait;
use watch_table::{Callback, Hook, Rule, copies_of};

/// A mount, the hooks of its clients, and the receipts of all that was done.
struct RecordedMount<'a, N: MountName, F: Callback, R: Rule> {
    alloc: Global,
    hooks: &'a [Hook<F, R>],
    mount: Mount<N, F, R>,
    receipts: Vec<Receipt<N>>,
}

/// Plays a script on a mount, which has ended then, and tells what it answers and what it came to;
/// false where nothing is left to tell.
pub fn recorded_play<N: MountName, F: Callback + Copy, R: Rule, H: Wait>(
    rt: &H,
    alloc: Global,
    blank: Blank<F, R>,
    script: &[u8],
    hooks: &[Hook<F, R>],
    told: &mut Told,
) -> bool
    requires { IsNamed N.cells N.name N.parts N.opening blank }
{
    let mut played = RecordedMount {
        alloc,
        hooks,
        mount: Mount::<N, F, R>::open(blank),
        receipts: Vec::new(alloc),
    };
    let stop = told.play(rt, alloc, &mut played, script);
    let RecordedMount {
        alloc: _,
        hooks: _,
        mount,
        receipts,
    } = played;
    let deeds = receipts.len();
    let (past, left) = mount.finish(receipts);
    let is_whole = past.len() == deeds && left.is_empty();
    drop(left);
    let told = told.end(alloc, past.core(), script, stop, is_whole);
    drop(past);
    told
}

impl<N: MountName, F: Callback + Copy, R: Rule> SharedMount for RecordedMount<'_, N, F, R> {
    fn attach<H: Wait>(&mut self, rt: &H) -> Result<Session, Errno> {
        let Ok(copies) = copies_of(self.alloc, self.hooks) else {
            return Err(Errno::ENOMEM);
        };
        match self.mount.attach(rt, copies) {
            Ok((session, receipt)) => match self.receipts.push(receipt) {
                Ok(()) => Ok(session),
                Err(_) => Err(Errno::ENOMEM),
            },
            Err(fault) => Err(fault.errno),
        }
    }

    fn detach<H: Wait>(&mut self, rt: &H, session: Session) -> bool {
        match self.mount.detach(rt, session) {
            Ok((_, receipt)) => self.receipts.push(receipt).is_ok(),
            Err(_) => false,
        }
    }

    // The reply is that of the entry of the call's receipt.
    fn call<H: Wait>(
        &mut self,
        rt: &H,
        session: &mut Session,
        client: u32,
        call: Call,
    ) -> Result<String, Refused> {
        let mut receipt = self.mount.call(rt, session, call, &Open)?;
        let line = match &self.mount.event_of(&mut receipt).deed {
            Deed::Called(_, reply) => reply_line(self.alloc, client, reply),
            _ => String::from_str(self.alloc, "no reply\n"),
        };
        match self.receipts.push(receipt) {
            Ok(()) => line.map_err(|_| Refused::Memory),
            Err(_) => Err(Refused::Memory),
        }
    }
}
