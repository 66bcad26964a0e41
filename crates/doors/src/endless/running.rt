// A whole session of a mount's client.
ghost use Rattle.std.specs.Prelude.{◌≡◌, ◌+◌, ◌<◌, ◌≤◌, ◌↔◌, IsSome, List, [], false, is_some};
ghost use Rattle.ov_session.specs.Devices.{InputAt, OutputAt};
ghost use Rattle.ov_session.specs.Sessions.{IsSession};
ghost use Rattle.ov_session.specs.declared.exchange.Exchange.{Exchange};
ghost use Rattle.doors.specs.shared.GoingOn.{IsReply};
ghost use Rattle.doors.specs.endless.Advancing.{Advances, standing};

use super::door::EndlessDoor;
use crate::shared::ClientSession;
use endless_mount::{BookName, EndlessMount, Front};
use locked_history::{Gate, Session};
use ov_devices::{Sink, Source};
use ov_session::{Ending, SessionOutput, session_run};
use std::alloc::Global;
use std::sync::Wait;
use watch_table::{Callback, Hook, Rule};

/// What a session leaves: how it ended and how many calls were answered, its client, the front of
/// the history that it has seen, and its hooks where it was detached.
#[derive(Drop)]
pub struct Departure<N: BookName, F: Callback, R: Rule> {
    pub ending: Ending,
    pub calls: u64,
    pub session: Session,
    pub seen: Front<N>,
    pub hooks: Option<Vec<Hook<F, R>>>,
}

/// Runs the session of a client that was just attached, which has this front. What it wrote is the
/// frames of the answers to what it read, and each reply among them stands in the history of the
/// mount, at the place that is told, as the front that is left has it. A call is held back only where
/// the gate may stop it, and the client is detached, so that its hooks are handed back, unless the
/// mount refused that.
pub fn run_session<N, F, R, G, H, S, K>(
    rt: &H,
    alloc: Global,
    mount: &EndlessMount<N, F, R>,
    gate: &G,
    session: Session,
    seen: Front<N>,
    input: &mut S,
    output: &mut SessionOutput<K>,
) -> Departure<N, F, R>
where
    N: BookName,
    F: Callback + Drop,
    R: Rule,
    G: Gate,
    H: Wait,
    S: Source,
    K: Sink,
    requires held { output.old.held.items ≡ [] }
    ensures session { (told : List Exchange)
        × (s : IsSession (Advances (G.may_stop gate.now))
        (S.remaining input.old) (S.remaining input.new)
        (K.contents output.old.sink) (K.contents output.new.sink)
        [] told (standing session seen false)
        (standing result.session result.seen (is_some result.hooks)) result.ending)
        × (IsSome result.hooks ↔ IsReply s.farewell) }
    ensures input { InputAt (S.failures input.old) (S.failures input.new) (S.reads input.new)
        (S.most input.old) result.ending }
    ensures reads { (S.reads input.old ≤ S.reads input.new)
        × (S.reads input.new ≤ S.most input.old) }
    ensures most { S.most input.new ≡ S.most input.old }
    ensures output { OutputAt (K.failures output.old.sink) (K.failures output.new.sink)
        result.ending }
{
    let mut told = ClientSession::new();
    let mut door = EndlessDoor::new(rt, mount, gate, session, seen);
    let ending = session_run(alloc, input, output, &mut door, &mut told);
    let EndlessDoor {
        rt: _,
        mount: _,
        gate: _,
        session,
        seen,
        hooks,
    } = door;
    Departure {
        ending,
        calls: told.calls(),
        session,
        seen,
        hooks,
    }
}
