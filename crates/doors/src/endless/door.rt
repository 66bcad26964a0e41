// A door whose calls are those of one client of a mount.
ghost use Rattle.std.specs.Prelude.{◌≡◌, ◌∷◌, [], None, is_some};
ghost use Rattle.ov_session.specs.declared.exchange.Exchange.TheVariants.{Departed};
ghost use Rattle.doors.specs.endless.Advancing.{Advances, standing};

use crate::shared::{ClientSession, errno_of};
use endless_mount::{BookName, EndlessMount, Front};
use locked_history::{Gate, Refused, Session};
use ov_base::{Call, Reply};
use ov_frames::{Answer, LentAnswer};
use ov_session::{CallOutcome, Door};
use std::snapshot::Snapshot;
use std::sync::Wait;
use watch_table::{Callback, Hook, Rule};

/// A mount that many threads share, and a client of it that makes the calls of a session, with the
/// front of the history that it has seen. The gate is asked before each step of a call, and ends the
/// session where it says so.
#[derive(Drop)]
pub struct EndlessDoor<'m, N: BookName, F: Callback, R: Rule, G: Gate, H: Wait> {
    pub(crate) rt: &'m H,
    pub(crate) mount: &'m EndlessMount<N, F, R>,
    pub(crate) gate: &'m G,
    pub(crate) session: Session,
    pub(crate) seen: Front<N>,
    pub(crate) hooks: Option<Vec<Hook<F, R>>>,
}

impl<'m, N: BookName, F: Callback + Drop, R: Rule, G: Gate, H: Wait> EndlessDoor<
    'm,
    N,
    F,
    R,
    G,
    H,
> {
    /// A door to this mount, by this gate, for a client that was just attached and has this front.
    pub fn new(
        rt: &'m H,
        mount: &'m EndlessMount<N, F, R>,
        gate: &'m G,
        session: Session,
        seen: Front<N>,
    ) -> EndlessDoor<'m, N, F, R, G, H>
        ensures client { (result.session ≡ session) × (result.seen ≡ seen) }
        ensures attached { result.hooks ≡ None }
        ensures gate { result.gate.now ≡ gate.now }
    {
        EndlessDoor {
            rt,
            mount,
            gate,
            session,
            seen,
            hooks: None,
        }
    }

    // Detaches the client, and keeps the hooks.
    fn leave(&mut self) -> Answer
        requires { self.old.hooks ≡ None }
        ensures goes { Advances (G.may_stop self.old.gate.now)
            (standing self.old.session self.old.seen (is_some self.old.hooks))
            (Departed result ∷ [])
            (standing self.new.session self.new.seen (is_some self.new.hooks)) }
        ensures gate { self.new.gate.now ≡ self.old.gate.now }
    {
        match self.mount.detach(self.rt, self.session, &mut self.seen) {
            Ok((hooks, place)) => {
                self.hooks = Some(hooks);
                Answer::Replied {
                    place,
                    reply: Reply::Done,
                }
            }
            Err(why) => Answer::NotTaken(errno_of(why)),
        }
    }
}

impl<'m, N: BookName, F: Callback + Drop, R: Rule, G: Gate, H: Wait> Door
    for EndlessDoor<'m, N, F, R, G, H> {
    type Session = ClientSession<Answer>;

    ghost use Rattle.std.specs.Prelude.{◌≡◌, None, is_some, refl};
    ghost use Rattle.doors.specs.shared.Exchanges.{told_in};
    ghost use Rattle.doors.specs.shared.GoingOn.{goes_by_one_gate, stays_there};
    ghost use Rattle.doors.specs.endless.Advancing.{Advances, standing, ways};

    ghost told = { told_in (λ answer. answer) };

    ghost goes = { λ d told e. (e.gate.now ≡ d.gate.now)
        × Advances (G.may_stop d.gate.now)
        (standing d.session d.seen (is_some d.hooks)) told
        (standing e.session e.seen (is_some e.hooks)) };

    ghost admits = { λ d s. d.hooks ≡ None };

    ghost stays = { λ d. (
      refl,
      stays_there (ways (G.may_stop d.gate.now))
          (standing d.session d.seen (is_some d.hooks)),
    ) };

    ghost joins = { λ a b c xs ys. goes_by_one_gate (λ gate. ways (G.may_stop gate))
        a.gate.now b.gate.now c.gate.now (standing a.session a.seen (is_some a.hooks))
        (standing b.session b.seen (is_some b.hooks)) (standing c.session c.seen (is_some c.hooks))
        xs ys };

    fn call(&mut self, session: &mut ClientSession<Answer>, call: Call) -> CallOutcome {
        let asked = Snapshot::of(&call);
        match self.mount.call(self.rt, &mut self.session, &mut self.seen, call, self.gate) {
            Ok((place, reply)) => {
                session.tell(asked, Answer::Replied { place, reply });
                CallOutcome::Answered
            }
            Err(Refused::Stopped) => {
                session.hold_back(asked);
                CallOutcome::HeldBack
            }
            Err(why) => {
                session.tell(asked, Answer::NotTaken(errno_of(why)));
                CallOutcome::Answered
            }
        }
    }

    fn answer<'s>(&'s self, session: &'s ClientSession<Answer>) -> LentAnswer<'s> {
        session.answer()
    }

    fn detach(&mut self, session: &mut ClientSession<Answer>) -> Answer {
        let answer = self.leave();
        session.part(&answer);
        answer
    }
}
