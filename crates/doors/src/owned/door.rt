// A door whose calls one client of a core makes.
ghost use Rattle.std.specs.Prelude.{◌≡◌, ◌+◌, ◌<◌, ◌≤◌, ◌^◌, ◌∷◌, [], true};
ghost use Rattle.overlay_core.specs.Views.{core_finished, has_client};
ghost use Rattle.ov_session.specs.declared.exchange.Exchange.TheVariants.{Called};
ghost use Rattle.doors.specs.owned.Rooms.{IsServed};

use super::session::CoreSession;
use ov_base::{Call, Errno, Reply};
use ov_frames::{Answer, LentAnswer};
use ov_session::{CallOutcome, Door, Exchange};
use overlay_core::{Core, Job, Turn};
use watch_table::{Callback, Rule};

/// Where so much was finished, the door holds calls back, so that a detach can be counted.
const FINISHED_MAX: u64 = 1 << 62;

/// A core and the client that makes the calls of its sessions.
#[derive(Drop)]
pub struct CoreDoor<F: Callback, R: Rule> {
    core: Core<F, R>,
    client: u64,
}

impl<F: Callback, R: Rule> CoreDoor<F, R> {
    /// A door whose calls this client of a core makes. They are taken while it is attached.
    pub fn new(core: Core<F, R>, client: u64) -> CoreDoor<F, R>
        ensures { (result.core ≡ core) × (result.client ≡ client) }
    {
        CoreDoor { core, client }
    }

    /// The core, as the sessions left it.
    pub fn into_core(self) -> Core<F, R>
        ensures { result ≡ self.core }
    {
        let CoreDoor { core, client: _ } = self;
        core
    }

    // Makes a call, unless the history is full or memory runs out, and hands it back.
    fn perform(&mut self, call: Call) -> (Call, Answer)
        requires attached { has_client self.old.core self.old.client ≡ true }
        requires bound { core_finished self.old.core + 1 < 2 ^ 63 }
        ensures client { self.new.client ≡ self.old.client }
        ensures call { result.0 ≡ call }
        ensures served { IsServed self.old.client self.old.core
            (Called call result.1 ∷ []) self.new.core }
        ensures attached { has_client self.new.core self.old.client ≡ true }
        ensures finished { core_finished self.new.core ≤ core_finished self.old.core + 1 }
    {
        if let Some(errno) = self.core.call_refusal() {
            return (call, Answer::NotTaken(errno));
        }
        let place = self.core.finished();
        let mut job = Job::new(self.client, call);
        match self.core.complete(&mut job) {
            Turn::Done(reply) => (job.into_call(), Answer::Replied { place, reply }),
            Turn::NoMemory => (job.into_call(), Answer::NotTaken(Errno::ENOMEM)),
            Turn::More => unreachable!(),
        }
    }
}

impl<F: Callback + Drop, R: Rule> Door for CoreDoor<F, R> {
    type Session = CoreSession;

    ghost use Rattle.std.specs.Prelude.{◌≡◌, ◌+◌, ◌<◌, ◌^◌, true, refl, vec_len};
    ghost use Rattle.std.specs.Vec.{vec_capacity};
    ghost use Rattle.overlay_core.specs.Views.{core_finished, has_client};
    ghost use Rattle.doors.specs.owned.Joining.{served_nothing, served_on};
    ghost use Rattle.doors.specs.owned.Rooms.{IsServed};

    ghost told = { λ s. s.exchanges.items };

    ghost goes = { λ d told e.
        (e.client ≡ d.client) × IsServed d.client d.core told e.core };

    ghost admits = { λ d s.
        (has_client d.core d.client ≡ true)
        × (core_finished d.core + 1 < 2 ^ 63)
        × (vec_len s.exchanges < vec_capacity s.exchanges) };

    ghost stays = { λ d. (refl, served_nothing d.client d.core) };

    ghost joins = { λ a b c xs ys.
        served_on a.client b.client c.client a.core b.core c.core xs ys };

    fn call(&mut self, session: &mut CoreSession, call: Call) -> CallOutcome {
        if session.reserve().is_err() {
            return CallOutcome::OutOfMemory;
        }
        if self.core.finished() >= FINISHED_MAX {
            session.tell(Exchange::HeldBack(call));
            return CallOutcome::HeldBack;
        }
        let (call, answer) = self.perform(call);
        session.tell(Exchange::Called(call, answer));
        CallOutcome::Answered
    }

    fn answer<'s>(&'s self, session: &'s CoreSession) -> LentAnswer<'s> {
        session.answer().lent()
    }

    fn detach(&mut self, session: &mut CoreSession) -> Answer {
        let place = self.core.finished();
        let _ = self.core.detach(self.client);
        session.part(Answer::Replied {
            place,
            reply: Reply::Done,
        });
        Answer::Replied {
            place,
            reply: Reply::Done,
        }
    }
}
