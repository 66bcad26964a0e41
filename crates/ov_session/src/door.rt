// What answers the calls of a session.
ghost use Rattle.std.specs.Prelude.{◌≡◌, List, ◌++◌, ◌∷◌, []};
ghost use Rattle.ov_frames.specs.Lending.{answer_of};
ghost use Rattle.ov_session.specs.Doors.{EndsInCall, IsAsked, IsLastAnswer};
ghost use Rattle.ov_session.specs.declared.exchange.Exchange.{Exchange};
ghost use Rattle.ov_session.specs.declared.exchange.Exchange.TheVariants.{Departed};

use ov_base::Call;
use ov_frames::{Answer, LentAnswer};

/// What a door did with a call.
#[derive(Clone, Copy, Debug, PartialEq, Eq)]
pub enum CallOutcome {
    /// It was answered: the door lends the answer.
    Answered,
    /// It was not made, and no further call is to come: the session ends.
    HeldBack,
    /// There was no memory to tell of it: it was not made, and the session ends.
    OutOfMemory,
}

/// Takes the calls of a session one at a time.
pub trait Door {
    /// One client's way through the door: the calls that it made, and what they were answered.
    type Session;

    ghost use Rattle.std.specs.Prelude.{List};
    ghost use Rattle.ov_session.specs.declared.exchange.Exchange.{Exchange};

    /// What passed between a session and the door, in order.
    ghost told: { Self.Session → List Exchange };

    /// The door goes from one state to another as these exchanges tell.
    ghost goes: { Self → List Exchange → Self → Type 0 };

    /// The door takes calls of the session: as a rule, its client is attached.
    ghost admits: { Self → Self.Session → Type 0 };

    /// Makes a call of a session.
    fn call(&mut self, session: &mut Self::Session, call: Call) -> CallOutcome
        requires { admits self.old session.old }
        ensures told { IsAsked goes self.old self.new
            (told session.old) (told session.new) call result }
        ensures admitted { admits self.new session.new };

    /// The answer to the last call of a session. Whoever keeps its reply lends it.
    fn answer<'s>(&'s self, session: &'s Self::Session) -> LentAnswer<'s>
        requires { EndsInCall (told session.now) }
        ensures { IsLastAnswer (told session.now) (answer_of result) };

    /// Detaches the client of a session.
    fn detach(&mut self, session: &mut Self::Session) -> Answer
        requires { admits self.old session.old }
        ensures told { told session.new ≡ told session.old ++ Departed result ∷ [] }
        ensures goes { goes self.old (Departed result ∷ []) self.new };

    /// A door where nothing passed goes nowhere.
    ghost stays: { (d : Self) → goes d [] d };

    /// What passed one after the other passed together.
    ghost joins: { (a b c : Self) (xs ys : List Exchange) →
        goes a xs b → goes b ys c → goes a (xs ++ ys) c };
}
