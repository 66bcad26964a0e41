// What a client asked and was answered.
ghost use Rattle.std.specs.Prelude.{◌≡◌, ◌++◌, ◌∷◌, []};
ghost use Rattle.ov_frames.specs.Lending.{answer_of};
ghost use Rattle.ov_frames.specs.declared.answer.Answer.{Answer};
ghost use Rattle.ov_session.specs.Doors.{EndsInCall, IsLastAnswer};
ghost use Rattle.ov_session.specs.declared.exchange.Exchange.TheVariants.{Called, Departed, HeldBack};
ghost use Rattle.doors.specs.shared.Exchanges.{told_in};

use ov_base::Call;
use ov_frames::{Answer, LentAnswer};
use std::snapshot::Snapshot;

/// What a session keeps of an answer: the answer, or what the mount lends of it.
pub trait Kept {
    /// The answer.
    ghost kept: { Self → Answer };

    /// The answer, lent.
    fn lent(&self) -> LentAnswer<'_>
        ensures { answer_of result ≡ kept self.now };
}

impl Kept for Answer {
    ghost kept = { λ answer. answer };

    fn lent(&self) -> LentAnswer<'_> {
        Answer::lent(self)
    }
}

impl<'m> Kept for LentAnswer<'m> {
    ghost kept = { λ answer. answer_of answer };

    fn lent(&self) -> LentAnswer<'_> {
        *self
    }
}

// What passed last, behind what passed before. All but the last answer is there for contracts alone.
#[derive(Drop)]
enum Told<A> {
    Nothing,
    Called(Snapshot<Told<A>>, Snapshot<Call>, A),
    HeldBack(Snapshot<Told<A>>, Snapshot<Call>),
    Departed(Snapshot<Told<A>>, Snapshot<Answer>),
}

/// The calls of a client of a mount and their answers, in order, until it is detached. It keeps the
/// last answer, and takes no memory for the others.
#[derive(Drop)]
pub struct ClientSession<A: Kept> {
    told: Told<A>,
    calls: u64,
}

impl<A: Kept + Drop> ClientSession<A> {
    /// A session in which nothing was asked yet.
    pub fn new() -> ClientSession<A>
        ensures { told_in A.kept result ≡ [] }
    {
        ClientSession {
            told: Told::Nothing,
            calls: 0,
        }
    }

    /// How many calls were answered.
    pub fn calls(&self) -> u64
        ensures { result ≡ self.now.calls }
    {
        self.calls
    }

    /// Tells a call and its answer more.
    pub fn tell(&mut self, call: Snapshot<Call>, answer: A)
        ensures { told_in A.kept self.new
            ≡ told_in A.kept self.old ++ Called call.value (A.kept answer) ∷ [] }
    {
        self.calls = self.calls.saturating_add(1);
        self.told = Told::Called(Snapshot::of(&self.told), call, answer);
    }

    /// Tells a call more that was held back.
    pub fn hold_back(&mut self, call: Snapshot<Call>)
        ensures { told_in A.kept self.new ≡ told_in A.kept self.old ++ HeldBack call.value ∷ [] }
    {
        self.told = Told::HeldBack(Snapshot::of(&self.told), call);
    }

    /// Tells a detach and its answer more.
    pub fn part(&mut self, answer: &Answer)
        ensures { told_in A.kept self.new ≡ told_in A.kept self.old ++ Departed answer.now ∷ [] }
    {
        self.told = Told::Departed(Snapshot::of(&self.told), Snapshot::of(answer));
    }

    /// The answer to the last call.
    pub fn answer(&self) -> LentAnswer<'_>
        requires { EndsInCall (told_in A.kept self.now) }
        ensures { IsLastAnswer (told_in A.kept self.now) (answer_of result) }
    {
        match &self.told {
            Told::Called(_, _, answer) => answer.lent(),
            _ => unreachable!(),
        }
    }
}
