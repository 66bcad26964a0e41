// What a client asked and was answered.
ghost use Rattle.std.specs.Prelude.{◌≡◌, ◌+◌, ◌<◌, ◌++◌, ◌∷◌, [], IfOk, OnErr, OnOk, vec_len};
ghost use Rattle.std.specs.Vec.{vec_capacity};
ghost use Rattle.ov_session.specs.Doors.{EndsInCall, IsLastAnswer};
ghost use Rattle.ov_session.specs.declared.exchange.Exchange.TheVariants.{Departed};

use ov_frames::Answer;
use ov_session::Exchange;
use std::alloc::{AllocError, Global};

/// The calls of a client and their answers, in order, until it is detached. Before that there is
/// memory for one exchange more, so that a detach needs none.
#[derive(Drop)]
pub struct CoreSession {
    exchanges: Vec<Exchange>,
}

impl CoreSession {
    /// A session in which nothing was asked yet. It fails when out of memory.
    pub fn new(alloc: Global) -> Result<CoreSession, AllocError>
        ensures nothing { IfOk result (λ session. session.exchanges.items ≡ []) }
        ensures spare { IfOk result (λ session.
            vec_len session.exchanges < vec_capacity session.exchanges) }
    {
        Ok(CoreSession {
            exchanges: Vec::with_capacity(alloc, 1)?,
        })
    }

    /// What was asked and answered, in order.
    pub fn exchanges(&self) -> &[Exchange]
        ensures { result.now ≡ self.now.exchanges.items }
    {
        self.exchanges.as_slice()
    }

    // Makes memory for two exchanges; where there is none, what there was is kept.
    pub(crate) fn reserve(&mut self) -> Result<(), AllocError>
        ensures items { self.new.exchanges.items ≡ self.old.exchanges.items }
        ensures two { OnOk result (
            vec_len self.new.exchanges + 1 < vec_capacity self.new.exchanges) }
        ensures spare { vec_len self.old.exchanges < vec_capacity self.old.exchanges →
            vec_len self.new.exchanges < vec_capacity self.new.exchanges }
    {
        self.exchanges.reserve(2)
    }

    // Tells one exchange more, and keeps memory for another.
    pub(crate) fn tell(&mut self, exchange: Exchange)
        requires { vec_len self.old.exchanges + 1 < vec_capacity self.old.exchanges }
        ensures told { self.new.exchanges.items ≡ self.old.exchanges.items ++ exchange ∷ [] }
        ensures spare { vec_len self.new.exchanges < vec_capacity self.new.exchanges }
    {
        self.exchanges.push_reserved(exchange);
    }

    // Tells that the client was detached, which needs no memory.
    pub(crate) fn part(&mut self, answer: Answer)
        requires { vec_len self.old.exchanges < vec_capacity self.old.exchanges }
        ensures { self.new.exchanges.items ≡ self.old.exchanges.items ++ Departed answer ∷ [] }
    {
        self.exchanges.push_reserved(Exchange::Departed(answer));
    }

    // The answer to the last call.
    pub(crate) fn answer(&self) -> &Answer
        requires { EndsInCall self.now.exchanges.items }
        ensures { IsLastAnswer self.now.exchanges.items result.now }
    {
        match self.exchanges.last() {
            Some(Exchange::Called(_, answer)) => answer,
            _ => unreachable!(),
        }
    }
}
