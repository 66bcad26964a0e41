// What is asked before each step of a call.
ghost use Rattle.std.specs.Prelude.{◌≡◌, ℕ};

/// What a gate says of a step.
#[derive(Clone, Copy, Debug, PartialEq, Eq)]
pub enum Pass {
    On,
    Stop,
}

/// Is asked before each step of a call, while the lock is free. The steps of a call count from 1.
pub trait Gate {
    /// It may stop a client's call before this step.
    ghost may_stop: { Self → ℕ → ℕ → Type 0 };

    /// Whether a client's call goes on with this step.
    fn pass(&self, client: u64, step: u64) -> Pass
        ensures { result ≡ Pass.Stop → may_stop self.now client step };
}

/// A gate that always says `On`.
pub struct Open;

impl Gate for Open {
    ghost may_stop = { λ gate client step. ⊥ };

    fn pass(&self, _client: u64, _step: u64) -> Pass {
        Pass::On
    }
}
