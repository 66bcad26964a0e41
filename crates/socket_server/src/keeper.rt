// What is done with a mount that was served.
ghost use Rattle.std.specs.Prelude.{List};
ghost use Rattle.plain_model.specs.Runs.{Entry};
ghost use Rattle.overlay_core.specs.LegalHistories.{Legally, Opening};

use overlay_core::Core;
use watch_table::{Callback, Rule};

/// Is lent the core of a mount that was served, once all workers have ended.
pub trait Keeper {
    ghost use Rattle.std.specs.Prelude.{List};
    ghost use Rattle.plain_model.specs.Runs.{Entry};
    ghost use Rattle.overlay_core.specs.LegalHistories.{Opening};

    /// It takes the core of what was mounted so.
    ghost takes: { Self → Opening → Type 0 };

    /// It was lent the core in which this history of what was mounted so ended.
    ghost kept: { Self → Opening → List Entry → Type 0 };

    /// Takes the core in which a legal history of what was mounted ended.
    fn keep<F: Callback, R: Rule>(&mut self, core: &Core<F, R>)
        requires { (mounted : Opening) × (entries : List Entry)
            × takes self.old mounted × ∥ Legally mounted entries core.now ∥₁ }
        ensures { (mounted : Opening) (entries : List Entry) → takes self.old mounted →
            ∥ Legally mounted entries core.now ∥₁ → kept self.new mounted entries };
}
