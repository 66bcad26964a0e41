// A mount that has no name yet.
ghost use Rattle.std.specs.Prelude.{◌≡◌};
ghost use Rattle.overlay_core.specs.Views.{core_finished};

use crate::book::Opened;
use overlay_core::Core;
use std::alloc::Global;
use watch_table::{Callback, Rule};

/// A mount without a name: a core on which nothing was done, and a book with an empty history.
#[derive(Drop)]
pub struct Blank<F: Callback, R: Rule> {
    pub(crate) alloc: Global,
    pub(crate) core: Core<F, R>,
    pub(crate) opened: Opened,
    ghost untouched: { core_finished core ≡ 0 },
}

impl<F: Callback, R: Rule> Blank<F, R> {
    ghost use Rattle.endless_mount.specs.Names.{blank_core};

    /// Opens a book for a core on which nothing was done.
    pub fn new(alloc: Global, core: Core<F, R>) -> Blank<F, R>
        requires { core_finished core ≡ 0 }
        ensures { blank_core result ≡ core }
    {
        Blank {
            alloc,
            core,
            opened: Opened::new(),
        }
    }
}
