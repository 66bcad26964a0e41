// What names a mount.
ghost use Rattle.std.specs.Prelude.{[], None, false};

use std::marker::Brand;
use std::sync::ledger::Ledger;

/// Names a mount, for contracts alone: the cells of its row, its ledger, and what was mounted.
pub trait MountName: Ledger {
    ghost use Rattle.std.specs.Prelude.{List, ℕ};
    ghost use Rattle.overlay_core.specs.LegalHistories.{Opening};

    ghost cells: { List ℕ };

    ghost opening: { Opening };
}

impl MountName for Brand {
    ghost cells = { [] };

    ghost opening = { record {
      upper = record {
        root = record { mode = 0; uid = 0; gid = 0; user = [] };
        objects = λ _. None;
        inodes = λ _. None;
      };
      lowers = [];
      options = record { redirects = false; metacopy = false; read_only = false; file_limit = 0 };
    } };
}
