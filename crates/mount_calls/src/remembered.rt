// What is kept of the lower layers before a call is made.
ghost use Rattle.std.specs.Prelude.{◌≡◌};

use crate::mount::Mount;
use ov_base::Call;

impl Mount {
    /// Keeps what the lower layers show at the paths of a call, for the look-ups that it makes.
    pub fn remember(&mut self, call: &Call)
        ensures { self.new ≡ self.old }
    {
        match call {
            Call::Stat { path }
            | Call::Readlink { path }
            | Call::Chmod { path, .. }
            | Call::Chown { path, .. }
            | Call::SetAttribute { path, .. }
            | Call::GetAttribute { path, .. }
            | Call::DeleteAttribute { path, .. }
            | Call::ListAttributes { path }
            | Call::Mkdir { path, .. }
            | Call::Symlink { path, .. }
            | Call::Open { path, .. }
            | Call::Arm { path, .. } => self.layers.remember(self.alloc, path, None),
            Call::Unlink { path } | Call::Rmdir { path } => self.layers.recall(self.alloc, path),
            Call::Hardlink { old, new } | Call::Rename { old, new } => {
                self.layers.remember(self.alloc, old, Some(new));
            }
            _ => {}
        }
    }
}
