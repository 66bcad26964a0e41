// Why a mount takes no further client, or no call.
ghost use Rattle.std.specs.Prelude.{◌≡◌, ◌<◌, MatchOption};
ghost use Rattle.overlay_core.specs.Histories as histories;
ghost use Rattle.overlay_core.specs.Histories.{room_refusal};
ghost use Rattle.overlay_core.specs.Views.{core_room};

use crate::mounted::Core;
use ov_base::Errno;
use watch_table::{Callback, Rule};

impl<F: Callback, R: Rule> Core<F, R> {
    /// Why no client with so many hooks can be attached: over 16 are EINVAL, where 64 are attached
    /// it is ENFILE, and where the history has no place for it and one for its detach ENOSPC.
    pub fn attach_refusal(&self, hooks: usize) -> Option<Errno>
        ensures { result ≡ histories.attach_refusal self.now hooks }
    {
        if let Some(errno) = self.client_refusal(hooks) {
            return Some(errno);
        }
        if self.room() < 2 {
            return Some(Errno::ENOSPC);
        }
        None
    }

    /// Why no call is taken: where the history has no place left it is ENOSPC.
    pub fn call_refusal(&self) -> Option<Errno>
        ensures refusal { result ≡ room_refusal (core_room self.now) }
        ensures room { MatchOption result (0 < core_room self.now) (λ _. core_room self.now ≡ 0) }
    {
        if self.room() == 0 {
            return Some(Errno::ENOSPC);
        }
        None
    }
}
