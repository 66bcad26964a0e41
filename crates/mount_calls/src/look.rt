// What a path shows, looked at once for a call and for those who are told of it.
ghost use Rattle.std.specs.Prelude.{◌≡◌};
ghost use Rattle.plain_model.specs.Layers.{Path as Names};
ghost use Rattle.merged_lookup.specs.Merged.{upper_of, lowers_of};
ghost use Rattle.notice_laws.specs.Objects.{IsObject};
ghost use Rattle.mount_calls.specs.Looking.{IsLook, topmost_of};

use crate::mount::Mount;
use merged_lookup::{Stack, Topmost};
use notice_laws::Object;
use ov_base::{Errno, Path};

/// What a path shows: the merged directory in which its last name stands and the topmost object there, if there is one; or why the way there is
/// refused.
#[derive(Drop)]
pub struct Look {
    pub(crate) shown: Result<(Stack, Option<Topmost>), Errno>,
}

impl Look {
    // The topmost object, if the path shows any.
    pub(crate) fn topmost(&self) -> Option<Topmost>
        ensures { result ≡ topmost_of self.now.shown }
    {
        match &self.shown {
            Ok((_, top)) => *top,
            Err(_) => None,
        }
    }
}

impl Mount {
    /// What a path shows, looked at once for `object_seen` and for the call.
    pub fn look(&self, path: &Path) -> Look
        ensures { IsLook self.now.layers path.now result }
    {
        Look {
            shown: self.layers.look(path),
        }
    }

    /// What stands at a path that was looked at; where the way there is refused, nothing that is
    /// tracked.
    pub fn object_seen(&self, look: &Look) -> Object
        requires { (p : Names) × IsLook self.now.layers p look.now }
        ensures { (p : Names) → IsLook self.now.layers p look.now → IsObject (upper_of self.now.layers) (lowers_of self.now.layers) p result }
    {
        match look.topmost() {
            Some(top) => self.object_of(top),
            None => Object::Other,
        }
    }
}
