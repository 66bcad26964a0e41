// `link` of a mount, by the plain machine (POSIX.1-2017, link()).
ghost use Rattle.std.specs.Prelude.{◌≡◌, IfOk, IfErr, OnOk};
ghost use Rattle.ov_base.specs.declared.call.CallOf.TheVariants as Call;
ghost use Rattle.plain_model.specs.Layers.{Path as Names};
ghost use Rattle.rename_redirect.specs.Judging.{MayLink};
ghost use Rattle.mount_calls.specs.Looking.{IsKeyAt, IsLook};
ghost use Rattle.mount_calls.specs.Making.{Allows, MakesEach, Refuses};
ghost use Rattle.mount_calls.specs.Status.{done_result};

use crate::look::Look;
use crate::mount::Mount;
use merged_lookup::Stack;
use ov_base::{Errno, Path, Place};
use rename_redirect::{link, linkable};
use std::alloc::AllocError;

impl Mount {
    /// Judges a link of what was seen at one path, at what was seen at another, as `linkable`. Gives
    /// the merged directories in which the two stand, and the place of the file or link that gets a
    /// further name. Nothing changes, and it takes no memory.
    pub fn judge_link<'a>(
        &self,
        from: &'a Look,
        onto: &'a Look,
    ) -> Result<(&'a Stack, &'a Stack, Place), Errno>
        ensures refused { IfErr result (λ errno. (p q : Names) → IsLook self.now.layers p from.now →
            IsLook self.now.layers q onto.now → Refuses self.now (Call.Hardlink p q) errno) }
        ensures allowed { OnOk result ((p q : Names) → IsLook self.now.layers p from.now →
            IsLook self.now.layers q onto.now → Allows self.now (Call.Hardlink p q)) }
        ensures may { IfOk result (λ found. (p q : Names) → IsLook self.now.layers p from.now →
            IsLook self.now.layers q onto.now →
            MayLink self.now.layers p q found.0.now found.1.now found.2) }
    {
        linkable(&from.shown, &onto.shown)
    }

    /// Gives the file or link that was found at the old path the new path too, as both were judged,
    /// and returns the key under which the upper has it then. An allocation failure leaves all that
    /// is shown as it was.
    pub fn give_name(
        &mut self,
        old: &Path,
        new: &Path,
        found: (&Stack, &Stack, Place),
    ) -> Result<usize, AllocError>
        requires { MayLink self.old.layers old.now new.now found.0.now found.1.now found.2 }
        ensures makes { MakesEach (Call.Hardlink old.now new.now) self.old self.new
            (done_result result) }
        ensures key { IfOk result (IsKeyAt self.new.layers old.now) }
        ensures clients { self.new.clients ≡ self.old.clients }
    {
        link(self.alloc, &mut self.layers, old, new, self.metacopy, found)
    }
}
