// The calls on attributes, by the plain machine.
ghost use Rattle.std.specs.Prelude.{◌≡◌, ℕ, None, Some, IfOk, IfErr, OnErr, OnOk};
ghost use Rattle.ov_base.specs.declared.call.CallOf.TheVariants as Call;
ghost use Rattle.plain_model.specs.Layers.{Path as Names, held};
ghost use Rattle.plain_model.specs.Machine.{State};
ghost use Rattle.plain_model.specs.Refusals.{refusal};
ghost use Rattle.layer_tree.specs.Tree.{layer_of};
ghost use Rattle.copy_up.specs.Showing.{number_of};
ghost use Rattle.mount_calls.specs.Altering.{IsTarget};
ghost use Rattle.mount_calls.specs.AttributeCalls.{call_at};
ghost use Rattle.mount_calls.specs.Looking.{IsLook};
ghost use Rattle.mount_calls.specs.Making.{Allows, MakesEach, Refuses, TellsEach};
ghost use Rattle.mount_calls.specs.States.{IsStateOf};
ghost use Rattle.mount_calls.specs.Status.{done_result};

use crate::attribute_changes::{AttributeCall, alter_found, judged};
use crate::look::Look;
use crate::mount::Mount;
use crate::user_attributes::{get_attribute, list_attributes};
use merged_lookup::{Stack, Topmost};
use ov_base::{Bytes, Errno, Path, Reply};
use std::alloc::AllocError;

impl Mount {
    /// Judges a change of the attributes of what was seen at a path: it is refused for what it asks
    /// for, then as chown(2) is for the path, and last for the user attributes there. Gives what it
    /// changes, and the merged directory in which that stands. Nothing changes, and it takes no memory.
    pub fn judge_alter<'a>(
        &self,
        look: &'a Look,
        call: &AttributeCall,
    ) -> Result<(&'a Stack, Topmost), Errno>
        requires { (p : Names) × IsLook self.now.layers p look.now }
        ensures refused { IfErr result (λ errno. (p : Names) → IsLook self.now.layers p look.now →
            Refuses self.now (call_at p call.now) errno) }
        ensures allowed { OnOk result ((p : Names) → IsLook self.now.layers p look.now →
            Allows self.now (call_at p call.now)) }
        ensures target { IfOk result (λ found. (p : Names) → IsLook self.now.layers p look.now →
            IsTarget self.now.layers p call.now (found.0.now, found.1)) }
    {
        judged(&self.layers, look, call)
    }

    /// Makes a change of the attributes of what was found at a path when it was judged, and gives the
    /// key under which that stands in the upper then. An allocation failure leaves all that is
    /// shown.
    pub fn alter(
        &mut self,
        path: &Path,
        found: (&Stack, Topmost),
        call: AttributeCall,
    ) -> Result<usize, AllocError>
        requires { IsTarget self.old.layers path.now call (found.0.now, found.1) }
        ensures makes { MakesEach (call_at path.now call.entry) self.old self.new
            (done_result result) }
        ensures key { IfOk result (λ key.
            number_of (held (layer_of self.new.layers.upper) path.now) ≡ Some key) }
        ensures clients { self.new.clients ≡ self.old.clients }
    {
        alter_found(
            self.alloc,
            &mut self.layers,
            path,
            found,
            &call,
            self.metacopy,
        )
    }

    /// The value of a user attribute of what stands at a path.
    pub fn get_attribute(&self, path: &Path, name: &Bytes) -> Result<Reply, AllocError>
        ensures tells { IfOk result (TellsEach (Call.GetAttribute path.now name.now) self.now) }
        ensures allowed { OnErr result ((s : State) → IsStateOf self.now s → (c : ℕ) →
            refusal s c (Call.GetAttribute path.now name.now) ≡ None) }
    {
        match get_attribute(&self.layers, path, name)? {
            Ok(value) => Ok(Reply::Value(value)),
            Err(errno) => Ok(Reply::Refused(errno)),
        }
    }

    /// The names of the user attributes of what stands at a path.
    pub fn list_attributes(&self, path: &Path) -> Result<Reply, AllocError>
        ensures tells { IfOk result (TellsEach (Call.ListAttributes path.now) self.now) }
        ensures allowed { OnErr result ((s : State) → IsStateOf self.now s → (c : ℕ) →
            refusal s c (Call.ListAttributes path.now) ≡ None) }
    {
        match list_attributes(self.alloc, &self.layers, path)? {
            Ok(names) => Ok(Reply::AttributeNames(names)),
            Err(errno) => Ok(Reply::Refused(errno)),
        }
    }
}
