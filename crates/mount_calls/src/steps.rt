// What the steps of a call do before it is made: they place its parents, and share a file's bytes.
ghost use Rattle.std.specs.Prelude.{◌≡◌, OnOk, OnErr, IfSome, option_copied, option_map};
ghost use Rattle.layer_tree.specs.Tree.{layer_of, SameObjects};
ghost use Rattle.merged_lookup.specs.Merged.{upper_of, lowers_of};
ghost use Rattle.copy_up.specs.Needs.{first_names};
ghost use Rattle.copy_up.specs.Showing.{GainsParent, StaysThin};
ghost use Rattle.mount_calls.specs.Keeping.{KeepsLayers};
ghost use Rattle.mount_calls.specs.Lacks as lacks;
ghost use Rattle.mount_calls.specs.Lacks.{bytes_at, lack_of, CanBeHad};
ghost use Rattle.mount_calls.specs.Living.{StaysLive};
ghost use Rattle.mount_calls.specs.States.{StaysState};
ghost use Rattle.work_dir.specs.declared.next.Lack.TheVariants as Lacking;

use crate::files::low_bytes;
use crate::mount::Mount;
use copy_up::place_dir;
use ov_base::{Call, FileBytes, Path, Place};
use std::alloc::AllocError;

/// The path of a call that changes something, or its second one.
pub fn path_of_call(call: &Call, second: bool) -> Option<&Path>
    ensures { option_map (λ p. p.now) result ≡ lacks.path_of_call call.now second }
{
    match call {
        Call::Chmod { path, .. }
        | Call::Chown { path, .. }
        | Call::SetAttribute { path, .. }
        | Call::DeleteAttribute { path, .. }
        | Call::Mkdir { path, .. }
        | Call::Symlink { path, .. }
        | Call::Open { path, .. }
        | Call::Unlink { path }
        | Call::Rmdir { path } => { if second { None } else { Some(path) } }
        Call::Hardlink { old, new } | Call::Rename { old, new } => {
            Some(if second { new } else { old })
        }
        _ => None,
    }
}

impl Mount {
    /// Places the directory that a call lacks in the upper, at so many names of its path, or of its
    /// second one, as it is shown. An allocation failure changes nothing; what is shown stays in
    /// each case.
    pub fn place(&mut self, call: &Call, second: bool, count: usize) -> Result<(), AllocError>
        requires lacks { lack_of (upper_of self.old.layers) (lowers_of self.old.layers)
            self.old.metacopy call.now ≡ Lacking.Parent second count }
        requires can { CanBeHad self.old call.now (Lacking.Parent second count) }
        ensures stays { StaysState self.old self.new }
        ensures live { StaysLive self.old.layers self.new.layers }
        ensures placed { OnOk result (IfSome (lacks.path_of_call call.now second) (λ p.
            GainsParent self.old.layers self.new.layers (first_names count p))) }
        ensures same { OnErr result (
            SameObjects (layer_of self.old.layers.upper) (layer_of self.new.layers.upper)) }
        ensures layers { KeepsLayers call.now self.old.layers self.new.layers }
        ensures lowers { self.new.layers.lowers ≡ self.old.layers.lowers }
        ensures thin { StaysThin self.old.layers self.new.layers }
        ensures only { self.new ≡ record self.old { layers = self.new.layers } }
    {
        match path_of_call(call, second) {
            Some(path) => place_dir(&mut self.layers, path, count),
            None => unreachable!(),
        }
    }

    /// The bytes of the file that a lower layer has at a place, if it has one there.
    pub fn low_bytes(&self, source: Place) -> Option<&FileBytes>
        ensures { option_copied result ≡ bytes_at (lowers_of self.now.layers) source }
    {
        low_bytes(&self.layers, source)
    }
}
