// `link`.
ghost use Rattle.std.specs.Prelude.{◌≡◌, Bool, Some, None, IfOk, IfErr, OnOk, OnErr};
ghost use Rattle.plain_model.specs.Layers.{Path as Names, Named, held, shows};
ghost use Rattle.mount_laws.specs.Linking.{link_fault};
ghost use Rattle.layer_tree.specs.Tree.{layer_of};
ghost use Rattle.merged_lookup.specs.declared.layers.Layers.{Layers as LayersOf};
ghost use Rattle.merged_lookup.specs.Merged.{layers_of, parents_fault, parent, IsStackOf, ShowsInode};
ghost use Rattle.copy_up.specs.Showing.{ChangesNoSight, StaysSound};
ghost use Rattle.copy_up.specs.Texts.{KeepsTexts};
ghost use Rattle.rename_redirect.specs.Judging.{IsSeen, MayLink};
ghost use Rattle.rename_redirect.specs.Linking.{GainsBoth, GivesName, LinkSteps};

use crate::copies::link_copy;
use crate::names::link_in_upper;
use copy_up::{place_parents, placed_or};
use make_remove::{Seen, there, vacant};
use merged_lookup::{Layers, Stack, Topmost};
use ov_base::{Errno, Path, Place};
use std::alloc::{AllocError, Global};

/// Gives the file or symbolic link that `linkable` found a further name, as link(2); one of a lower
/// layer is copied up first (overlayfs.rst, "Non-directories"), with the option a file without its
/// bytes ("Metadata only copy up"). Returns the key under which the upper has it then. An
/// allocation
/// failure changes nothing that is shown.
pub fn link(
    alloc: Global,
    layers: &mut Layers,
    old: &Path,
    new: &Path,
    metacopy: bool,
    found: (&Stack, &Stack, Place),
) -> Result<usize, AllocError>
    requires may { MayLink layers.old old.now new.now found.0.now found.1.now found.2 }
    ensures linked { OnOk result (GivesName layers.old layers.new metacopy old.now new.now) }
    ensures key { IfOk result (λ key. held (layer_of layers.new.upper) old.now ≡ Some (Named key)) }
    ensures steps { OnOk result (LinkSteps layers.old layers.new metacopy old.now new.now) }
    ensures lowers { layers.new.lowers ≡ layers.old.lowers }
    ensures texts { KeepsTexts layers.old layers.new (Some old.now) }
    ensures no_memory { OnErr result
        (ChangesNoSight layers.old layers.new (GainsBoth layers.old layers.new old.now new.now)) }
    ensures sound { StaysSound layers.old layers.new }
{
    let (_, onto, place) = found;
    if place.layer == 0 {
        return link_own(layers, old, new, onto, place);
    }
    link_copy(alloc, layers, old, new, metacopy, found)
}

/// What link finds at its two paths, by what was seen at them: the merged directories in which they
/// stand, and the place of the file or symbolic link that gets a further name; or why link(2)
/// refuses it. The walk of the old path is refused first, then the way to the new one, as
/// `mkdir`'s;
/// where something is shown there it is EEXIST, and a directory at the old path is EPERM.
pub fn linkable<'a>(from: &'a Seen, onto: &'a Seen) -> Result<(&'a Stack, &'a Stack, Place), Errno>
    ensures refused { IfErr result (λ e. (l : LayersOf) (p q : Names) →
        IsSeen l p from.now → IsSeen l q onto.now → link_fault (layers_of l) p q ≡ Some e) }
    ensures may { IfOk result (λ w. (l : LayersOf) (p q : Names) →
        IsSeen l p from.now → IsSeen l q onto.now → MayLink l p q w.0.now w.1.now w.2) }
{
    let (directory, top) = match there(from) {
        Ok(shown) => shown,
        Err(errno) => return Err(errno),
    };
    let onto = match vacant(onto) {
        Ok(onto) => onto,
        Err(errno) => return Err(errno),
    };
    match top {
        Topmost::Inode(place) => Ok((directory, onto, place)),
        Topmost::Directory(_) => Err(Errno::EPERM),
    }
}

// `link` of an inode of the upper.
fn link_own(
    layers: &mut Layers,
    old: &Path,
    new: &Path,
    onto: &Stack,
    place: Place,
) -> Result<usize, AllocError>
    requires shown { ShowsInode layers.old old.now place }
    requires own { place.layer ≡ 0 }
    requires parents { parents_fault (layers_of layers.old) new.now ≡ None }
    requires onto { IsStackOf layers.old (parent new.now) onto.now }
    requires absent { shows 0 (layers_of layers.old) new.now ≡ None }
    ensures linked { OnOk result ((low : Bool) →
        GivesName layers.old layers.new low old.now new.now) }
    ensures key { IfOk result (λ key. held (layer_of layers.new.upper) old.now ≡ Some (Named key)) }
    ensures lowers { layers.new.lowers ≡ layers.old.lowers }
    ensures texts { OnOk result (KeepsTexts layers.old layers.new (Some old.now)) }
    ensures no_memory { OnErr result
        (ChangesNoSight layers.old layers.new (GainsBoth layers.old layers.new old.now new.now)) }
    ensures sound { StaysSound layers.old layers.new }
{
    let Some((name, parents)) = new.split_last() else {
        unreachable!()
    };
    let placed = place_parents(layers, onto, parents)?;
    let dir = placed_or(&placed, onto).top();
    link_in_upper(layers, dir.key, name, place.key)?;
    Ok(place.key)
}
