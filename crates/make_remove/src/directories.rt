// `mkdir`.
ghost use Rattle.std.specs.Prelude.{◌≡◌, None, OnOk, OnErr};
ghost use Rattle.plain_model.specs.Layers.{shows};
ghost use Rattle.merged_lookup.specs.Merged.{layers_of, parents_fault, parent, IsStackOf};
ghost use Rattle.copy_up.specs.Showing.{ChangesNoSight, GainsParents, StaysSound};
ghost use Rattle.make_remove.specs.Making.{MakesDirectory, MkdirSteps};

use crate::objects::new_attributes;
use copy_up::{insert_directory, place_parents, placed_or};
use merged_lookup::{Layers, Stack};
use ov_base::{Mode, Path};
use std::alloc::{AllocError, Global};

/// Makes a directory with this mode, owner 0, group 0 and no user attributes, as mkdir(2), in the
/// merged directory in which the path's last name stands and where nothing is shown at it, as
/// `vacant` judges. An allocation failure changes nothing that is shown.
pub fn mkdir(
    alloc: Global,
    layers: &mut Layers,
    directory: &Stack,
    path: &Path,
    mode: Mode,
) -> Result<(), AllocError>
    requires directory { IsStackOf layers.old (parent path.now) directory.now }
    requires parents { parents_fault (layers_of layers.old) path.now ≡ None }
    requires absent { shows 0 (layers_of layers.old) path.now ≡ None }
    ensures made { OnOk result (MakesDirectory layers.old layers.new path.now mode) }
    ensures steps { OnOk result (MkdirSteps layers.old layers.new path.now mode) }
    ensures no_memory { OnErr result
        (ChangesNoSight layers.old layers.new (GainsParents layers.old layers.new path.now)) }
    ensures sound { StaysSound layers.old layers.new }
{
    mode.lawful();
    let Some((name, parents)) = path.split_last() else {
        unreachable!()
    };
    let placed = place_parents(layers, directory, parents)?;
    let parent = placed_or(&placed, directory);
    let opaque = layers.lowers_show_directory(parent, name);
    let attributes = new_attributes(alloc, mode);
    let dir = parent.top();
    insert_directory(layers, dir.key, name, attributes, opaque)?;
    Ok(())
}
