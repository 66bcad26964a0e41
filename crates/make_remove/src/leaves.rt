// `symlink`, and making a file.
ghost use Rattle.std.specs.Prelude.{◌≡◌, [], None, IfOk, OnOk, OnErr};
ghost use Rattle.plain_model.specs.Layers.{shows};
ghost use Rattle.merged_lookup.specs.Merged.{layers_of, parents_fault, parent, IsStackOf};
ghost use Rattle.copy_up.specs.Showing.{ChangesNoSight, GainsParents, StaysSound};
ghost use Rattle.make_remove.specs.Making as made;
ghost use Rattle.make_remove.specs.Leaves.{MakesLeaf, SymlinkSteps, CreateSteps};
ghost use Rattle.ov_base.specs.declared.bytes.Content.TheVariants as content;

use crate::objects::new_attributes;
use copy_up::{insert_leaf, place_parents, placed_or};
use layer_tree::Object;
use merged_lookup::{Layers, Stack};
use ov_base::{Attributes, Content, FileBytes, LinkTarget, Mode, Path};
use std::alloc::{AllocError, Global};

/// Makes a symbolic link of this target, with mode 0777, owner 0, group 0 and no user attributes,
/// as symlink(2), in the merged directory in which the path's last name stands and where nothing is
/// shown at it, as `vacant` judges. An allocation failure changes nothing that is shown.
pub fn symlink(
    alloc: Global,
    layers: &mut Layers,
    target: LinkTarget,
    directory: &Stack,
    path: &Path,
) -> Result<(), AllocError>
    requires directory { IsStackOf layers.old (parent path.now) directory.now }
    requires parents { parents_fault (layers_of layers.old) path.now ≡ None }
    requires absent { shows 0 (layers_of layers.old) path.now ≡ None }
    ensures made { OnOk result (MakesLeaf layers.old layers.new path.now
        (content.SymbolicLink target) (made.new_attributes 0o777)) }
    ensures steps { OnOk result (SymlinkSteps layers.old layers.new target path.now) }
    ensures no_memory { OnErr result
        (ChangesNoSight layers.old layers.new (GainsParents layers.old layers.new path.now)) }
    ensures sound { StaysSound layers.old layers.new }
{
    target.lawful();
    let attributes = new_attributes(alloc, Mode::of_links());
    make_leaf(
        layers,
        directory,
        path,
        Content::SymbolicLink(target),
        attributes,
    )?;
    Ok(())
}

/// Makes an empty file with this mode, owner 0, group 0 and no user attributes, in the merged
/// directory in which the path's last name stands and where nothing is shown at it, and gives its
/// key in the upper. An allocation failure changes nothing that is shown.
pub fn create(
    alloc: Global,
    layers: &mut Layers,
    directory: &Stack,
    path: &Path,
    mode: Mode,
) -> Result<usize, AllocError>
    requires directory { IsStackOf layers.old (parent path.now) directory.now }
    requires parents { parents_fault (layers_of layers.old) path.now ≡ None }
    requires absent { shows 0 (layers_of layers.old) path.now ≡ None }
    ensures made { IfOk result (λ key.
        (leaf : MakesLeaf layers.old layers.new path.now (content.File [])
        (made.new_attributes mode)) × (leaf.number ≡ key)) }
    ensures steps { OnOk result (CreateSteps layers.old layers.new path.now mode) }
    ensures no_memory { OnErr result
        (ChangesNoSight layers.old layers.new (GainsParents layers.old layers.new path.now)) }
    ensures sound { StaysSound layers.old layers.new }
{
    mode.lawful();
    let content = Content::File(FileBytes::new(alloc));
    let key = make_leaf(
        layers,
        directory,
        path,
        content,
        new_attributes(alloc, mode),
    )?;
    Ok(key)
}

// Makes a file or symbolic link in this merged directory, where nothing is shown, and gives its key.
fn make_leaf(
    layers: &mut Layers,
    directory: &Stack,
    path: &Path,
    content: Content,
    attributes: Attributes,
) -> Result<usize, AllocError>
    requires directory { IsStackOf layers.old (parent path.now) directory.now }
    requires parents { parents_fault (layers_of layers.old) path.now ≡ None }
    requires absent { shows 0 (layers_of layers.old) path.now ≡ None }
    ensures made { IfOk result (λ key.
        (leaf : MakesLeaf layers.old layers.new path.now content attributes) ×
        (leaf.number ≡ key)) }
    ensures no_memory { OnErr result
        (ChangesNoSight layers.old layers.new (GainsParents layers.old layers.new path.now)) }
    ensures sound { StaysSound layers.old layers.new }
{
    let Some((name, parents)) = path.split_last() else {
        unreachable!()
    };
    let placed = place_parents(layers, directory, parents)?;
    let dir = placed_or(&placed, directory).top();
    let object = Object::Inode(content, attributes);
    let key = insert_leaf(layers, dir.key, name, object)?;
    Ok(key)
}
