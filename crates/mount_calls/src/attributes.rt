// The attributes of what a path shows.
ghost use Rattle.std.specs.Prelude.{◌≡◌, Some, true, IfOk, IfErr, MatchResult};
ghost use Rattle.plain_model.specs.Layers as held;
ghost use Rattle.plain_model.specs.Layers.{Path as Names, shows};
ghost use Rattle.mount_laws.specs.Attributes.{chown_fault};
ghost use Rattle.mount_laws.specs.Looks.{shows_link, is_link_inode};
ghost use Rattle.layer_tree.specs.Tree.{inode_of};
ghost use Rattle.merged_lookup.specs.Merged.{layers_of, IsTopmost, ShowsInode};
ghost use Rattle.mount_calls.specs.Altering.{IsOpenTo, ShowsAttributes};

use layer_tree::{Inode, Node};
use merged_lookup::{Layers, Topmost};
use ov_base::{Attributes, Content, Errno, Path, Place};

/// The attributes of what a path shows, refused as chown(2) is: on the way to the last name a name
/// that shows nothing is ENOENT, a file ENOTDIR and a symbolic link ELOOP; then nothing is ENOENT
/// and a symbolic link, which isn't followed, ELOOP.
pub(crate) fn attributes_at<'a>(layers: &'a Layers, path: &Path) -> Result<&'a Attributes, Errno>
    ensures refused { IfErr result (λ e. chown_fault (layers_of layers.now) path.now ≡ Some e) }
    ensures shown { IfOk result (λ a. ShowsAttributes (layers_of layers.now) path.now a.now) }
{
    let top = layers.walk_topmost(path)?;
    let attributes = attributes_of(layers, top)?;
    Ok(attributes)
}

/// The attributes of what is shown; a symbolic link is ELOOP.
pub(crate) fn attributes_of(layers: &Layers, top: Topmost) -> Result<&Attributes, Errno>
    requires { (p : Names) × IsTopmost layers.now p (Some top) }
    ensures { (p : Names) → IsTopmost layers.now p (Some top) → MatchResult result (λ a. IsOpenTo (shows 0 (layers_of layers.now) p) a.now) (λ e. (e ≡ Errno.ELOOP) × (shows_link (shows 0 (layers_of layers.now) p) ≡ true)) }
{
    match top {
        Topmost::Directory(place) => Ok(layers.attributes_at(place)),
        Topmost::Inode(place) => attributes_in(layers, place),
    }
}

// The attributes of the file that is shown at a place; a symbolic link is ELOOP.
fn attributes_in(layers: &Layers, place: Place) -> Result<&Attributes, Errno>
    requires { (p : Names) × ShowsInode layers.now p place }
    ensures { (p : Names) → ShowsInode layers.now p place → MatchResult result (λ a. IsOpenTo (shows 0 (layers_of layers.now) p) a.now) (λ e. (e ≡ Errno.ELOOP) × (shows_link (shows 0 (layers_of layers.now) p) ≡ true)) }
{
    attributes_on(layers.inode_at(place))
}

// The attributes of a file; a symbolic link is ELOOP.
fn attributes_on(inode: &Inode) -> Result<&Attributes, Errno>
    ensures { MatchResult result (λ a. IsOpenTo (Some (held.Contents 0 0 (inode_of (Node.Inode inode.now)))) a.now) (λ e. (e ≡ Errno.ELOOP) × (is_link_inode (inode_of (Node.Inode inode.now)) ≡ true)) }
{
    match &inode.content {
        Content::File(_) => Ok(&inode.attributes),
        Content::SymbolicLink(_) => Err(Errno::ELOOP),
    }
}
