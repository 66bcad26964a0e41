// What stat(2) shows of an object of a layer.
ghost use Rattle.std.specs.Prelude.{◌≡◌, Some, min, length};
ghost use Rattle.mount_calls.specs.Status as status;
ghost use Rattle.mount_calls.specs.Status.{content_kind, content_bytes, stat_of_content, stat_at, stat_of_inode};
ghost use Rattle.ov_base.specs.declared.attributes.Attributes.{Attributes};
ghost use Rattle.plain_model.specs.Layers as held;
ghost use Rattle.plain_model.specs.Layers.{Path, shows};
ghost use Rattle.merged_lookup.specs.Marking.{inode_over};
ghost use Rattle.merged_lookup.specs.Merged.{layers_of};

use layer_tree::{Inode, Node};
use merged_lookup::{Layers, Topmost};
use ov_base::{Attributes, Content, Errno, ObjectKind, Path, Place, Stat};

/// What stat(2) answers at a path. On the way to its last name a name that shows nothing is ENOENT, a file ENOTDIR and a symbolic
/// link ELOOP; where nothing is shown it is ENOENT.
pub fn status_at(layers: &Layers, path: &Path) -> Result<Stat, Errno>
    ensures { result ≡ stat_at (layers_of layers.now) path.now }
{
    match layers.walk_topmost(path)? {
        Topmost::Directory(place) => Ok(directory_status(layers, place)),
        Topmost::Inode(place) => inode_status(layers, place),
    }
}

// The status of the directory that is shown at a place.
fn directory_status(layers: &Layers, place: Place) -> Stat
    requires { (p : Path) × (a : Attributes) × (shows 0 (layers_of layers.now) p ≡ Some (held.Folder place.layer place.key a)) }
    ensures { (p : Path) (a : Attributes) → shows 0 (layers_of layers.now) p ≡ Some (held.Folder place.layer place.key a) → result ≡ status.stat_with ObjectKind.Directory a 0 1 }
{
    status_with(ObjectKind::Directory, layers.attributes_at(place), 0, 1)
}

/// What stat(2) shows of the inode at a place, as it shows; a directory, and nothing, is ENOENT.
pub(crate) fn inode_status(layers: &Layers, place: Place) -> Result<Stat, Errno>
    ensures { result ≡ stat_of_inode (inode_over layers.now place) }
{
    let Some(Node::Inode(inode)) = layers.node(place) else {
        return Err(Errno::ENOENT);
    };
    match layers.content_at(place) {
        Some(content) => Ok(status_with_content(inode, content)),
        None => unreachable!(),
    }
}

/// What stat(2) shows of an object of a layer: a directory has size 0 and one link.
pub fn status_of(node: &Node) -> Stat
    ensures { result ≡ status.status_of node.now }
{
    match node {
        Node::Directory(directory) => {
            status_with(ObjectKind::Directory, &directory.attributes, 0, 1)
        }
        Node::Inode(inode) => status_with_content(inode, &inode.content),
    }
}

// What stat(2) shows of an inode that holds this.
fn status_with_content(inode: &Inode, content: &Content) -> Stat
    ensures { result ≡ stat_of_content content.now inode.now.attributes inode.now.links }
{
    status_with(
        kind_of(content),
        &inode.attributes,
        size_of(content),
        saturated(inode.links),
    )
}

/// What stat(2) shows of an inode as of a file of so many bytes.
pub(crate) fn file_status(inode: &Inode, size: usize) -> Stat
    ensures { result ≡ status.stat_with ObjectKind.File inode.now.attributes size (min inode.now.links 4294967295) }
{
    let links = saturated(inode.links);
    status_with(ObjectKind::File, &inode.attributes, size as u64, links)
}

/// What stat(2) shows of an object of this kind, with these attributes.
pub(crate) fn status_with(kind: ObjectKind, attributes: &Attributes, size: u64, links: u32) -> Stat
    ensures { result ≡ status.stat_with kind attributes.now size links }
{
    Stat {
        kind,
        mode: attributes.mode.bits(),
        uid: attributes.uid,
        gid: attributes.gid,
        size,
        links,
    }
}

fn kind_of(content: &Content) -> ObjectKind
    ensures { result ≡ content_kind content.now }
{
    match content {
        Content::File(_) => ObjectKind::File,
        Content::SymbolicLink(_) => ObjectKind::SymbolicLink,
    }
}

fn size_of(content: &Content) -> u64
    ensures { result ≡ length (content_bytes content.now) }
{
    match content {
        Content::File(bytes) => bytes.len() as u64,
        Content::SymbolicLink(target) => target.as_bytes().as_slice().len() as u64,
    }
}

fn saturated(count: u64) -> u32
    ensures { result ≡ min count 4294967295 }
{
    if count > 4_294_967_295 {
        u32::MAX
    } else {
        count as u32
    }
}
