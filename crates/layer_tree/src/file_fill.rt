// A file gets bytes of its own, in place of a mark.
ghost use Rattle.std.specs.Prelude.{◌≡◌, ◌↔◌, IsSome, IsTrue};
ghost use Rattle.layer_tree.specs.Tree.{HasMark, layer_of};
ghost use Rattle.layer_tree.specs.Change.{node_bytes, is_marked_node, with_file};

use crate::node::Node;
use ov_base::{Content, FileBytes};
use slab::Slab;

/// Gives a node that is a file these bytes of its own, in place of those that it had or of its mark.
pub fn fill_in(node: &mut Node, bytes: FileBytes)
    requires { IsSome (node_bytes node.old) }
    ensures { node.new ≡ with_file bytes node.old }
{
    match node {
        Node::Inode(inode) => {
            inode.content = Content::File(bytes);
            inode.mark = None;
        }
        Node::Directory(_) => unreachable!(),
    }
}

/// Whether one of these nodes is a file that bears a mark.
pub fn has_marked(nodes: &Slab<Node>) -> bool
    ensures { IsTrue result ↔ HasMark (layer_of nodes.now) }
{
    for (_, node) in nodes.iter() {
        if is_marked(node) {
            return true;
        }
    }
    false
}

// Whether a node is a file that bears a mark.
fn is_marked(node: &Node) -> bool
    ensures { result ≡ is_marked_node node.now }
{
    match node {
        Node::Inode(inode) => inode.mark.is_some(),
        Node::Directory(_) => false,
    }
}
