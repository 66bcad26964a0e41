// What stands under a key gets other attributes.
ghost use Rattle.std.specs.Prelude.{◌≡◌, OnOk, OnErr};
ghost use Rattle.ov_base.specs.AttributeChanges.{changed};
ghost use Rattle.layer_tree.specs.AttributeChange.{attributes_of, with_attributes};

use crate::node::Node;
use ov_base::{AttributeChange, Attributes};
use std::alloc::AllocError;

/// Gives a node these attributes; nothing else of it changes.
pub fn set_attributes_in(node: &mut Node, attributes: Attributes)
    ensures { node.new ≡ with_attributes attributes node.old }
{
    match node {
        Node::Directory(directory) => directory.attributes = attributes,
        Node::Inode(inode) => inode.attributes = attributes,
    }
}

/// Changes the attributes of a node; nothing else of it changes. It fails only when out of memory,
/// and changes nothing then.
pub fn alter_in(node: &mut Node, change: AttributeChange) -> Result<(), AllocError>
    ensures attributes { node.new ≡ with_attributes (attributes_of node.new) node.old }
    ensures changed { OnOk result (attributes_of node.new ≡ changed change (attributes_of node.old)) }
    ensures unchanged { OnErr result (node.new ≡ node.old) }
{
    match node {
        Node::Directory(directory) => change.apply(&mut directory.attributes),
        Node::Inode(inode) => change.apply(&mut inode.attributes),
    }
}
