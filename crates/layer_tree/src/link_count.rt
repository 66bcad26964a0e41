// How many names an object has.
ghost use Rattle.std.specs.Prelude.{◌≡◌, Some};
ghost use Rattle.layer_tree.specs.Change.{IsCounted, unlinked, linked};
ghost use Rattle.layer_tree.specs.Link.{HasCountRoom};

use crate::node::Node;

/// Counts one name less of a file or symbolic link; a directory has no count.
pub fn lose_name(node: &mut Node)
    requires { IsCounted (Some node.old) }
    ensures { node.new ≡ unlinked node.old }
{
    if let Node::Inode(inode) = node {
        inode.links -= 1;
    }
}

/// Counts one name more of a file or symbolic link.
pub fn gain_name(node: &mut Node)
    requires { HasCountRoom (Some node.old) }
    ensures { node.new ≡ linked node.old }
{
    if let Node::Inode(inode) = node {
        inode.links += 1;
    }
}
