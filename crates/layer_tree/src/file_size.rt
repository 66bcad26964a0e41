// A file is cut to a length, or filled up to it.
ghost use Rattle.std.specs.Prelude.{◌≡◌, ℕ, ◌≤◌, Some, OnErr, IsOk, is_ok, IsSome, if◌then◌else◌, List, length};
ghost use Rattle.plain_model.specs.Changes.{sized};
ghost use Rattle.layer_tree.specs.Tree.{file_bytes};
ghost use Rattle.layer_tree.specs.Change.{node_own, with_file};

use crate::node::Node;
use ov_base::Content;
use std::alloc::AllocError;

/// Gives a node that is a file this length, with zero bytes beyond its end. It fails only when out
/// of memory, and changes nothing then; a cut never fails.
pub fn resize_in(node: &mut Node, size: usize) -> Result<(), AllocError>
    requires { IsSome (node_own node.old) }
    ensures sized { (old : List ℕ) → node_own node.old ≡ Some old → node.new ≡ with_file (if is_ok result then sized old size else old) node.old }
    ensures err { OnErr result (node.new ≡ node.old) }
    ensures succeeds { (old : List ℕ) → node_own node.old ≡ Some old → size ≤ length old → IsOk result }
{
    match node {
        Node::Inode(inode) => resize_content(&mut inode.content, size),
        _ => unreachable!(),
    }
}

fn resize_content(content: &mut Content, size: usize) -> Result<(), AllocError>
    requires { IsSome (file_bytes content.old) }
    ensures sized { (old : List ℕ) → file_bytes content.old ≡ Some old → content.new ≡ Content.File (if is_ok result then sized old size else old) }
    ensures err { OnErr result (content.new ≡ content.old) }
    ensures succeeds { (old : List ℕ) → file_bytes content.old ≡ Some old → size ≤ length old → IsOk result }
{
    match content {
        Content::File(file) => file.resize(size),
        _ => unreachable!(),
    }
}
