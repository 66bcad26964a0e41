// What is laid over the bytes of a file.
ghost use Rattle.std.specs.Prelude.{◌≡◌, ℕ, ◌+◌, ◌^◌, ◌<◌, Some, OnErr, is_ok, IsSome, if◌then◌else◌, List, length};
ghost use Rattle.layer_tree.specs.Tree.{file_bytes, written};
ghost use Rattle.layer_tree.specs.Change.{node_own, with_file};

use crate::node::Node;
use ov_base::Content;
use std::alloc::AllocError;

/// Lays bytes over those of a node that is a file, from a place on. It fails only when out of
/// memory, and changes nothing then.
pub fn write_in(node: &mut Node, start: usize, bytes: &[u8]) -> Result<(), AllocError>
    requires file { IsSome (node_own node.old) }
    requires end { start + length bytes.now < 2 ^ 64 }
    ensures wrote { (old : List ℕ) → node_own node.old ≡ Some old → node.new ≡ with_file (if is_ok result then written old start bytes.now else old) node.old }
    ensures err { OnErr result (node.new ≡ node.old) }
{
    match node {
        Node::Inode(inode) => write_content(&mut inode.content, start, bytes),
        _ => unreachable!(),
    }
}

fn write_content(content: &mut Content, start: usize, bytes: &[u8]) -> Result<(), AllocError>
    requires file { IsSome (file_bytes content.old) }
    requires end { start + length bytes.now < 2 ^ 64 }
    ensures wrote { (old : List ℕ) → file_bytes content.old ≡ Some old → content.new ≡ Content.File (if is_ok result then written old start bytes.now else old) }
    ensures err { OnErr result (content.new ≡ content.old) }
{
    match content {
        Content::File(file) => file.lay_over(start, bytes),
        _ => unreachable!(),
    }
}
