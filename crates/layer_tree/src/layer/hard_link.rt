// A further name of a file or symbolic link.
ghost use Rattle.std.specs.Prelude.{◌≡◌, ◌≢◌, ℕ, ◌+◌, ◌^◌, ◌<◌, ◌≤◌, List, ◌∷◌, Some, None, OnOk, OnErr, IsOk, IsTrue, IsSome, option_map, ◌↔◌};
ghost use Rattle.slab.specs.Slab.{get, slab_len};
ghost use Rattle.plain_model.specs.Layers as layers;
ghost use Rattle.plain_model.specs.Layers.{IsLayer};
ghost use Rattle.layer_tree.specs.Tree.{entry, child, key_at, inode_at, layer_of, names_room, IsDirectory, SetsPath, SameObjects, SameTree, UsesObjects};
ghost use Rattle.layer_tree.specs.Link.{Links, HasCountRoom};
ghost use Rattle.layer_tree.specs.Change.{GainsName};

use super::{Layer, bind_name};
use crate::link_count::gain_name;
use crate::name_table::Entry;
use crate::node::Node;
use ov_base::Name;
use slab::Slab;
use std::alloc::AllocError;

impl Layer {
    /// Gives a file or symbolic link a further name in a directory, at which nothing or a whiteout
    /// stands, as link(2) does. It fails only when out of memory (2^64 names are more than memory
    /// holds), and changes nothing then.
    pub fn link(&mut self, dir: usize, name: Name, key: usize) -> Result<(), AllocError>
        requires is_dir { IsDirectory self.old dir }
        requires no_object { child self.old dir name ≡ None }
        requires inode { IsSome (inode_at self.old key) }
        ensures sets { OnOk result ((path : List (List ℕ)) → key_at self.old path ≡ Some dir → SetsPath (layer_of self.old) (layer_of self.new) (name ∷ path) (layers.Named key)) }
        ensures links { OnOk result (Links self.old self.new dir name key) }
        ensures err { OnErr result (SameTree self.old self.new) }
        ensures err_held { OnErr result (SameObjects (layer_of self.old) (layer_of self.new)) }
        ensures kinds { (d : ℕ) → IsDirectory self.old d → IsDirectory self.new d }
        ensures succeeds { 0 < names_room self.old dir → HasCountRoom (get self.old key) → IsOk result }
        ensures names { (d : ℕ) → names_room self.old d ≤ names_room self.new d + 1 }
        ensures objects { UsesObjects self.old self.new 0 }
        ensures keeps { (path : List (List ℕ)) → key_at self.old path ≡ Some dir → IsLayer (layer_of self.old) → IsLayer (layer_of self.new) }
    {
        if !self.has_count_room(key) {
            return Err(AllocError);
        }
        self.name_room(dir, 1)?;
        self.link_reserved(dir, name, key);
        Ok(())
    }

    // Whether one more name of a file or symbolic link can be counted.
    fn has_count_room(&self, key: usize) -> bool
        ensures { IsTrue result ↔ HasCountRoom (get self.now key) }
    {
        match self.nodes.get(key) {
            Some(Node::Inode(inode)) => inode.links < u64::MAX,
            _ => false,
        }
    }

    // `link` for a caller that has made room, which cannot fail.
    fn link_reserved(&mut self, dir: usize, name: Name, key: usize)
        requires is_dir { IsDirectory self.old dir }
        requires no_object { child self.old dir name ≡ None }
        requires count { HasCountRoom (get self.old key) }
        requires names { entry self.old dir name ≡ None → 0 < names_room self.old dir }
        ensures sets { (path : List (List ℕ)) → key_at self.old path ≡ Some dir → SetsPath (layer_of self.old) (layer_of self.new) (name ∷ path) (layers.Named key) }
        ensures links { Links self.old self.new dir name key }
        ensures kinds { (d : ℕ) → IsDirectory self.old d → IsDirectory self.new d }
        ensures names { (d : ℕ) → names_room self.old d ≤ names_room self.new d + 1 }
        ensures objects { UsesObjects self.old self.new 0 }
        ensures keeps { (path : List (List ℕ)) → key_at self.old path ≡ Some dir → IsLayer (layer_of self.old) → IsLayer (layer_of self.new) }
    {
        bind_name(&mut self.nodes, dir, name, Entry::Object(key));
        count_name(&mut self.nodes, key);
    }
}

// Counts one name more of the inode under a key.
fn count_name(nodes: &mut Slab<Node>, key: usize)
    requires { HasCountRoom (get nodes.old key) }
    ensures gains { GainsName nodes.old nodes.new key }
    ensures len { slab_len nodes.new ≡ slab_len nodes.old }
    ensures capacity { nodes.new.capacity ≡ nodes.old.capacity }
{
    let node = &mut nodes[key];
    gain_name(node);
}
