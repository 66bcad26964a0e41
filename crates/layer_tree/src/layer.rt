// A tree of objects in memory.
ghost use Rattle.std.specs.Prelude.{◌≡◌, ◌≢◌, ℕ, ◌+◌, ◌^◌, ◌<◌, ◌≤◌, Option, Some, None, OnOk, OnErr, IsOk, is_ok, IfOk, IfErr, IsSome, if◌then◌else◌, IsTrue, ◌↔◌, List, ◌∷◌, [], option_map, is_some, false, length, take, drop, ◌++◌, nat_eq};
ghost use Rattle.std.specs.List.{list_any, IsDistinct};
ghost use Rattle.std.specs.List.Sorted.{IsStrictlySortedBy};
ghost use Rattle.std.specs.Option.{option_and_then, option_copied};
ghost use Rattle.std.specs.Map.{keys_of, lookup};
ghost use Rattle.std.specs.Str.{bytes_eq};
ghost use Rattle.std.specs.Ordering.{nat_cmp};
ghost use Rattle.std.specs.Cmp.Lexicographic.{slice_cmp, pointwise};
ghost use Rattle.std.specs.FinMap as map;
ghost use Rattle.slab.specs.Slab.{entries, get, slab_len, HasRoomFor};
ghost use Rattle.plain_model.specs.Layers as layers;
ghost use Rattle.plain_model.specs.Layers.{held, IsLayer};
ghost use Rattle.layer_tree.specs.Table.{object_key};
ghost use Rattle.layer_tree.specs.Walk.{Rebinds};
ghost use Rattle.layer_tree.specs.Tree.{Tree, entry, child, key_at, entry_at, seen_at, inode_at, marks_at, bytes_at, file_bytes, layer_of, seen_object, new_inode, with_less, table_of, leads_on, Inserts, Unbinds, Writes, written, IsDirectory, names_room, SetsPath, ClearsPath, CoversPath, SameObjects, SameTree, UsesObjects, Frees, HoldsNoObjects, IsHeldTogether, IsTree};
ghost use Rattle.layer_tree.specs.Nameless.{IsNameless};
ghost use Rattle.layer_tree.specs.Change.{IsPlanted, Retables, Retabled, Unlinks, IsCounted, node_room, node_entry};
ghost use Rattle.layer_tree.specs.declared.name_table.Entry.TheVariants as bound;

mod contents;
mod hard_link;
mod moves;

use crate::link_count::lose_name;
use crate::name_table::{Entry, NameTable};
use crate::node::{Directory, Inode, Marks, Node, Object};
use indexmap::map::Slice;
use ov_base::{Attributes, Content, FileBytes, Name, Path};
use slab::{Iter, Slab};
use std::alloc::{AllocError, AllocFailed, Global};
use std::hash::RandomState;
use std::marker::Model;

/// The key of the root directory.
pub const ROOT: usize = 0;

/// A layer: a tree of objects, each under a key of its own. Its directories hash names with `keys`.
#[derive(Drop)]
pub struct Layer {
    nodes: Slab<Node>,
    alloc: Global,
    keys: RandomState,
}

impl Model for Layer {
    ghost use Rattle.slab.specs.Slab.{Slab as Slots};
    ghost use Rattle.layer_tree.specs.declared.node.Node.{Node};

    ghost Value = { Slots Node };

    ghost use Rattle.slab.specs.Slab.{slab_code};
    ghost use Rattle.layer_tree.specs.contracts.node.Node as stored;

    ghost coded = { slab_code stored.the_row.coded };

    ghost use Rattle.layer_tree.specs.Tree.{IsTree};

    ghost view = { λ a. a.nodes };

    ghost invariant = { λ a. IsTree a.nodes };
}

impl Layer {
    /// A layer of one directory, the root, which has no marks.
    pub fn new(
        alloc: Global,
        keys: RandomState,
        attributes: Attributes,
    ) -> Result<Layer, AllocError>
        ensures root { IfOk result (λ l. held (layer_of l) [] ≡ Some (layers.Directory 0 attributes false None)) }
        ensures nothing_else { IfOk result (λ l. (name : List ℕ) (path : List (List ℕ)) → held (layer_of l) (name ∷ path) ≡ None) }
        ensures no_inodes { IfOk result (λ l. (key : ℕ) → inode_at l key ≡ None) }
        ensures layer { IfOk result (λ l. IsLayer (layer_of l)) }
    {
        let mut nodes = Slab::with_capacity(alloc, 1)?;
        nodes.insert_reserved(Node::Directory(Directory {
            names: NameTable::new(alloc, keys),
            attributes,
            marks: Marks {
                opaque: false,
                redirect: None,
            },
        }));
        Ok(Layer { nodes, alloc, keys })
    }

    /// What stands under a key.
    pub fn node(&self, key: usize) -> Option<&Node>
        ensures { option_copied result ≡ get self.now key }
    {
        self.nodes.get(key)
    }

    /// The objects with their keys, by rising key.
    pub fn nodes(&self) -> Iter<'_, Node>
        ensures { result ≡ entries self.now }
    {
        self.nodes.iter()
    }

    /// Whether a directory stands under a key.
    pub fn is_directory(&self, key: usize) -> bool
        ensures { IsTrue result ↔ IsDirectory self.now key }
    {
        matches!(self.nodes.get(key), Some(Node::Directory(_)))
    }

    /// What a directory has at a name; none where no directory stands under the key.
    pub fn entry(&self, dir: usize, name: &Name) -> Option<Entry>
        ensures { result ≡ entry self.now dir name.now }
    {
        match self.nodes.get(dir) {
            Some(Node::Directory(directory)) => directory.names.get(name),
            _ => None,
        }
    }

    /// What the layer holds at a path: the key of an object, or a whiteout.
    pub fn find(&self, path: &Path) -> Option<Entry>
        ensures { result ≡ entry_at self.now path.now }
    {
        let mut entry = Entry::Object(ROOT);
        for name in path.names() {
            match entry {
                Entry::Object(key) => entry = self.entry(key, name)?,
                Entry::Whiteout => return None,
            }
        }
        Some(entry)
    }

    /// What every layer keeps, for those who reason about one; it does nothing.
    pub fn lawful(&self)
        ensures tree { IsTree self.now }
        ensures together { IsHeldTogether (layer_of self.now) }
        ensures unnamed { (key : ℕ) (i : layers.Inode) → inode_at self.now key ≡ Some i → i.links ≡ 0 → (dir : ℕ) (name : List ℕ) → child self.now dir name ≢ Some key }
    {
        let _ = &self.nodes;
    }

    /// The names that a directory binds, whiteouts among them, each once and in no promised order; none where there is no directory.
    pub fn bound_names(&self, dir: usize) -> &[Name]
        ensures names { (name : List ℕ) → list_any (bytes_eq name) result.now ≡ is_some (entry self.now dir name) }
        ensures distinct { IsDistinct (pointwise nat_eq) result.now }
    {
        match self.nodes.get(dir) {
            Some(Node::Directory(directory)) => directory.names.as_slice(),
            _ => &[],
        }
    }

    /// What a directory has at each of its names, each name once and in no order that is promised; nothing where no directory stands
    /// under the key.
    pub fn entries(&self, dir: usize) -> Slice<'_, Name, Entry>
        ensures entries { (name : List ℕ) → lookup (bytes_eq name) result ≡ entry self.now dir name }
        ensures distinct { IsDistinct (pointwise nat_eq) (keys_of result) }
    {
        let Some(Node::Directory(directory)) = self.nodes.get(dir) else {
            return Slice::new();
        };
        directory.names.entries()
    }

    /// The names that a directory binds, whiteouts among them, sorted by their bytes; none where no directory stands under the key.
    pub fn names(&self, alloc: Global, dir: usize) -> Result<Vec<Name>, AllocError>
        ensures sorted { IfOk result (λ v. IsStrictlySortedBy (slice_cmp nat_cmp) v.items) }
        ensures names { IfOk result (λ v. (name : List ℕ) → list_any (bytes_eq name) v.items ≡ is_some (entry self.now dir name)) }
    {
        match self.nodes.get(dir) {
            Some(Node::Directory(directory)) => directory.names.sorted(alloc),
            _ => Ok(Vec::new(alloc)),
        }
    }

    /// The marks of a directory.
    pub fn marks(&self, dir: usize) -> Option<&Marks>
        ensures { option_copied result ≡ marks_at self.now dir }
    {
        match self.nodes.get(dir) {
            Some(Node::Directory(directory)) => Some(&directory.marks),
            _ => None,
        }
    }

    /// Makes room for so many more names in a directory, and so many more objects.
    pub fn room(&mut self, dir: usize, names: usize, objects: usize) -> Result<(), AllocError>
        requires { IsDirectory self.old dir }
        ensures same { SameTree self.old self.new }
        ensures objects_held { SameObjects (layer_of self.old) (layer_of self.new) }
        ensures kinds { (d : ℕ) → IsDirectory self.old d → IsDirectory self.new d }
        ensures names { OnOk result (names ≤ names_room self.new dir) }
        ensures objects { OnOk result (HasRoomFor self.new objects) }
        ensures succeeds { names ≤ names_room self.old dir → HasRoomFor self.old objects → IsOk result }
        ensures keeps { IsLayer (layer_of self.old) → IsLayer (layer_of self.new) }
    {
        self.nodes.reserve(objects)?;
        self.name_room(dir, names)
    }

    // Makes room for so many more names in a directory.
    fn name_room(&mut self, dir: usize, names: usize) -> Result<(), AllocError>
        requires { IsDirectory self.old dir }
        ensures same { SameTree self.old self.new }
        ensures objects_held { SameObjects (layer_of self.old) (layer_of self.new) }
        ensures kinds { (d : ℕ) → IsDirectory self.old d → IsDirectory self.new d }
        ensures names { OnOk result (names ≤ names_room self.new dir) }
        ensures succeeds { names ≤ names_room self.old dir → IsOk result }
        ensures len { slab_len self.new ≡ slab_len self.old }
        ensures capacity { self.new.capacity ≡ self.old.capacity }
    {
        reserve_names(&mut self.nodes, dir, names)
    }

    /// Puts an object at a name of a directory at which nothing or a whiteout stands. It fails only
    /// when out of memory, changes nothing then and hands the object back.
    pub fn insert(
        &mut self,
        dir: usize,
        name: Name,
        object: Object,
    ) -> Result<usize, AllocFailed<Object>>
        requires is_dir { IsDirectory self.old dir }
        requires no_object { child self.old dir name ≡ None }
        requires redirect { IsTrue (leads_on (Some (seen_object 0 object))) }

        // It changes one path, or nothing.
        ensures sets { IfOk result (λ key. (path : List (List ℕ)) → key_at self.old path ≡ Some dir → SetsPath (layer_of self.old) (layer_of self.new) (name ∷ path) (seen_object key object)) }
        ensures inserts { IfOk result (λ key. Inserts self.old self.new dir name object key) }
        ensures err { OnErr result (SameTree self.old self.new) }
        ensures err_held { OnErr result (SameObjects (layer_of self.old) (layer_of self.new)) }
        ensures value_returned { IfErr result (λ failed. failed.value ≡ object) }
        ensures kinds { (d : ℕ) → IsDirectory self.old d → IsDirectory self.new d }

        // With room it succeeds, and takes at most one place of each kind.
        ensures succeeds { 0 < names_room self.old dir → HasRoomFor self.old 1 → IsOk result }
        ensures names { names_room self.old dir ≤ names_room self.new dir + 1 }
        ensures other_names { (d : ℕ) → d ≢ dir → names_room self.old d ≤ names_room self.new d }
        ensures objects { UsesObjects self.old self.new 1 }
        ensures keeps { (path : List (List ℕ)) → key_at self.old path ≡ Some dir → IsLayer (layer_of self.old) → IsLayer (layer_of self.new) }
    {
        if self.room(dir, 1, 1).is_err() {
            return Err(AllocFailed { value: object });
        }
        Ok(self.insert_reserved(dir, name, object))
    }

    /// `insert` for a caller that has made room, which cannot fail. A name with a whiteout needs no room of its own.
    pub fn insert_reserved(&mut self, dir: usize, name: Name, object: Object) -> usize
        requires is_dir { IsDirectory self.old dir }
        requires no_object { child self.old dir name ≡ None }
        requires redirect { IsTrue (leads_on (Some (seen_object 0 object))) }
        requires names { entry self.old dir name ≡ None → 0 < names_room self.old dir }
        requires objects { HasRoomFor self.old 1 }
        ensures sets { (path : List (List ℕ)) → key_at self.old path ≡ Some dir → SetsPath (layer_of self.old) (layer_of self.new) (name ∷ path) (seen_object result object) }
        ensures inserts { Inserts self.old self.new dir name object result }
        ensures kinds { (d : ℕ) → IsDirectory self.old d → IsDirectory self.new d }
        ensures names { names_room self.old dir ≤ names_room self.new dir + 1 }
        ensures other_names { (d : ℕ) → d ≢ dir → names_room self.old d ≤ names_room self.new d }
        ensures objects { UsesObjects self.old self.new 1 }
        ensures keeps { (path : List (List ℕ)) → key_at self.old path ≡ Some dir → IsLayer (layer_of self.old) → IsLayer (layer_of self.new) }
    {
        let node = planted(self.alloc, self.keys, object);
        let key = self.nodes.insert_reserved(node);
        bind_name(&mut self.nodes, dir, name, Entry::Object(key));
        key
    }

    /// Puts a whiteout at a name of a directory, and returns what stood there, which keeps its key
    /// and what is in it. It fails only when out of memory, and changes nothing then.
    pub fn insert_whiteout(&mut self, dir: usize, name: Name) -> Result<Option<Entry>, AllocError>
        requires { IsDirectory self.old dir }
        ensures value { IfOk result (λ was. was ≡ entry self.old dir name) }
        ensures covers { OnOk result ((path : List (List ℕ)) → key_at self.old path ≡ Some dir → CoversPath (layer_of self.old) (layer_of self.new) (name ∷ path)) }
        ensures unbinds { OnOk result (Unbinds self.old self.new dir name (Some bound.Whiteout)) }
        ensures err { OnErr result (SameTree self.old self.new) }
        ensures err_held { OnErr result (SameObjects (layer_of self.old) (layer_of self.new)) }
        ensures kinds { (d : ℕ) → IsDirectory self.old d → IsDirectory self.new d }
        ensures succeeds { 0 < names_room self.old dir → IsOk result }
        ensures names { (d : ℕ) → names_room self.old d ≤ names_room self.new d + 1 }
        ensures objects { UsesObjects self.old self.new 0 }
        ensures unnamed { OnOk result ((key : ℕ) → child self.old dir name ≡ Some key → IsDirectory self.old key → (d : ℕ) (n : List ℕ) → child self.new d n ≢ Some key) }
        ensures keeps { (path : List (List ℕ)) → key_at self.old path ≡ Some dir → HoldsNoObjects self.old dir name → IsLayer (layer_of self.old) → IsLayer (layer_of self.new) }
    {
        self.name_room(dir, 1)?;
        Ok(self.whiteout_reserved(dir, name))
    }

    /// `insert_whiteout` for a caller that has made room, which cannot fail. A name that is bound needs no room.
    pub fn whiteout_reserved(&mut self, dir: usize, name: Name) -> Option<Entry>
        requires is_dir { IsDirectory self.old dir }
        requires names { entry self.old dir name ≡ None → 0 < names_room self.old dir }
        ensures value { result ≡ entry self.old dir name }
        ensures covers { (path : List (List ℕ)) → key_at self.old path ≡ Some dir → CoversPath (layer_of self.old) (layer_of self.new) (name ∷ path) }
        ensures unbinds { Unbinds self.old self.new dir name (Some bound.Whiteout) }
        ensures kinds { (d : ℕ) → IsDirectory self.old d → IsDirectory self.new d }
        ensures names { (d : ℕ) → names_room self.old d ≤ names_room self.new d + 1 }
        ensures objects { UsesObjects self.old self.new 0 }
        ensures unnamed { (key : ℕ) → child self.old dir name ≡ Some key → IsDirectory self.old key → (d : ℕ) (n : List ℕ) → child self.new d n ≢ Some key }
        ensures keeps { (path : List (List ℕ)) → key_at self.old path ≡ Some dir → HoldsNoObjects self.old dir name → IsLayer (layer_of self.old) → IsLayer (layer_of self.new) }
    {
        let entry = bind_name(&mut self.nodes, dir, name, Entry::Whiteout);
        unlink(&mut self.nodes, entry);
        entry
    }

    /// Takes a name out of a directory, and returns what stood there, which keeps its key and what is in it.
    pub fn take_out(&mut self, dir: usize, name: &Name) -> Option<Entry>
        requires { IsDirectory self.old dir }
        ensures value { result ≡ entry self.old dir name.now }
        ensures clears { (path : List (List ℕ)) → key_at self.old path ≡ Some dir → ClearsPath (layer_of self.old) (layer_of self.new) (name.now ∷ path) }
        ensures unbinds { Unbinds self.old self.new dir name.now None }
        ensures kinds { (d : ℕ) → IsDirectory self.old d → IsDirectory self.new d }
        ensures names { (d : ℕ) → names_room self.old d ≤ names_room self.new d }
        ensures objects { UsesObjects self.old self.new 0 }
        ensures unnamed { (key : ℕ) → child self.old dir name.now ≡ Some key → IsDirectory self.old key → (d : ℕ) (n : List ℕ) → child self.new d n ≢ Some key }
        ensures keeps { (path : List (List ℕ)) → key_at self.old path ≡ Some dir → HoldsNoObjects self.old dir name.now → IsLayer (layer_of self.old) → IsLayer (layer_of self.new) }
    {
        let entry = unbind_name(&mut self.nodes, dir, name);
        unlink(&mut self.nodes, entry);
        entry
    }

    /// Frees what stands under a key to which no name leads and in which at most whiteouts stand; nothing else changes.
    pub fn discard(&mut self, key: usize)
        requires not_root { key ≢ ROOT }
        requires unnamed { (dir : ℕ) (name : List ℕ) → child self.old dir name ≢ Some key }
        requires bare { (name : List ℕ) → child self.old key name ≡ None }
        ensures frees { Frees self.old self.new key }
        ensures children { (dir : ℕ) (name : List ℕ) → child self.new dir name ≡ child self.old dir name }
        ensures keys { (path : List (List ℕ)) → key_at self.new path ≡ key_at self.old path }
        ensures objects_held { SameObjects (layer_of self.old) (layer_of self.new) }
        ensures kinds { (d : ℕ) → d ≢ key → IsDirectory self.old d → IsDirectory self.new d }
        ensures absent { get self.old key ≡ None → self.new ≡ self.old }

        // Where something stood there, its place is free again.
        ensures len { IsSome (get self.old key) → slab_len self.new + 1 ≡ slab_len self.old }
        ensures room { IsSome (get self.old key) → HasRoomFor self.new 1 }
        ensures capacity { self.new.capacity ≡ self.old.capacity }
        ensures objects { UsesObjects self.old self.new 0 }
        ensures keeps { IsLayer (layer_of self.old) → IsLayer (layer_of self.new) }
        ensures nameless { (k : ℕ) → k ≢ key → IsNameless self.old k → IsNameless self.new k }
    {
        let _ = self.nodes.try_remove(key);
    }
}

// The node of a new object.
fn planted(alloc: Global, keys: RandomState, object: Object) -> Node
    ensures { IsPlanted object result }
{
    match object {
        Object::Directory(attributes, marks) => Node::Directory(Directory {
            names: NameTable::new(alloc, keys),
            attributes,
            marks,
        }),
        Object::Inode(content, attributes) => Node::Inode(Inode {
            content,
            attributes,
            links: 1,
            mark: None,
        }),
        Object::Marked(mark, attributes) => Node::Inode(Inode {
            content: Content::File(FileBytes::new(alloc)),
            attributes,
            links: 1,
            mark: Some(mark),
        }),
    }
}

fn reserve_names(nodes: &mut Slab<Node>, dir: usize, names: usize) -> Result<(), AllocError>
    requires { IsDirectory nodes.old dir }
    ensures retables { Retables nodes.old nodes.new dir (λ m. m) 0 }
    ensures room { OnOk result (names ≤ names_room nodes.new dir) }
    ensures succeeds { names ≤ names_room nodes.old dir → IsOk result }
    ensures len { slab_len nodes.new ≡ slab_len nodes.old }
    ensures capacity { nodes.new.capacity ≡ nodes.old.capacity }
{
    let node = &mut nodes[dir];
    reserve_in(node, names)
}

fn reserve_in(node: &mut Node, names: usize) -> Result<(), AllocError>
    requires { IsSome (table_of node.old) }
    ensures retabled { Retabled node.old node.new (λ m. m) 0 }
    ensures room { OnOk result (names ≤ node_room node.new) }
    ensures succeeds { names ≤ node_room node.old → IsOk result }
{
    match node {
        Node::Directory(directory) => directory.names.reserve(names),
        _ => unreachable!(),
    }
}

fn bind_name(nodes: &mut Slab<Node>, dir: usize, name: Name, to: Entry) -> Option<Entry>
    requires is_dir { IsDirectory nodes.old dir }
    requires room { entry nodes.old dir name ≡ None → 0 < names_room nodes.old dir }
    ensures value { result ≡ entry nodes.old dir name }
    ensures retables { Retables nodes.old nodes.new dir (λ m. map.insert m name to) 1 }
    ensures len { slab_len nodes.new ≡ slab_len nodes.old }
    ensures capacity { nodes.new.capacity ≡ nodes.old.capacity }
{
    let node = &mut nodes[dir];
    bind_in(node, name, to)
}

fn bind_in(node: &mut Node, name: Name, to: Entry) -> Option<Entry>
    requires is_dir { IsSome (table_of node.old) }
    requires room { node_entry node.old name ≡ None → 0 < node_room node.old }
    ensures value { result ≡ node_entry node.old name }
    ensures retabled { Retabled node.old node.new (λ m. map.insert m name to) 1 }
{
    match node {
        Node::Directory(directory) => directory.names.put_reserved(name, to),
        _ => unreachable!(),
    }
}

fn unbind_name(nodes: &mut Slab<Node>, dir: usize, name: &Name) -> Option<Entry>
    requires { IsDirectory nodes.old dir }
    ensures value { result ≡ entry nodes.old dir name.now }
    ensures retables { Retables nodes.old nodes.new dir (λ m. map.remove m name.now) 0 }
    ensures len { slab_len nodes.new ≡ slab_len nodes.old }
    ensures capacity { nodes.new.capacity ≡ nodes.old.capacity }
{
    let node = &mut nodes[dir];
    unbind_in(node, name)
}

fn unbind_in(node: &mut Node, name: &Name) -> Option<Entry>
    requires { IsSome (table_of node.old) }
    ensures value { result ≡ node_entry node.old name.now }
    ensures retabled { Retabled node.old node.new (λ m. map.remove m name.now) 0 }
{
    match node {
        Node::Directory(directory) => directory.names.remove(name),
        _ => unreachable!(),
    }
}

// Counts one name less of the object that a name led to.
fn unlink(nodes: &mut Slab<Node>, was: Option<Entry>)
    requires { (key : ℕ) → option_and_then object_key was ≡ Some key → IsCounted (get nodes.old key) }
    ensures unlinks { Unlinks nodes.old nodes.new (option_and_then object_key was) }
    ensures len { slab_len nodes.new ≡ slab_len nodes.old }
    ensures capacity { nodes.new.capacity ≡ nodes.old.capacity }
{
    if let Some(Entry::Object(key)) = was {
        let node = &mut nodes[key];
        lose_name(node);
    }
}
