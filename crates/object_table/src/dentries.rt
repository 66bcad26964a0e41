// The steps on the entries of the objects that are held. They keep them a tree.
ghost use Rattle.std.specs.Prelude.{◌≡◌, ◌≢◌, ℕ, ◌+◌, ◌-◌, ◌<◌, ◌≤◌, ◌∷◌, [], Some, None, IsSome, IsOk, IfOk, OnOk, OnErr, IfSome, IfNone, reverse};
ghost use Rattle.slab.specs.Slab.{get, slab_len};
ghost use Rattle.object_table.specs.declared.dentry.Place.TheVariants as place;
ghost use Rattle.object_table.specs.Dentries.{HOLDERS_MAX, IsTree, StandsAt, Stands, child, place_at, held};
ghost use Rattle.object_table.specs.Steps.{AddsAlone, SameEntries, Relists, Adds, Displaces, IsListed, Exchanges, Counts, KeepsPaths};
ghost use Rattle.object_table.specs.Opened.{At, SameHandles, Opens, Removes, NoneBelow, opened, holders, SetsApart, SetsHolders, IsBare};
ghost use Rattle.object_table.specs.Renames.{IsReady, Moves};
ghost use Rattle.plain_model.specs.Layers.{Name, Path};
ghost use Rattle.plain_model.specs.Laws.{IsOutside};

use crate::dentry::{Dentry, Place, Unlisted};
use ov_base::{Name, Path};
use slab::Slab;
use std::alloc::{AllocError, Global};
use std::hash::RandomState;
use std::mem;

/// The number of the root directory.
pub const ROOT: usize = 0;

// The child of an entry at a name.
fn child_at(entries: &Slab<Dentry>, parent: usize, name: &Name) -> Option<usize>
    ensures { result ≡ child entries.now parent name.now }
{
    entries.get(parent)?.children.get(name)
}

/// The entry that stands at a path.
pub fn find(entries: &Slab<Dentry>, path: &Path) -> Option<usize>
    requires { (idle : ℕ) × IsTree entries.now idle }
    ensures found { IfSome result (λ k. StandsAt entries.now k path.now) }
    ensures absent { IfNone result ((k : ℕ) → StandsAt entries.now k path.now → ⊥) }
{
    find_names(entries, path.names())
}

/// The entry that stands at the path of names from the root down.
pub fn find_names(entries: &Slab<Dentry>, names: &[Name]) -> Option<usize>
    requires { (idle : ℕ) × IsTree entries.now idle }
    ensures found { IfSome result (λ k. StandsAt entries.now k (reverse names.now)) }
    ensures absent { IfNone result ((k : ℕ) → StandsAt entries.now k (reverse names.now) → ⊥) }
{
    let mut directory = ROOT;
    for name in names {
        directory = child_at(entries, directory, name)?;
    }
    Some(directory)
}

/// Makes a handle more hold the directory at the path of names from the root down, for which it
/// makes the entries that lack. An allocation failure leaves all as it was, and so does a directory
/// that as many handles hold as can be counted.
pub fn open(
    entries: &mut Slab<Dentry>,
    alloc: Global,
    keys: RandomState,
    names: &[Name],
) -> Result<usize, AllocError>
    requires { IsTree entries.old ROOT }
    ensures tree { IsTree entries.new ROOT }
    ensures opens { IfOk result (λ k. Opens entries.old entries.new (reverse names.now) k) }
    ensures err { OnErr result (SameHandles entries.old entries.new) }
{
    let directory = reach(entries, alloc, keys, names)?;
    hold_more(entries, directory, 1)?;
    Ok(directory)
}

/// Gives the entry at the path of names from the root down, for which it makes those that lack, and
/// which may be idle then. What is open stays as it is. An allocation failure leaves no idle entry.
pub fn reach(
    entries: &mut Slab<Dentry>,
    alloc: Global,
    keys: RandomState,
    names: &[Name],
) -> Result<usize, AllocError>
    requires { IsTree entries.old ROOT }
    ensures same { SameHandles entries.old entries.new }
    ensures tree { IfOk result (λ k. IsTree entries.new k) }
    ensures stands { IfOk result (λ k. StandsAt entries.new k (reverse names.now)) }
    ensures err { OnErr result (IsTree entries.new ROOT) }
{
    let mut reached = ROOT;
    for name in names {
        match enter(entries, alloc, keys, reached, name) {
            Ok(below) => reached = below,
            Err(fault) => {
                prune(entries, reached);
                return Err(fault);
            }
        }
    }
    Ok(reached)
}

// Goes on to the child of an entry at a name, which it makes where there is none.
fn enter(
    entries: &mut Slab<Dentry>,
    alloc: Global,
    keys: RandomState,
    parent: usize,
    name: &Name,
) -> Result<usize, AllocError>
    requires tree { IsTree entries.old parent }
    requires stands { Stands entries.old parent }
    ensures same { SameHandles entries.old entries.new }
    ensures paths { KeepsPaths entries.old entries.new }
    ensures tree { IfOk result (λ k. IsTree entries.new k) }
    ensures placed { IfOk result (λ k. place_at entries.new k ≡ Some (place.In parent name.now)) }
    ensures err { OnErr result (IsTree entries.new parent) }
{
    match child_at(entries, parent, name) {
        Some(key) => Ok(key),
        None => add_child(entries, alloc, keys, parent, name),
    }
}

// Makes the entry of a child where there is none.
fn add_child(
    entries: &mut Slab<Dentry>,
    alloc: Global,
    keys: RandomState,
    parent: usize,
    name: &Name,
) -> Result<usize, AllocError>
    requires there { IsSome (get entries.old parent) }
    requires vacant { child entries.old parent name.now ≡ None }
    ensures adds { IfOk result (λ k. Adds entries.old entries.new parent name.now k) }
    ensures err { OnErr result (SameEntries entries.old entries.new) }
{
    let own = name.clone()?;
    let listed = name.clone()?;
    entries.reserve(1)?;
    let key = entries.vacant_key();
    list_child(entries, parent, listed, key)?;
    Ok(entries.insert_reserved(Dentry::new(alloc, keys, Place::In(parent, own))))
}

fn list_child(
    entries: &mut Slab<Dentry>,
    parent: usize,
    name: Name,
    key: usize,
) -> Result<(), AllocError>
    requires { IsSome (get entries.old parent) }
    ensures ok { OnOk result (Relists entries.old entries.new parent name (Some key)) }
    ensures err { OnErr result (SameEntries entries.old entries.new) }
    ensures vacant { entries.new.vacant_key ≡ entries.old.vacant_key }
    ensures len { slab_len entries.new ≡ slab_len entries.old }
    ensures capacity { entries.new.capacity ≡ entries.old.capacity }
{
    let dentry = &mut entries[parent];
    dentry.list(name, key)
}

fn unlist_child(entries: &mut Slab<Dentry>, parent: usize, name: &Name)
    requires { IsSome (get entries.old parent) }
    ensures relists { Relists entries.old entries.new parent name.now None }
    ensures len { slab_len entries.new ≡ slab_len entries.old }
{
    let dentry = &mut entries[parent];
    dentry.unlist(name);
}

/// Frees an entry that may be idle, and those above it that are idle then.
pub fn prune(entries: &mut Slab<Dentry>, from: usize)
    requires { IsTree entries.old from }
    ensures tree { IsTree entries.new ROOT }
    ensures same { SameHandles entries.old entries.new }
{
    let mut key = from;
    while let Some(parent) = free_idle(entries, key) {
        key = parent;
    }
}

// Frees an entry if it is idle, and gives its parent, which may be idle then.
fn free_idle(entries: &mut Slab<Dentry>, key: usize) -> Option<usize>
    requires { IsTree entries.old key }
    ensures same { SameHandles entries.old entries.new }
    ensures parent { IfSome result (λ parent. IsTree entries.new parent) }
    ensures last { IfNone result (IsTree entries.new ROOT) }
    ensures fewer { IfSome result (λ _. slab_len entries.new < slab_len entries.old) }
{
    if !entries.get(key)?.is_idle() {
        return None;
    }
    match place_of(entries.try_remove(key)?) {
        Place::In(parent, name) => {
            unlist_child(entries, parent, &name);
            Some(parent)
        }
        _ => None,
    }
}

fn place_of(dentry: Dentry) -> Place
    ensures { result ≡ dentry.place }
{
    dentry.place
}

/// Makes the directory that is open at a path a removed one, with these attributes.
pub fn remove(entries: &mut Slab<Dentry>, path: &Path, attributes: Unlisted)
    requires tree { IsTree entries.old ROOT }
    requires not_root { path.now ≢ [] }
    requires below { NoneBelow entries.old path.now }
    ensures tree { IsTree entries.new ROOT }
    ensures removes { Removes entries.old entries.new path.now attributes }
{
    let Some(key) = find(entries, path) else {
        return;
    };
    set_apart(entries, key, attributes);
}

fn displace(entries: &mut Slab<Dentry>, key: usize, to: Place) -> Place
    requires { IsSome (get entries.old key) }
    ensures was { place_at entries.old key ≡ Some result }
    ensures displaces { Displaces entries.old entries.new key to }
{
    let dentry = &mut entries[key];
    mem::replace(&mut dentry.place, to)
}

/// Moves the directory of an entry, with all that is below it, to a path at which an entry stands.
/// Where that one is open it is removed, with these attributes. It takes no memory.
pub fn rename(
    entries: &mut Slab<Dentry>,
    source: usize,
    old: &Path,
    new: &Path,
    replaced: Option<Unlisted>,
)
    requires ready { IsReady entries.old old.now new.now }
    requires stands { StandsAt entries.old source old.now }
    requires not_root { new.now ≢ [] }
    requires apart { IsOutside old.now new.now }
    requires below { NoneBelow entries.old new.now }
    requires replaced { (k : ℕ) → opened entries.old k ≡ Some (At new.now) → IsSome replaced }
    ensures tree { IsTree entries.new ROOT }
    ensures moves { Moves entries.old entries.new old.now new.now replaced }
{
    let Some(target) = find(entries, new) else {
        unreachable!();
    };
    exchange(entries, source, target);
    prune(entries, target);
    if let Some(attributes) = replaced {
        remove(entries, old, attributes);
    }
}

// Puts each of two entries where the other one stands.
fn exchange(entries: &mut Slab<Dentry>, one: usize, other: usize)
    requires different { one ≢ other }
    requires one { IsListed entries.old one }
    requires other { IsListed entries.old other }
    ensures { Exchanges entries.old entries.new one other }
{
    let to = displace(entries, other, Place::Root);
    relist_child(entries, &to, one);
    let from = displace(entries, one, to);
    relist_child(entries, &from, other);
    let _ = displace(entries, other, from);
}

// Lists an entry as the child at a place where another one is listed.
fn relist_child(entries: &mut Slab<Dentry>, at: &Place, key: usize)
    requires { (d : ℕ) (n : Name) → at.now ≡ place.In d n → IsSome (child entries.old d n) }
    ensures { (d : ℕ) (n : Name) → at.now ≡ place.In d n → Relists entries.old entries.new d n (Some key) }
{
    if let Place::In(parent, name) = at {
        let dentry = &mut entries[*parent];
        dentry.relist(name, key);
    }
}

/// The names from a directory that stands somewhere up to the root.
pub fn names_up(entries: &Slab<Dentry>, alloc: Global, key: usize) -> Result<Vec<Name>, AllocError>
    requires { Stands entries.now key }
    ensures { IfOk result (λ names. StandsAt entries.now key names.items) }
{
    let mut names = Vec::new(alloc);
    let mut at = key;
    while let Some((parent, name)) = entries[at].parent() {
        names.push(name.clone()?)?;
        at = parent;
    }
    Ok(names)
}

/// The path of these names, which stand with the last one first.
pub fn path_down(alloc: Global, mut names: Vec<Name>) -> Result<Path, AllocError>
    ensures { IfOk result (λ path. path ≡ names.items) }
{
    let mut path = Path::root(alloc);
    while let Some(name) = names.pop() {
        path.push(name)?;
    }
    Ok(path)
}

/// Gives a number to an object that stands in no directory, with one holder. An allocation failure
/// leaves all as it was.
pub fn add_apart(
    entries: &mut Slab<Dentry>,
    alloc: Global,
    keys: RandomState,
    to: Unlisted,
) -> Result<usize, AllocError>
    ensures adds { IfOk result (λ k. AddsAlone entries.old entries.new k to) }
    ensures err { OnErr result (SameEntries entries.old entries.new) }
{
    entries.reserve(1)?;
    Ok(entries.insert_reserved(Dentry::held_apart(alloc, keys, to)))
}

/// Notes that the object of a number stands in no directory any more, and what is known of it.
/// It takes no memory.
pub fn set_apart(entries: &mut Slab<Dentry>, key: usize, to: Unlisted)
    requires tree { IsTree entries.old ROOT }
    requires opened { IsSome (opened entries.old key) }
    requires bare { IsBare entries.old key }
    ensures tree { IsTree entries.new ROOT }
    ensures sets { SetsApart entries.old entries.new key to }
{
    if let Place::In(parent, name) = displace(entries, key, Place::Apart(to)) {
        unlist_child(entries, parent, &name);
        prune(entries, parent);
    }
}

/// Counts so many holders more on an entry, which may be idle. Where they can't be counted, it
/// fails
/// and changes nothing.
pub fn hold_more(entries: &mut Slab<Dentry>, key: usize, count: usize) -> Result<(), AllocError>
    requires { IsSome (get entries.old key) }
    ensures ok { OnOk result (Counts entries.old entries.new key (held entries.old key + count)) }
    ensures countable { OnOk result (held entries.old key + count ≤ HOLDERS_MAX) }
    ensures err { OnErr result (SameEntries entries.old entries.new) }
    ensures succeeds { held entries.old key + count ≤ HOLDERS_MAX → IsOk result }
{
    let dentry = &mut entries[key];
    dentry.hold_more(count)
}

// Counts so many holders less on an entry.
fn count_less(entries: &mut Slab<Dentry>, key: usize, count: usize)
    requires there { IsSome (get entries.old key) }
    requires few { count ≤ held entries.old key }
    ensures { Counts entries.old entries.new key (held entries.old key - count) }
{
    let dentry = &mut entries[key];
    dentry.holders -= count;
}

/// Counts so many holders less on an object, and frees what nothing keeps then. It takes no memory.
pub fn let_go(entries: &mut Slab<Dentry>, key: usize, count: usize)
    requires tree { IsTree entries.old ROOT }
    requires opened { IsSome (opened entries.old key) }
    requires few { count ≤ holders entries.old key }
    ensures tree { IsTree entries.new ROOT }
    ensures lets { SetsHolders entries.old entries.new key (holders entries.old key - count) }
{
    count_less(entries, key, count);
    prune(entries, key);
}

/// Holds the object at a name in a directory that is held, for one holder more. It makes the entry
/// where there is none. An allocation failure leaves all as it was, and so does an object that as
/// many hold as can be counted.
pub fn open_below(
    entries: &mut Slab<Dentry>,
    alloc: Global,
    keys: RandomState,
    parent: usize,
    name: &Name,
) -> Result<usize, AllocError>
    requires tree { IsTree entries.old ROOT }
    requires opened { IsSome (opened entries.old parent) }
    requires stands { Stands entries.old parent }
    ensures tree { IsTree entries.new ROOT }
    ensures opens { IfOk result (λ k. (p : Path) → opened entries.old parent ≡ Some (At p) → Opens entries.old entries.new (name.now ∷ p) k) }
    ensures err { OnErr result (SameHandles entries.old entries.new) }
{
    let child = enter(entries, alloc, keys, parent, name)?;
    hold_more(entries, child, 1)?;
    Ok(child)
}
