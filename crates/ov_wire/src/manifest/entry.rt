// One entry of a layer: its kind, its path and what it puts there.
ghost use Rattle.std.specs.Prelude.{◌≡◌, [], ◌≤◌, codes, IfOk, IsTrue, option_map, option_copied, string_bytes};
ghost use Rattle.std.specs.List.{list_all};
ghost use Rattle.std.specs.Option.{option_and_then};
ghost use Rattle.toml.specs.Data.{as_integer, as_str, get_member};
ghost use Rattle.toml.specs.View.{view, table_view, items_view};
ghost use Rattle.ov_base.specs.Paths.{path_of_text};
ghost use Rattle.layer_tree.specs.Tree.{leads};
ghost use Rattle.ov_wire.specs.ManifestEntries.{Answers, IsPlaceable};
ghost use Rattle.ov_wire.specs.ManifestEntries as spec;

use super::blob::Blob;
use super::fault::{EntryError, EntryFault};
use super::file_content::{bytes_of, gives_bytes_once, names_blob};
use super::user_attributes::{is_array_of_pairs, user_attributes_of};
use layer_tree::{Marks, Object};
use ov_base::{Attributes, Bytes, Content, LinkTarget, Mode, Name, Path, Redirect, UserAttributes};
use std::alloc::{AllocError, Global};
use toml::{Table, Value};

/// The kinds of entries.
#[derive(Clone, Copy, Debug, PartialEq, Eq)]
pub(super) enum EntryKind {
    Directory,
    File,
    SymbolicLink,
    Whiteout,
    HardLink,
}

/// What an entry puts at its path.
#[derive(Drop)]
pub(super) enum Item {
    Object(Object),
    Whiteout,
    /// A further name of what stands at a path; none where the text spells no path.
    Link(Option<Path>),
}

// The path of an entry and what it puts there, a file of at most `limit` bytes, which may be part of a blob. The faults are looked for in
// the order `kind`, `path`, `key`, `value`.
pub(super) fn read(
    alloc: Global,
    limit: u64,
    blobs: &[Blob],
    entry: &Table,
) -> Result<(Path, Item), EntryError>
    ensures answer { Answers result (spec.read limit blobs.now (table_view entry.now)) }
    ensures placeable { IfOk result (λ r. IsPlaceable r.1) }
{
    let kind = kind_of(entry)?;
    let path = path_of(alloc, entry)?;
    check_keys(kind, &path, entry)?;
    let item = item_of(alloc, limit, blobs, kind, entry)?;
    Ok((path, item))
}

// The kind that an entry names.
fn kind_of(entry: &Table) -> Result<EntryKind, EntryFault>
    ensures { result ≡ spec.kind_of (table_view entry.now) }
{
    text_at(entry, "kind")
        .and_then(kind_named)
        .ok_or(EntryFault::Kind)
}

fn kind_named(text: &str) -> Option<EntryKind>
    ensures { result ≡ spec.kind_named text.now }
{
    match text {
        "dir" => Some(EntryKind::Directory),
        "file" => Some(EntryKind::File),
        "symlink" => Some(EntryKind::SymbolicLink),
        "whiteout" => Some(EntryKind::Whiteout),
        "link" => Some(EntryKind::HardLink),
        _ => None,
    }
}

// The path that an entry names.
fn path_of(alloc: Global, entry: &Table) -> Result<Path, EntryError>
    ensures { Answers result (spec.path_of (table_view entry.now)) }
{
    let Some(text) = text_at(entry, "path") else {
        return Err(EntryError::Fault(EntryFault::Path));
    };
    match Path::parse(alloc, text.as_bytes())? {
        Ok(path) => Ok(path),
        Err(_) => Err(EntryError::Fault(EntryFault::Path)),
    }
}

// Each key has to be one that this kind takes at the path, with a value of its type, and none that it needs may be missing.
fn check_keys(kind: EntryKind, path: &Path, entry: &Table) -> Result<(), EntryFault>
    ensures { result ≡ spec.checked kind path.now (table_view entry.now) }
{
    if !takes_all(kind, path, entry) {
        return Err(EntryFault::Key);
    }
    if has_required(kind, entry) {
        Ok(())
    } else {
        Err(EntryFault::Key)
    }
}

fn takes_all(kind: EntryKind, path: &Path, entry: &Table) -> bool
    ensures { result ≡ list_all (λ e. spec.takes kind path.now (string_bytes e.0) (view e.1)) entry.now.entries }
{
    entry
        .iter()
        .all(|(key, value)| takes(kind, path, key.as_str(), value))
}

// Whether an entry of this kind at the path may have this key, with such a value.
fn takes(kind: EntryKind, path: &Path, key: &str, value: &Value) -> bool
    ensures { result ≡ spec.takes kind path.now key.now (view value.now) }
{
    match key {
        "path" | "kind" => value.is_str(),
        "mode" => has_mode(kind) && value.is_integer(),
        "uid" | "gid" => has_owner(kind) && value.is_integer(),
        "attrs" => has_mode(kind) && is_array_of_pairs(value),
        "text" | "hex" => is_file(kind) && value.is_str(),
        "zeros" | "blob" | "at" | "size" => is_file(kind) && value.is_integer(),
        "to" => is_hard_link(kind) && value.is_str(),
        "target" => is_link(kind) && value.is_str(),
        "opaque" => has_marks(kind, path) && value.is_bool(),
        "redirect" => has_marks(kind, path) && value.is_str(),
        _ => false,
    }
}

fn is_file(kind: EntryKind) -> bool
    ensures { result ≡ spec.is_file kind }
{
    matches!(kind, EntryKind::File)
}

fn is_link(kind: EntryKind) -> bool
    ensures { result ≡ spec.is_link kind }
{
    matches!(kind, EntryKind::SymbolicLink)
}

fn is_hard_link(kind: EntryKind) -> bool
    ensures { result ≡ spec.is_hard_link kind }
{
    matches!(kind, EntryKind::HardLink)
}

fn has_mode(kind: EntryKind) -> bool
    ensures { result ≡ spec.has_mode kind }
{
    matches!(kind, EntryKind::Directory | EntryKind::File)
}

fn has_owner(kind: EntryKind) -> bool
    ensures { result ≡ spec.has_owner kind }
{
    !matches!(kind, EntryKind::Whiteout | EntryKind::HardLink)
}

// Whether there may be marks: at a directory that isn't the root.
fn has_marks(kind: EntryKind, path: &Path) -> bool
    ensures { result ≡ spec.has_marks kind path.now }
{
    matches!(kind, EntryKind::Directory) && !path.names().is_empty()
}

// Whether an entry has the keys that its kind can't do without, and none that shuts out another.
fn has_required(kind: EntryKind, entry: &Table) -> bool
    ensures { result ≡ spec.has_required kind (table_view entry.now) }
{
    match kind {
        EntryKind::SymbolicLink => text_at(entry, "target").is_some(),
        EntryKind::HardLink => text_at(entry, "to").is_some(),
        EntryKind::File => gives_bytes_once(entry) && names_blob(entry),
        EntryKind::Directory | EntryKind::Whiteout => true,
    }
}

// What the entry of this kind puts at its path, where its values are in their ranges.
fn item_of(
    alloc: Global,
    limit: u64,
    blobs: &[Blob],
    kind: EntryKind,
    entry: &Table,
) -> Result<Item, EntryError>
    ensures answer { Answers result (spec.item_of limit blobs.now kind (table_view entry.now)) }
    ensures placeable { IfOk result IsPlaceable }
{
    match kind {
        EntryKind::Directory => {
            let attributes = directory_attributes(alloc, entry)?;
            let marks = marks_of(alloc, entry)?;
            Ok(Item::Object(Object::Directory(attributes, marks)))
        }
        EntryKind::File => {
            let attributes = attributes_of(alloc, entry, Mode::of_files())?;
            let content = Content::File(bytes_of(alloc, limit, blobs, entry)?);
            Ok(Item::Object(Object::Inode(content, attributes)))
        }
        EntryKind::SymbolicLink => {
            let attributes = attributes_of(alloc, entry, Mode::of_links())?;
            let content = Content::SymbolicLink(target_of(alloc, entry)?);
            Ok(Item::Object(Object::Inode(content, attributes)))
        }
        EntryKind::Whiteout => Ok(Item::Whiteout),
        EntryKind::HardLink => Ok(Item::Link(path_to(alloc, entry)?)),
    }
}

// The path to which an entry of kind `link` leads, where its text spells one.
fn path_to(alloc: Global, entry: &Table) -> Result<Option<Path>, AllocError>
    ensures { IfOk result (λ to. to ≡ spec.path_to (table_view entry.now)) }
{
    match text_at(entry, "to") {
        Some(text) => Ok(Path::parse(alloc, text.as_bytes())?.ok()),
        None => Ok(None),
    }
}

// The marks that an entry of kind `dir` gives.
fn marks_of(alloc: Global, entry: &Table) -> Result<Marks, EntryError>
    ensures answer { Answers result (spec.marks_of (table_view entry.now)) }
    ensures leads { IfOk result (λ marks. IsTrue (leads marks.redirect)) }
{
    let redirect = redirect_of(alloc, entry)?;
    let opaque = is_opaque(entry);
    Ok(Marks { opaque, redirect })
}

// Whether an entry of kind `dir` makes it opaque; without the key it doesn't.
fn is_opaque(entry: &Table) -> bool
    ensures { result ≡ spec.opaque_of (table_view entry.now) }
{
    value_at(entry, "opaque")
        .and_then(Value::as_bool)
        .unwrap_or(false)
}

// The redirect of an entry of kind `dir`, where it has one.
fn redirect_of(alloc: Global, entry: &Table) -> Result<Option<Redirect>, EntryError>
    ensures answer { Answers result (spec.redirect_in (spec.text_at (codes "redirect") (table_view entry.now))) }
    ensures leads { IfOk result (λ redirect. IsTrue (leads redirect)) }
{
    match text_at(entry, "redirect") {
        Some(text) => Ok(Some(redirect_spelled(alloc, text.as_bytes())?)),
        None => Ok(None),
    }
}

// The redirect that a text spells: one name, or a path of at least one name.
fn redirect_spelled(alloc: Global, text: &[u8]) -> Result<Redirect, EntryError>
    ensures answer { Answers result (spec.redirect_spelled text.now) }
    ensures leads { IfOk result (λ redirect. IsTrue (leads (Some redirect))) }
{
    match Name::parse(alloc, text)? {
        Ok(name) => Ok(Redirect::Single(name)),
        Err(_) => redirect_to(alloc, text),
    }
}

// The redirect to the path that a text spells, which has at least one name.
fn redirect_to(alloc: Global, text: &[u8]) -> Result<Redirect, EntryError>
    ensures answer { Answers result (spec.redirect_to (path_of_text text.now)) }
    ensures leads { IfOk result (λ redirect. IsTrue (leads (Some redirect))) }
{
    match Path::parse(alloc, text)? {
        Ok(path) if !path.names().is_empty() => Ok(Redirect::Absolute(path)),
        _ => Err(EntryError::Fault(EntryFault::Value)),
    }
}

// Mode, owner and user attributes that an entry of kind `dir` gives.
pub(super) fn directory_attributes(alloc: Global, entry: &Table) -> Result<Attributes, EntryError>
    ensures { Answers result (spec.attributes_of 493 (table_view entry.now)) }
{
    attributes_of(alloc, entry, Mode::of_directories())
}

// The attributes of a root that no entry sets.
pub(super) fn default_attributes(alloc: Global) -> Attributes
    ensures { result ≡ record { mode = 493; uid = 0; gid = 0; user = [] } }
{
    Attributes {
        mode: Mode::of_directories(),
        uid: 0,
        gid: 0,
        user: UserAttributes::new(alloc),
    }
}

fn attributes_of(alloc: Global, entry: &Table, default_mode: Mode) -> Result<Attributes, EntryError>
    ensures { Answers result (spec.attributes_of default_mode (table_view entry.now)) }
{
    let mode = mode_at(entry, default_mode)?;
    let uid = number_at(entry, "uid", u32::MAX, 0)?;
    let gid = number_at(entry, "gid", u32::MAX, 0)?;
    let user = user_attributes_of(alloc, entry)?;
    Ok(Attributes {
        mode,
        uid,
        gid,
        user,
    })
}

// The mode at the key `mode`; `default` without one.
fn mode_at(entry: &Table, default: Mode) -> Result<Mode, EntryFault>
    ensures { result ≡ spec.number_at (codes "mode") 4095 default (table_view entry.now) }
{
    default.lawful();
    let bits = number_at(entry, "mode", u32::MAX, default.bits())?;
    match Mode::parse(bits) {
        Ok(mode) => Ok(mode),
        Err(_) => Err(EntryFault::Value),
    }
}

// The target of an entry of kind `symlink`.
fn target_of(alloc: Global, entry: &Table) -> Result<LinkTarget, EntryError>
    ensures { Answers result (spec.target_of (table_view entry.now)) }
{
    let text = text_at(entry, "target").unwrap_or("");
    match LinkTarget::parse(Bytes::from_slice(alloc, text.as_bytes())?) {
        Ok(target) => Ok(target),
        Err(_) => Err(EntryError::Fault(EntryFault::Value)),
    }
}

// The whole number at a key, which may be at most `most`; `default` without one.
fn number_at(entry: &Table, key: &str, most: u32, default: u32) -> Result<u32, EntryFault>
    ensures { result ≡ spec.number_at key.now most default (table_view entry.now) }
{
    match integer_at(entry, key) {
        Some(number) => Ok(number_within(most as u64, number)? as u32),
        None => Ok(default),
    }
}

pub(super) fn number_within(most: u64, number: i64) -> Result<u64, EntryFault>
    ensures within { result ≡ spec.within most number }
    ensures most { IfOk result (λ n. n ≤ most) }
{
    if number >= 0 && number as u64 <= most {
        Ok(number as u64)
    } else {
        Err(EntryFault::Value)
    }
}

// The whole number at a key, where there is one.
pub(super) fn integer_at(entry: &Table, key: &str) -> Option<i64>
    ensures { result ≡ spec.integer_at key.now (table_view entry.now) }
{
    value_at(entry, key).and_then(Value::as_integer)
}

// The text at a key, where there is one.
pub(super) fn text_at<'a>(entry: &'a Table, key: &str) -> Option<&'a str>
    ensures { option_copied result ≡ spec.text_at key.now (table_view entry.now) }
{
    value_at(entry, key)?.as_str()
}

pub(super) fn value_at<'a>(table: &'a Table, key: &str) -> Option<&'a Value>
    ensures { option_map (λ v. view v.now) result ≡ get_member key.now (table_view table.now) }
{
    table.get(key)
}

// The array at a key; empty where there is none.
pub(super) fn array_at<'a>(table: &'a Table, key: &str) -> &'a [Value]
    ensures { items_view result.now ≡ spec.items_at key.now (table_view table.now) }
{
    match value_at(table, key).and_then(Value::as_array) {
        Some(items) => items.as_slice(),
        None => &[],
    }
}
