// What the entries of a manifest say, read for the slow reference alone.
use crate::blobs::part_of_blob;
use crate::list::List;
use crate::plain_layer::PlainLayer;
use std::alloc::{AllocError, Global};
use toml::{Table, Value};

/// What entries describe.
#[derive(Clone, Copy, PartialEq, Eq)]
pub enum Kind {
    Directory,
    File,
    SymbolicLink,
    Whiteout,
}

/// The bytes of a file, or of the target of a symbolic link, as a manifest spells them.
#[derive(Clone, Copy)]
pub enum Spelling<'a> {
    Text(&'a [u8]),
    /// Two hexadecimal digits for each byte.
    Digits(&'a str),
    /// So many zero bytes.
    Zeros(u32),
}

/// An entry of a layer, whose path is `/a/b`, and empty for the root.
#[derive(Clone, Copy)]
pub struct Entry<'a> {
    pub path: &'a [u8],
    /// Where the object was described first: elsewhere for an entry of kind `link`.
    pub first: &'a [u8],
    pub kind: Kind,
    pub mode: u32,
    pub uid: u32,
    pub gid: u32,
    /// The user attributes, each an array of its name and its value.
    pub user: &'a [Value],
    pub bytes: Spelling<'a>,
    /// How many names the object has in its layer.
    pub links: u32,
    pub opaque: bool,
    pub redirect: Option<&'a [u8]>,
    /// The path of the lower file whose bytes a file without bytes of its own shows, which no manifest says.
    pub metacopy: Option<&'a [u8]>,
}

impl<'a> Entry<'a> {
    /// One of this kind at a path, with nothing told of it.
    pub fn bare(path: &'a [u8], kind: Kind) -> Entry<'a> {
        Entry {
            path,
            first: path,
            kind,
            mode: mode_unless_told(kind),
            uid: 0,
            gid: 0,
            user: &[],
            bytes: Spelling::Zeros(0),
            links: 1,
            opaque: false,
            redirect: None,
            metacopy: None,
        }
    }
}

/// The layers of a manifest, the upper first; without one, an upper that holds nothing, with the root of the first layer. None where the
/// manifest isn't of that form.
pub fn layers_of<'a>(
    alloc: Global,
    manifest: &'a Table,
) -> Result<Option<Vec<PlainLayer<'a>>>, AllocError> {
    let mut layers = List::new(alloc);
    let is_of_form = put_layers(alloc, manifest, &mut layers);
    let layers = layers.end()?;
    if is_of_form {
        Ok(Some(layers))
    } else {
        Ok(None)
    }
}

// Adds the layers of a manifest; false where one isn't of that form.
fn put_layers<'a>(alloc: Global, manifest: &'a Table, layers: &mut List<PlainLayer<'a>>) -> bool {
    for layer in items(manifest.get("layer")) {
        match entries_of(alloc, layer) {
            Ok(Some(entries)) => layers.put(with_links(alloc, entries.as_slice())),
            Ok(None) => return false,
            Err(fault) => layers.put(Err(fault)),
        }
    }
    if !has_upper(manifest) {
        put_bare(alloc, layers);
    }
    true
}

/// Whether the first layer of a manifest is an upper.
pub fn has_upper(manifest: &Table) -> bool {
    !matches!(manifest.get("upper"), Some(Value::Boolean(false)))
}

// Puts an upper that holds nothing above layers, with the root of the first.
fn put_bare(alloc: Global, layers: &mut List<PlainLayer<'_>>) {
    if let Some(first) = layers.as_slice().first() {
        let upper = first.bare(alloc);
        layers.put_first(upper);
    }
}

fn items(value: Option<&Value>) -> &[Value] {
    match value {
        Some(Value::Array(items)) => items.as_slice(),
        _ => &[],
    }
}

// The entries of a layer. None where it isn't of that form.
fn entries_of<'a>(alloc: Global, layer: &'a Value) -> Result<Option<Vec<Entry<'a>>>, AllocError> {
    let mut entries = List::new(alloc);
    let is_of_form = match layer {
        Value::Table(layer) => put_entries(items(layer.get("entry")), &mut entries),
        _ => false,
    };
    let entries = entries.end()?;
    if is_of_form {
        Ok(Some(entries))
    } else {
        Ok(None)
    }
}

// Adds entries; false where one isn't of that form.
fn put_entries<'a>(told: &'a [Value], entries: &mut List<Entry<'a>>) -> bool {
    for entry in told {
        match entry_of(entries.as_slice(), entry) {
            Some(entry) => entries.add(entry),
            None => return false,
        }
    }
    true
}

// The layer of these entries, each with the number of its object's names.
fn with_links<'a>(alloc: Global, entries: &[Entry<'a>]) -> Result<PlainLayer<'a>, AllocError> {
    let mut list = List::new(alloc);
    for entry in entries {
        let mut linked = *entry;
        linked.links = names_of(entries, entry.first);
        list.add(linked);
    }
    Ok(PlainLayer {
        entries: list.end()?,
    })
}

// How many names the object has that was described first at a path.
fn names_of(entries: &[Entry<'_>], first: &[u8]) -> u32 {
    let mut count = 0u32;
    for entry in entries {
        if entry.first == first {
            count = count.saturating_add(1);
        }
    }
    count
}

fn entry_of<'a>(earlier: &[Entry<'a>], entry: &'a Value) -> Option<Entry<'a>> {
    let Value::Table(table) = entry else {
        return None;
    };
    let path = path_in(bytes_at(table, "path")?);
    match text_at(table, "kind") {
        Some("link") => further_name(earlier, path, bytes_at(table, "to")),
        Some(kind) => object_of(table, path, kind_named(kind)),
        None => None,
    }
}

// A further name of what an earlier entry describes.
fn further_name<'a>(earlier: &[Entry<'a>], path: &'a [u8], to: Option<&[u8]>) -> Option<Entry<'a>> {
    let to = to?;
    for described in earlier {
        if described.path == to {
            let mut named = *described;
            named.path = path;
            return Some(named);
        }
    }
    None
}

fn object_of<'a>(table: &'a Table, path: &'a [u8], kind: Option<Kind>) -> Option<Entry<'a>> {
    let mut entry = Entry::bare(path, kind?);
    entry.user = items(table.get("attrs"));
    entry.opaque = is_set(table, "opaque");
    entry.redirect = bytes_at(table, "redirect");
    if take_numbers(table, &mut entry) && take_bytes(table, &mut entry) {
        Some(entry)
    } else {
        None
    }
}

// Takes the mode and the owners; false where one isn't a number.
fn take_numbers(table: &Table, entry: &mut Entry<'_>) -> bool {
    let mode = number_at(table, "mode", entry.mode);
    let uid = number_at(table, "uid", 0);
    let gid = number_at(table, "gid", 0);
    match (mode, uid, gid) {
        (Some(mode), Some(uid), Some(gid)) => {
            entry.mode = mode;
            entry.uid = uid;
            entry.gid = gid;
            true
        }
        _ => false,
    }
}

// Takes the bytes; false where they aren't spelled.
fn take_bytes<'a>(table: &'a Table, entry: &mut Entry<'a>) -> bool {
    match spelling_in(entry.kind, table) {
        Some(bytes) => {
            entry.bytes = bytes;
            true
        }
        None => false,
    }
}

fn bytes_at<'a>(table: &'a Table, key: &str) -> Option<&'a [u8]> {
    match table.get(key) {
        Some(Value::String(text)) => Some(text.as_bytes()),
        _ => None,
    }
}

fn text_at<'a>(table: &'a Table, key: &str) -> Option<&'a str> {
    match table.get(key) {
        Some(Value::String(text)) => Some(text.as_str()),
        _ => None,
    }
}

fn is_set(table: &Table, key: &str) -> bool {
    matches!(table.get(key), Some(Value::Boolean(true)))
}

fn spelling_in(kind: Kind, table: &Table) -> Option<Spelling<'_>> {
    if kind == Kind::SymbolicLink {
        return text_in(bytes_at(table, "target"));
    }
    if let Some(digits) = text_at(table, "hex") {
        return Some(Spelling::Digits(digits));
    }
    if table.get("blob").is_some() {
        return text_in(part_in(table));
    }
    match bytes_at(table, "text") {
        Some(text) => Some(Spelling::Text(text)),
        None => zeros_in(table),
    }
}

fn text_in(bytes: Option<&[u8]>) -> Option<Spelling<'_>> {
    match bytes {
        Some(bytes) => Some(Spelling::Text(bytes)),
        None => None,
    }
}

fn zeros_in<'a>(table: &Table) -> Option<Spelling<'a>> {
    match number_at(table, "zeros", 0) {
        Some(count) => Some(Spelling::Zeros(count)),
        None => None,
    }
}

// The part of a blob that an entry takes.
fn part_in(table: &Table) -> Option<&'static [u8]> {
    let number = number_at(table, "blob", 0);
    let start = number_at(table, "at", 0);
    let (Some(number), Some(start)) = (number, start) else {
        return None;
    };
    if table.get("size").is_none() {
        return part_of_blob(number, start, None);
    }
    match number_at(table, "size", 0) {
        Some(size) => part_of_blob(number, start, Some(size)),
        None => None,
    }
}

/// The path of an entry, for a path text.
pub fn path_in(path: &[u8]) -> &[u8] {
    if path == b"/".as_slice() { &[] } else { path }
}

fn kind_named(kind: &str) -> Option<Kind> {
    match kind {
        "dir" => Some(Kind::Directory),
        "file" => Some(Kind::File),
        "symlink" => Some(Kind::SymbolicLink),
        "whiteout" => Some(Kind::Whiteout),
        _ => None,
    }
}

fn mode_unless_told(kind: Kind) -> u32 {
    match kind {
        Kind::Directory => 0o755,
        Kind::SymbolicLink => 0o777,
        Kind::File | Kind::Whiteout => 0o644,
    }
}

fn number_at(table: &Table, key: &str, without: u32) -> Option<u32> {
    match table.get(key) {
        None => Some(without),
        Some(Value::Integer(number)) => u32::try_from(*number).ok(),
        Some(_) => None,
    }
}
