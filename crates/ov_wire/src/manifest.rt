// Manifests: the layers and options of a mount, as TOML.
ghost use Rattle.std.specs.Prelude.{◌≡◌, true, false, [], ◌≢◌, ◌+◌, ◌<◌, ◌≤◌, Ok, Err, IsOk, IsSome, map, length, is_some, IfOk, IfErr, IfSome, Some, None, option_map, string_bytes, IsUtf8, All, if◌then◌else◌};
ghost use Rattle.std.specs.List.{list_all};
ghost use Rattle.std.specs.Vec.{vec_len};
ghost use Rattle.toml.specs.Data.{Members};
ghost use Rattle.toml.specs.Parse.{parse_document};
ghost use Rattle.toml.specs.View.{view, table_view, items_view};
ghost use Rattle.plain_model.specs.Layers.{AreLayers};
ghost use Rattle.plain_model.specs.Limits.{IsWithinLimits, HasShortPaths};
ghost use Rattle.layer_tree.specs.Tree.{layer_of, layers_given};
ghost use Rattle.ov_wire.specs.Manifests.{IsMemory, IsOfEntry, Refuses};
ghost use Rattle.ov_wire.specs.ManifestEntries.{is_array_of};
ghost use Rattle.ov_wire.specs.ManifestLayers as layers;
ghost use Rattle.ov_wire.specs.ManifestLayers.{AreSpelled, HasNoMark, IsTold, layer_items, layers_fault};
ghost use Rattle.ov_wire.specs.Manifests as spec;

mod blob;
mod entry;
mod fault;
mod file_content;
mod link_paths;
mod place;
mod stretch;
mod user_attributes;

pub use blob::Blob;
use entry::{array_at, integer_at, text_at, value_at};
pub use fault::{EntryFault, ManifestFault};
use layer_tree::Layer;
use ov_base::{FILE_LIMIT, Options};
use place::read_layer;
use std::alloc::{AllocError, Global};
use std::hash::RandomState;
use toml::{Table, Value};

/// The most lower layers of a mount.
const LOWERS_MOST: usize = 16;

/// The fewest layers: two lower ones, or an upper and a lower one.
const LAYERS_LEAST: usize = 2;

/// The least and the greatest length of the history, and the length where none is given.
const HISTORY_LEAST: i64 = 2;

const HISTORY_MOST: i64 = 1_000_000;

const HISTORY_DEFAULT: i64 = 100_000;

/// The least and the greatest number of bytes that a file may be limited to.
const FILE_LIMIT_LEAST: i64 = 1;

const FILE_LIMIT_MOST: i64 = 1_099_511_627_776;

/// The layers and options that the bytes of a manifest without blobs spell: the upper, where there is one, then the lowers from the top. The
/// layers hash names with `keys`.
pub fn manifest_of(
    alloc: Global,
    keys: RandomState,
    bytes: &[u8],
) -> Result<(Option<Layer>, Vec<Layer>, Options), ManifestFault>
    ensures not_utf8 { (IsUtf8 bytes.now → ⊥) → Refuses result ManifestFault.NotToml }
    ensures not_toml { parse_document bytes.now ≡ None → Refuses result ManifestFault.NotToml }
    ensures toml { IsUtf8 bytes.now → IsSome (parse_document bytes.now) → result ≢ Err ManifestFault.NotToml }
    ensures whole { (m : Members) → IsUtf8 bytes.now → parse_document bytes.now ≡ Some m → IfErr (spec.whole_of m) (Refuses result) }
    ensures faults { (m : Members) → IsUtf8 bytes.now → parse_document bytes.now ≡ Some m → IfErr (layers.manifest_of [] m) (Refuses result) }
    ensures told { (m : Members) → IsUtf8 bytes.now → parse_document bytes.now ≡ Some m → IfErr result (IsTold (layers.fault_of (layers.manifest_of [] m))) }
    ensures options { IfOk result (λ r. option_map (layers.manifest_of []) (parse_document bytes.now) ≡ Some (Ok r.2)) }
    ensures upper { IfOk result (λ r. option_map spec.has_upper (parse_document bytes.now) ≡ Some (is_some r.0)) }
    ensures redirected { IfOk result (λ r. is_some r.0 ≡ true → r.2.metacopy ≡ true → r.2.redirects ≡ true) }
    ensures spelled { IfOk result (λ r. IfSome (parse_document bytes.now) (λ m. AreSpelled r.2.file_limit [] (layers_given r.0 r.1.items) (layer_items m))) }
    ensures layers { IfOk result (λ r. AreLayers (layers_given r.0 r.1.items)) }
    ensures unmarked { IfOk result (λ r. All HasNoMark (layers_given r.0 r.1.items)) }
    ensures limits { IfOk result (λ r. All (IsWithinLimits r.2.file_limit) (layers_given r.0 r.1.items)) }
    ensures short_paths { IfOk result (λ r. All HasShortPaths (layers_given r.0 r.1.items)) }
    ensures some_lower { IfOk result (λ r. 0 < vec_len r.1) }
    ensures two_lowers { IfOk result (λ r. is_some r.0 ≡ false → 2 ≤ vec_len r.1) }
    ensures few_lowers { IfOk result (λ r. vec_len r.1 ≤ 16) }
{
    let manifest = table_of(alloc, bytes)?;
    layers_of(alloc, keys, &manifest, &[])
}

/// The table that the bytes of a manifest spell.
pub fn table_of(alloc: Global, bytes: &[u8]) -> Result<Table, ManifestFault>
    ensures not_utf8 { (IsUtf8 bytes.now → ⊥) → Refuses result ManifestFault.NotToml }
    ensures not_toml { parse_document bytes.now ≡ None → Refuses result ManifestFault.NotToml }
    ensures toml { IsUtf8 bytes.now → IsSome (parse_document bytes.now) → IfErr result IsMemory }
    ensures table { IfOk result (λ table. parse_document bytes.now ≡ Some (table_view table)) }
{
    match toml::table_from_slice(alloc, bytes) {
        Ok(manifest) => Ok(manifest),
        Err(fault) => {
            if fault.is_memory() {
                Err(ManifestFault::Memory(AllocError))
            } else {
                Err(ManifestFault::NotToml)
            }
        }
    }
}

/// The names of the files whose bytes are a manifest's blobs, or the fault of the whole.
pub fn blobs_of<'a>(alloc: Global, manifest: &'a Table) -> Result<Vec<&'a str>, ManifestFault>
    ensures whole { IfErr (spec.whole_of (table_view manifest.now)) (λ fault. result ≡ Err fault) }
    ensures memory { IsOk (spec.whole_of (table_view manifest.now)) → IfErr result IsMemory }
    ensures names { IfOk result (λ names. map (λ name. name.now) names.items ≡ spec.blob_names (table_view manifest.now)) }
{
    whole_of(manifest)?;
    Ok(texts_in(alloc, array_at(manifest, "blobs"))?)
}

/// The layers and options of a manifest whose blobs have these bytes: the upper, where there is one, then the lowers from the top. The
/// faults of the whole come first, then those of the layers and of their entries in their order.
pub fn layers_of(
    alloc: Global,
    keys: RandomState,
    manifest: &Table,
    blobs: &[Blob],
) -> Result<(Option<Layer>, Vec<Layer>, Options), ManifestFault>
    ensures told { IfErr result (IsTold (layers.fault_of (layers.manifest_of blobs.now (table_view manifest.now)))) }
    ensures whole { IfErr (spec.whole_of (table_view manifest.now)) (λ fault. result ≡ Err fault) }
    ensures toml { result ≢ Err ManifestFault.NotToml }
    ensures entries { IsOk (spec.whole_of (table_view manifest.now)) → IfErr result IsOfEntry }
    ensures options { IfOk result (λ r. layers.manifest_of blobs.now (table_view manifest.now) ≡ Ok r.2) }
    ensures upper { IfOk result (λ r. is_some r.0 ≡ spec.has_upper (table_view manifest.now)) }
    ensures redirected { IfOk result (λ r. is_some r.0 ≡ true → r.2.metacopy ≡ true → r.2.redirects ≡ true) }
    ensures spelled { IfOk result (λ r. AreSpelled r.2.file_limit blobs.now (layers_given r.0 r.1.items) (layer_items (table_view manifest.now))) }
    ensures layers { IfOk result (λ r. AreLayers (layers_given r.0 r.1.items)) }
    ensures unmarked { IfOk result (λ r. All HasNoMark (layers_given r.0 r.1.items)) }
    ensures limits { IfOk result (λ r. All (IsWithinLimits r.2.file_limit) (layers_given r.0 r.1.items)) }
    ensures short_paths { IfOk result (λ r. All HasShortPaths (layers_given r.0 r.1.items)) }
    ensures some_lower { IfOk result (λ r. 0 < vec_len r.1) }
    ensures two_lowers { IfOk result (λ r. is_some r.0 ≡ false → 2 ≤ vec_len r.1) }
    ensures few_lowers { IfOk result (λ r. vec_len r.1 ≤ 16) }
{
    let options = whole_of(manifest)?;
    let has_upper = has_upper(manifest);
    let tables = layers_in(manifest);
    let layers = read_layers(alloc, keys, options.file_limit, blobs, tables)?;
    let (upper, lowers) = parted(has_upper, layers);
    Ok((upper, lowers, options))
}

// The options, where nothing of the whole is at fault.
fn whole_of(manifest: &Table) -> Result<Options, ManifestFault>
    ensures said { result ≡ spec.whole_of (table_view manifest.now) }
    ensures redirected { IfOk result (λ options. spec.has_upper (table_view manifest.now) ≡ true → options.metacopy ≡ true → options.redirects ≡ true) }
    ensures count { IfOk result (λ _. spec.is_layer_count (spec.has_upper (table_view manifest.now)) (spec.layer_count (table_view manifest.now)) ≡ true) }
{
    let options = options_of(manifest)?;
    if is_layer_count(has_upper(manifest), layers_in(manifest).len()) {
        Ok(options)
    } else {
        Err(ManifestFault::Layers)
    }
}

// The layers from the top, which are numbered from 0, each from its entries, in which a file has at most `limit` bytes and may be part of
// a blob.
fn read_layers(
    alloc: Global,
    keys: RandomState,
    limit: u64,
    blobs: &[Blob],
    tables: &[Value],
) -> Result<Vec<Layer>, ManifestFault>
    requires { length tables.now ≤ 17 }
    ensures count { IfOk result (λ layers. vec_len layers ≡ length tables.now) }
    ensures err { IfErr result IsOfEntry }
    ensures told { IfErr result (IsTold (layers_fault limit blobs.now 0 (items_view tables.now))) }
    ensures spelled { IfOk result (λ layers. AreSpelled limit blobs.now (map layer_of layers.items) (items_view tables.now)) }
    ensures layers { IfOk result (λ layers. AreLayers (map layer_of layers.items)) }
    ensures unmarked { IfOk result (λ layers. All HasNoMark (map layer_of layers.items)) }
{
    let mut layers = Vec::with_capacity(alloc, tables.len())?;
    for (index, table) in tables.iter().enumerate() {
        layers.push(read_layer(alloc, keys, limit, blobs, index, entries_in(table))?)?;
    }
    Ok(layers)
}

// The upper, where there is one, and the lowers.
fn parted(has_upper: bool, mut layers: Vec<Layer>) -> (Option<Layer>, Vec<Layer>)
    requires { 0 < vec_len layers }
    ensures given { layers_given result.0 result.1.items ≡ map layer_of layers.items }
    ensures upper { is_some result.0 ≡ has_upper }
    ensures lowers { vec_len layers ≡ (if has_upper then vec_len result.1 + 1 else vec_len result.1) }
{
    if has_upper {
        let upper = layers.remove(0);
        (Some(upper), layers)
    } else {
        (None, layers)
    }
}

// Whether there is an upper layer; without the key there is.
fn has_upper(manifest: &Table) -> bool
    ensures { result ≡ spec.has_upper (table_view manifest.now) }
{
    value_at(manifest, "upper")
        .and_then(Value::as_bool)
        .unwrap_or(true)
}

// Whether there may be so many layers, with an upper or without.
fn is_layer_count(has_upper: bool, count: usize) -> bool
    ensures { result ≡ spec.is_layer_count has_upper count }
{
    count >= LAYERS_LEAST && count <= layers_most(has_upper)
}

fn layers_most(has_upper: bool) -> usize
    ensures { result ≡ spec.layers_most has_upper }
{
    if has_upper {
        LOWERS_MOST + 1
    } else {
        LOWERS_MOST
    }
}

// The options, where no key of the whole is at fault.
fn options_of(manifest: &Table) -> Result<Options, ManifestFault>
    ensures said { result ≡ spec.options_of (table_view manifest.now) }
    ensures redirected { IfOk result (λ options. spec.has_upper (table_view manifest.now) ≡ true → options.metacopy ≡ true → options.redirects ≡ true) }
{
    check_keys(manifest)?;
    let redirects = redirects_of(manifest)?;
    let metacopy = metacopy_of(manifest, redirects || !has_upper(manifest))?;
    let history = history_of(manifest)?;
    let file_limit = file_limit_of(manifest)?;
    check_blobs(manifest)?;
    Ok(Options {
        redirects,
        metacopy,
        history,
        file_limit,
    })
}

fn check_keys(manifest: &Table) -> Result<(), ManifestFault>
    ensures { result ≡ spec.checked (table_view manifest.now) }
{
    if has_top_keys(manifest) {
        Ok(())
    } else {
        Err(ManifestFault::Key)
    }
}

fn has_top_keys(manifest: &Table) -> bool
    ensures { result ≡ list_all (λ e. spec.is_top_key (string_bytes e.0) (view e.1)) manifest.now.entries }
{
    manifest
        .iter()
        .all(|(key, value)| is_top_key(key.as_str(), value))
}

// Whether the key may stand at the top, with such a value; that of `blobs` is judged later.
fn is_top_key(key: &str, value: &Value) -> bool
    ensures { result ≡ spec.is_top_key key.now (view value.now) }
{
    match key {
        "redirect_dir" => value.is_str(),
        "metacopy" => value.is_str(),
        "history" | "file_limit" => value.is_integer(),
        "upper" => value.is_bool(),
        "layer" => is_array_of_layers(value),
        "blobs" => true,
        _ => false,
    }
}

fn is_array_of_layers(value: &Value) -> bool
    ensures { result ≡ is_array_of spec.is_layer (view value.now) }
{
    match value.as_array() {
        Some(layers) => are_layers(layers),
        None => false,
    }
}

fn are_layers(layers: &[Value]) -> bool
    ensures { result ≡ list_all (λ v. spec.is_layer (view v)) layers.now }
{
    layers.iter().all(|layer| is_layer(layer))
}

// Whether it is a table with at most the key `entry`, an array of tables.
fn is_layer(layer: &Value) -> bool
    ensures { result ≡ spec.is_layer (view layer.now) }
{
    match layer.as_table() {
        Some(keys) => has_layer_keys(keys),
        None => false,
    }
}

fn has_layer_keys(layer: &Table) -> bool
    ensures { result ≡ list_all (λ e. spec.is_layer_key (string_bytes e.0) (view e.1)) layer.now.entries }
{
    layer
        .iter()
        .all(|(key, value)| is_layer_key(key.as_str(), value))
}

fn is_layer_key(key: &str, value: &Value) -> bool
    ensures { result ≡ spec.is_layer_key key.now (view value.now) }
{
    key == "entry" && is_array_of_tables(value)
}

fn is_array_of_tables(value: &Value) -> bool
    ensures { result ≡ is_array_of spec.is_table (view value.now) }
{
    match value.as_array() {
        Some(values) => are_tables(values),
        None => false,
    }
}

fn are_tables(values: &[Value]) -> bool
    ensures { result ≡ list_all (λ v. spec.is_table (view v)) values.now }
{
    values.iter().all(|value| value.is_table())
}

// Whether renames of merged directories make redirects; without the key they don't.
fn redirects_of(manifest: &Table) -> Result<bool, ManifestFault>
    ensures { result ≡ spec.redirects_of (table_view manifest.now) }
{
    match text_at(manifest, "redirect_dir") {
        Some(word) => redirects_named(word),
        None => Ok(false),
    }
}

fn redirects_named(word: &str) -> Result<bool, ManifestFault>
    ensures { result ≡ spec.redirects_named word.now }
{
    match word {
        "on" => Ok(true),
        "off" => Ok(false),
        _ => Err(ManifestFault::RedirectDir),
    }
}

// Whether files are copied up without their bytes, which is a fault where they may not be; without
// the key they aren't.
fn metacopy_of(manifest: &Table, may: bool) -> Result<bool, ManifestFault>
    ensures said { result ≡ spec.metacopy_of may (table_view manifest.now) }
    ensures may { IfOk result (λ metacopy. metacopy ≡ true → may ≡ true) }
{
    match text_at(manifest, "metacopy") {
        Some(word) => metacopy_named(word, may),
        None => Ok(false),
    }
}

fn metacopy_named(word: &str, may: bool) -> Result<bool, ManifestFault>
    ensures said { result ≡ spec.metacopy_named may word.now }
    ensures may { IfOk result (λ metacopy. metacopy ≡ true → may ≡ true) }
{
    match word {
        "on" if may => Ok(true),
        "off" => Ok(false),
        _ => Err(ManifestFault::Metacopy),
    }
}

fn history_of(manifest: &Table) -> Result<u32, ManifestFault>
    ensures { result ≡ spec.history_of (table_view manifest.now) }
{
    history_within(integer_at(manifest, "history").unwrap_or(HISTORY_DEFAULT))
}

fn history_within(history: i64) -> Result<u32, ManifestFault>
    ensures { result ≡ spec.history_within history }
{
    if history >= HISTORY_LEAST && history <= HISTORY_MOST {
        Ok(history as u32)
    } else {
        Err(ManifestFault::History)
    }
}

fn file_limit_of(manifest: &Table) -> Result<u64, ManifestFault>
    ensures { result ≡ spec.file_limit_of (table_view manifest.now) }
{
    match integer_at(manifest, "file_limit") {
        Some(limit) => file_limit_within(limit),
        None => Ok(FILE_LIMIT),
    }
}

fn file_limit_within(limit: i64) -> Result<u64, ManifestFault>
    ensures { result ≡ spec.file_limit_within limit }
{
    if limit >= FILE_LIMIT_LEAST && limit <= FILE_LIMIT_MOST {
        Ok(limit as u64)
    } else {
        Err(ManifestFault::FileLimit)
    }
}

// The blobs have to be an array of texts, where the key is there.
fn check_blobs(manifest: &Table) -> Result<(), ManifestFault>
    ensures { result ≡ spec.blobs_checked (table_view manifest.now) }
{
    match value_at(manifest, "blobs") {
        Some(blobs) if !is_array_of_texts(blobs) => Err(ManifestFault::Blobs),
        _ => Ok(()),
    }
}

fn is_array_of_texts(value: &Value) -> bool
    ensures { result ≡ is_array_of spec.is_text (view value.now) }
{
    match value.as_array() {
        Some(values) => are_texts(values),
        None => false,
    }
}

fn are_texts(values: &[Value]) -> bool
    ensures { result ≡ list_all (λ v. spec.is_text (view v)) values.now }
{
    values.iter().all(|value| value.is_str())
}

// The texts of an array of texts.
fn texts_in<'a>(alloc: Global, values: &'a [Value]) -> Result<Vec<&'a str>, AllocError>
    ensures { IfOk result (λ texts. map (λ text. text.now) texts.items ≡ spec.texts_in (items_view values.now)) }
{
    let mut texts = Vec::with_capacity(alloc, values.len())?;
    for value in values {
        texts.push(value.as_str().unwrap_or(""))?;
    }
    Ok(texts)
}

// The layers as tables, the upper first; none where there is no such key.
fn layers_in(manifest: &Table) -> &[Value]
    ensures count { length result.now ≡ spec.layer_count (table_view manifest.now) }
    ensures items { items_view result.now ≡ layer_items (table_view manifest.now) }
{
    array_at(manifest, "layer")
}

// The entries of a layer; none where there is no such key.
fn entries_in(layer: &Value) -> &[Value]
    ensures { items_view result.now ≡ spec.entries_in (view layer.now) }
{
    match layer.as_table() {
        Some(keys) => array_at(keys, "entry"),
        None => &[],
    }
}
