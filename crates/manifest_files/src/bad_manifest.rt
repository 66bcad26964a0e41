// Where a manifest is at fault, for a person. Its file is read once more, and keys are judged by the
// reader of manifests itself, in an entry without one of them.
use crate::described::STANDARD_INPUT;
use crate::lines::{line_of_key, line_of_text};
use crate::reading::bytes_of;
use command_line::Source;
use ov_script::Escaped;
use ov_wire::{EntryFault, ManifestFault, blobs_of, layers_of, table_of};
use std::alloc::{AllocError, Global};
use std::fs::Files;
use std::hash::RandomState;
use std::random::RandomSource;
use toml::{Table, Value};

/// The keys that say which bytes of a blob a file has.
const BLOB_KEYS: [&str; 3] = ["blob", "at", "size"];

/// The file that is at fault, and the line, the path and the key, as far as they can be told.
pub(crate) fn place_of<R: Files + RandomSource + AllocGlobal>(
    rt: &R,
    source: &Source<'_>,
    file: &str,
    fault: &ManifestFault,
) -> Result<String, AllocError> {
    if file == STANDARD_INPUT && file == source.manifest {
        return String::from_str(rt.alloc(), "standard input");
    }
    let mut place = String::from_str(rt.alloc(), file)?;
    let Ok(bytes) = bytes_of(rt, file, source.manifest_limit) else {
        return Ok(place);
    };
    let (Ok(table), Ok(keys)) = (table_of(rt.alloc(), bytes.as_slice()), RandomState::new(rt))
    else {
        return Ok(place);
    };
    let reader = Reader {
        alloc: rt.alloc(),
        keys,
        bytes: bytes.as_slice(),
        table: &table,
    };
    match fault {
        ManifestFault::Entry {
            layer,
            entry,
            fault,
        } => {
            reader.add_entry(*layer, *entry, *fault, &mut place)?;
        }
        fault => reader.add_key(fault, &mut place)?,
    }
    Ok(place)
}

// A manifest that is read once more, and its bytes.
#[derive(Clone, Copy)]
struct Reader<'a> {
    alloc: Global,
    keys: RandomState,
    bytes: &'a [u8],
    table: &'a Table,
}

impl Reader<'_> {
    // Adds what is known of a key of the whole.
    fn add_key(&self, fault: &ManifestFault, place: &mut String) -> Result<(), AllocError> {
        let Some(key) = self.key_of(fault)? else {
            return Ok(());
        };
        if let Some(line) = line_of_key(self.bytes, key) {
            write!(place, ", line {line}")?;
        }
        let key = Escaped(key.as_bytes());
        write!(place, ", {key}")
    }

    // The key of the whole that is at fault.
    fn key_of(&self, fault: &ManifestFault) -> Result<Option<&str>, AllocError> {
        match fault {
            ManifestFault::RedirectDir => Ok(Some("redirect_dir")),
            ManifestFault::Metacopy => Ok(Some("metacopy")),
            ManifestFault::History => Ok(Some("history")),
            ManifestFault::FileLimit => Ok(Some("file_limit")),
            ManifestFault::Blobs => Ok(Some("blobs")),
            ManifestFault::Layers => Ok(Some("layer")),
            ManifestFault::Key => self.bad_key(),
            _ => Ok(None),
        }
    }

    // The first key that no manifest may have so, alone beside two empty layers.
    fn bad_key(&self) -> Result<Option<&str>, AllocError> {
        for (key, value) in self.table.iter() {
            if key.as_str() != "layer" && self.is_bad(key.as_str(), value)? {
                return Ok(Some(key.as_str()));
            }
        }
        Ok(Some("layer"))
    }

    fn is_bad(&self, key: &str, value: &Value) -> Result<bool, AllocError> {
        let mut table = Table::new(self.alloc);
        put(self.alloc, &mut table, key, value.clone()?)?;
        let judged = blobs_of(self.alloc, &table);
        Ok(matches!(judged, Err(ManifestFault::Key)))
    }

    // Adds what is known of an entry.
    fn add_entry(
        &self,
        layer: usize,
        entry: usize,
        fault: EntryFault,
        place: &mut String,
    ) -> Result<(), AllocError> {
        let Some(found) = entry_at(self.table, layer, entry) else {
            return Ok(());
        };
        if let Some(path) = found.get("path").and_then(Value::as_str) {
            if let Some(line) = line_of_text(self.bytes, self.table, (layer, entry), path) {
                write!(place, ", line {line}")?;
            }
            let path = Escaped(path.as_bytes());
            write!(place, ", {path}")?;
        }
        if let Some(key) = self.key_in(found, fault)? {
            let key = Escaped(key.as_bytes());
            write!(place, ", {key}")?;
        }
        Ok(())
    }

    // The key of an entry that is at fault.
    fn key_in<'e>(
        &self,
        entry: &'e Table,
        fault: EntryFault,
    ) -> Result<Option<&'e str>, AllocError> {
        match fault {
            EntryFault::Kind => Ok(Some("kind")),
            EntryFault::Path | EntryFault::Parent | EntryFault::Exists => Ok(Some("path")),
            EntryFault::Link => Ok(Some("to")),
            EntryFault::Key | EntryFault::Value => self.judged_key(entry, fault),
        }
    }

    // The first key without which the fault goes. What is said of a blob is judged together, as its bytes
    // aren't at hand.
    fn judged_key<'e>(
        &self,
        entry: &'e Table,
        fault: EntryFault,
    ) -> Result<Option<&'e str>, AllocError> {
        if !self.is_at_fault(entry, "", fault)? {
            return Ok(BLOB_KEYS.into_iter().find(|key| entry.get(*key).is_some()));
        }
        for (key, _) in entry.iter() {
            let key = key.as_str();
            if key != "path" && key != "kind" && !self.is_at_fault(entry, key, fault)? {
                return Ok(Some(key));
            }
        }
        Ok(None)
    }

    // Whether an entry has this fault still without a key, and without what is said of a blob.
    fn is_at_fault(&self, entry: &Table, but: &str, fault: EntryFault) -> Result<bool, AllocError> {
        let table = self.alone(entry, but)?;
        match layers_of(self.alloc, self.keys, &table, &[]) {
            Err(ManifestFault::Entry { fault: found, .. }) => Ok(found == fault),
            Err(ManifestFault::Memory(error)) => Err(error),
            _ => Ok(false),
        }
    }

    // A manifest with this entry alone, and without a key of it.
    fn alone(&self, entry: &Table, but: &str) -> Result<Table, AllocError> {
        let mut left = Table::new(self.alloc);
        for (key, value) in entry.iter() {
            let key = key.as_str();
            if key != but && !BLOB_KEYS.contains(&key) {
                put(self.alloc, &mut left, key, value.clone()?)?;
            }
        }
        let mut layer = Table::new(self.alloc);
        let entries = vec![in self.alloc; Value::Table(left)]?;
        put(self.alloc, &mut layer, "entry", Value::Array(entries))?;
        let above = Table::new(self.alloc);
        let layers = vec![in self.alloc; Value::Table(above), Value::Table(layer)]?;
        let mut table = Table::new(self.alloc);
        put(self.alloc, &mut table, "layer", Value::Array(layers))?;
        if let Some(limit) = self.table.get("file_limit") {
            put(self.alloc, &mut table, "file_limit", limit.clone()?)?;
        }
        Ok(table)
    }
}

fn put(alloc: Global, table: &mut Table, key: &str, value: Value) -> Result<(), AllocError> {
    let key = String::from_str(alloc, key)?;
    drop(table.insert(key, value)?);
    Ok(())
}

// An entry of a layer; both count from 0.
fn entry_at(table: &Table, layer: usize, entry: usize) -> Option<&Table> {
    table
        .get("layer")?
        .get(layer)?
        .get("entry")?
        .get(entry)?
        .as_table()
}
