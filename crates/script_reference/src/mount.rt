// The mount of a manifest, by the slow reference.
use crate::answers::{not_taken_line, reply_line};
use crate::entries::{has_upper, layers_of};
use crate::history::History;
use crate::layer_lines::push_layer;
use crate::opening::reference_of;
use crate::pending::Begun;
use crate::plain_layer::{PlainLayer, push_name};
use crate::text::Text;
use crate::tree_lines::push_tree;
use ov_base::{Call, Errno, Name, Path};
use plain_reference::{MountOptions, Reference};
use std::alloc::{AllocError, Global};
use std::collections::BTreeMap;
use toml::{Table, Value};

/// The most bytes of a file where a manifest doesn't say otherwise.
const FILE_LIMIT: u64 = 1_048_576;

/// The reference, what its mount began with, its history, and the calls in steps of its clients.
#[derive(Drop)]
pub struct PlainMount {
    pub reference: Reference,
    manifest: Table,
    // How many layers there are, with the upper that holds nothing where the manifest has none.
    layers: usize,
    pub history: History,
    /// The call of each client that has begun one and to which no answer came.
    pub begun: BTreeMap<u32, Begun>,
}

/// The mount of a manifest. None where it isn't one.
pub fn mount_of(alloc: Global, manifest: &[u8]) -> Result<Option<PlainMount>, AllocError> {
    let Ok(manifest) = toml::table_from_slice(alloc, manifest) else {
        return Ok(None);
    };
    match opened(alloc, &manifest) {
        Ok(Some((reference, layers))) => {
            let history = History::of(&manifest);
            Ok(Some(PlainMount {
                reference,
                manifest,
                layers,
                history,
                begun: BTreeMap::new(alloc),
            }))
        }
        Ok(None) => {
            drop(manifest);
            Ok(None)
        }
        Err(fault) => {
            drop(manifest);
            Err(fault)
        }
    }
}

// The reference of a manifest, and how many layers it has.
fn opened(alloc: Global, manifest: &Table) -> Result<Option<(Reference, usize)>, AllocError> {
    let Some(layers) = layers_of(alloc, manifest)? else {
        return Ok(None);
    };
    let options = MountOptions {
        redirects: is_on(manifest, "redirect_dir"),
        metacopy: is_on(manifest, "metacopy"),
        read_only: !has_upper(manifest),
        file_limit: file_limit_of(manifest),
    };
    match reference_of(alloc, layers.as_slice(), options)? {
        Some(reference) => Ok(Some((reference, layers.len()))),
        None => Ok(None),
    }
}

// The most bytes of a file.
fn file_limit_of(manifest: &Table) -> u64 {
    manifest
        .get("file_limit")
        .and_then(Value::as_integer)
        .and_then(|limit| u64::try_from(limit).ok())
        .unwrap_or(FILE_LIMIT)
}

// Whether a manifest has an option on.
fn is_on(manifest: &Table, option: &str) -> bool {
    manifest.get(option).and_then(Value::as_str) == Some("on")
}

impl PlainMount {
    /// Whether the mount has an upper.
    pub fn has_upper(&self) -> bool {
        has_upper(&self.manifest)
    }

    /// Whether there is a layer of a number; without an upper there is none of 0.
    pub fn has_layer(&self, index: usize) -> bool {
        index < self.layers && (index > 0 || self.has_upper())
    }

    /// Whether a client is attached and has begun no call.
    pub fn may_call(&self, client: u32) -> bool {
        self.reference.is_attached(client) && !self.begun.contains_key(&client)
    }

    /// The line of a call, which is made if the history has a place for it.
    pub fn make(&mut self, alloc: Global, client: u32, call: &Call) -> Result<String, AllocError> {
        if self.history.room() == 0 {
            return not_taken_line(alloc, client, Errno::ENOSPC);
        }
        match self.reference.call(client, call)? {
            Some(reply) => {
                self.history.finish();
                let line = reply_line(alloc, client, &reply);
                drop(reply);
                line
            }
            None => String::from_str(alloc, "not offered\n"),
        }
    }

    /// The lines of the merged tree.
    pub fn merge_lines(&self, alloc: Global) -> Result<String, AllocError> {
        let mut lines = Text::new(alloc);
        push_tree(alloc, &self.reference, &mut lines);
        lines.end()
    }

    /// The layers of the manifest, the upper first.
    pub fn layers(&self, alloc: Global) -> Result<Vec<PlainLayer<'_>>, AllocError> {
        match layers_of(alloc, &self.manifest)? {
            Some(layers) => Ok(layers),
            None => Ok(Vec::new(alloc)),
        }
    }

    /// The layers of the manifest, with this upper in place of its own.
    pub fn layers_below<'a>(
        &'a self,
        alloc: Global,
        upper: PlainLayer<'a>,
    ) -> Result<Vec<PlainLayer<'a>>, AllocError> {
        let mut layers = self.layers(alloc)?;
        if let Some(first) = layers.first_mut() {
            *first = upper;
        }
        Ok(layers)
    }

    /// The mark of what stands at a path of the upper: the path by which the layers below have the
    /// file, as this upper of the manifest hands on where it was. None where its bytes are its own.
    pub fn mark_at(
        &self,
        alloc: Global,
        upper: &PlainLayer<'_>,
        path: &[u8],
    ) -> Result<Option<Vec<u8>>, AllocError> {
        match self.began_at(alloc, path)? {
            Some(began) => {
                let handed = upper.hands_on(alloc, began.as_slice())?;
                Ok(Some(handed.spelling))
            }
            None => Ok(None),
        }
    }

    // Where the file began whose bytes what stands at a path shows, if its bytes aren't its own.
    fn began_at(&self, alloc: Global, path: &[u8]) -> Result<Option<Vec<u8>>, AllocError> {
        let Ok(path) = Path::parse(alloc, path)? else {
            return Ok(None);
        };
        match self.reference.marked_from(&path)? {
            Some(names) => Ok(Some(path_text(alloc, names.as_slice())?)),
            None => Ok(None),
        }
    }

    /// The lines of a layer, as the manifest describes it. A lower layer stays so.
    pub fn layer_lines(&self, alloc: Global, index: usize) -> Result<String, AllocError> {
        let layers = self.layers(alloc)?;
        let mut lines = Text::new(alloc);
        if let Some(layer) = layers.get(index) {
            push_layer(alloc, layer, &mut lines);
        }
        lines.end()
    }
}

// The text of a path whose names these are, the last one first.
fn path_text(alloc: Global, names: &[Name]) -> Result<Vec<u8>, AllocError> {
    let mut text = Vec::new(alloc);
    for name in names.iter().rev() {
        push_name(&mut text, name.as_slice())?;
    }
    Ok(text)
}

/// The lines of the tree that layers show; none where the root of the upper has no mode.
pub fn lines_of(alloc: Global, layers: &[PlainLayer<'_>]) -> Result<String, AllocError> {
    let mut lines = Text::new(alloc);
    let options = MountOptions {
        redirects: false,
        metacopy: false,
        read_only: false,
        file_limit: FILE_LIMIT,
    };
    if let Some(reference) = reference_of(alloc, layers, options)? {
        push_tree(alloc, &reference, &mut lines);
        drop(reference);
    }
    lines.end()
}
