// What one layer holds at a whole path, and how it hands the path on.
use crate::entries::{Entry, Kind};
use crate::list::List;
use std::alloc::{AllocError, Global};
use std::cmp::Reverse;

/// A layer: its entries in the order of the manifest.
#[derive(Drop)]
pub struct PlainLayer<'a> {
    pub entries: Vec<Entry<'a>>,
}

/// How a layer hands a path on to the layer below it: in which spelling, and whether it is cut, so that nothing below is shown there.
#[derive(Drop)]
pub struct HandedOn {
    pub spelling: Vec<u8>,
    pub is_cut: bool,
}

impl<'a> PlainLayer<'a> {
    /// What the layer holds at a path.
    pub fn held(&self, path: &[u8]) -> Option<Entry<'a>> {
        for entry in self.entries.as_slice() {
            if entry.path == path {
                return Some(*entry);
            }
        }
        None
    }

    /// The root, a directory without marks, as an entry says or else as each layer has it.
    pub fn root(&self) -> Entry<'a> {
        match self.held(&[]) {
            Some(entry) => {
                let mut root = entry;
                root.kind = Kind::Directory;
                root.opaque = false;
                root.redirect = None;
                root
            }
            None => Entry::bare(&[], Kind::Directory),
        }
    }

    /// A layer that holds nothing, with the root of this one.
    pub fn bare(&self, alloc: Global) -> Result<PlainLayer<'a>, AllocError> {
        let mut entries = List::new(alloc);
        entries.add(self.root());
        Ok(PlainLayer {
            entries: entries.end()?,
        })
    }

    /// What it holds in a directory, the last name first.
    pub fn inside(&self, alloc: Global, directory: &[u8]) -> Result<Vec<Entry<'a>>, AllocError> {
        let mut inside = List::new(alloc);
        for entry in self.entries.as_slice() {
            if is_inside(entry.path, directory) {
                inside.add(*entry);
            }
        }
        sorted(inside.end()?)
    }

    /// Takes its whiteouts out.
    pub fn take_whiteouts(&mut self, alloc: Global) -> Result<Vec<Entry<'a>>, AllocError> {
        let mut whiteouts = List::new(alloc);
        for entry in self.entries.as_slice() {
            if entry.kind == Kind::Whiteout {
                whiteouts.add(*entry);
            }
        }
        self.entries.retain(|entry| entry.kind != Kind::Whiteout);
        whiteouts.end()
    }

    /// Whether it holds a directory at a path. The root is one.
    pub fn holds_directory(&self, path: &[u8]) -> bool {
        match self.held(path) {
            Some(entry) => entry.kind == Kind::Directory,
            None => path.is_empty(),
        }
    }

    /// How the layer hands a path on, told from the root down: a redirect from the root begins a spelling anew and lifts a cut, one name
    /// stands for another, and whatever is no directory, or an opaque one, cuts.
    pub fn hands_on(&self, alloc: Global, path: &[u8]) -> Result<HandedOn, AllocError> {
        let mut handed = HandedOn {
            spelling: Vec::new(alloc),
            is_cut: false,
        };
        let spelled = self.hand_names_on(alloc, path, &mut handed);
        match spelled {
            Ok(()) => Ok(handed),
            Err(fault) => {
                drop(handed);
                Err(fault)
            }
        }
    }

    fn hand_names_on(
        &self,
        alloc: Global,
        path: &[u8],
        handed: &mut HandedOn,
    ) -> Result<(), AllocError> {
        let mut at = Vec::new(alloc);
        for name in path.split(|byte| *byte == b'/').skip(1) {
            push_name(&mut at, name)?;
            hand_on(handed, self.held(at.as_slice()), name)?;
        }
        Ok(())
    }
}

// The last path first.
fn sorted<'a>(entries: Vec<Entry<'a>>) -> Result<Vec<Entry<'a>>, AllocError> {
    let mut entries = entries;
    entries.sort_by_key(|entry| Reverse(entry.path))?;
    Ok(entries)
}

fn is_inside(path: &[u8], directory: &[u8]) -> bool {
    match split_last(path) {
        Some((parent, _)) => parent == directory,
        None => false,
    }
}

/// The directory of a path, and its last name. None for the root.
pub fn split_last(path: &[u8]) -> Option<(&[u8], &[u8])> {
    let (parent, rest) = path.split_at(last_slash(path).min(path.len()));
    match rest {
        [b'/', name @ ..] => Some((parent, name)),
        _ => None,
    }
}

// The place of the last slash, or behind the end.
fn last_slash(path: &[u8]) -> usize {
    let mut last = path.len();
    for (place, byte) in path.iter().enumerate() {
        if *byte == b'/' {
            last = place;
        }
    }
    last
}

// One name on, where the layer holds this there.
fn hand_on(handed: &mut HandedOn, held: Option<Entry<'_>>, name: &[u8]) -> Result<(), AllocError> {
    let Some(entry) = held else {
        return push_name(&mut handed.spelling, name);
    };
    let spelled = spell(handed, entry.redirect, name);
    if entry.opaque || entry.kind != Kind::Directory {
        handed.is_cut = true;
    }
    spelled
}

// The spelling of a name whose directory may have a redirect.
fn spell(handed: &mut HandedOn, redirect: Option<&[u8]>, name: &[u8]) -> Result<(), AllocError> {
    match redirect {
        None => push_name(&mut handed.spelling, name),
        Some(redirect) if redirect.starts_with(b"/") => {
            handed.spelling.clear();
            handed.is_cut = false;
            handed.spelling.extend_from_slice(redirect)
        }
        Some(other) => push_name(&mut handed.spelling, other),
    }
}

/// Appends a name to a path.
pub fn push_name(path: &mut Vec<u8>, name: &[u8]) -> Result<(), AllocError> {
    path.push(b'/')?;
    path.extend_from_slice(name)
}
