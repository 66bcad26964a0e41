// What the layers of a manifest show, by whole paths: each path is asked of each layer from the top, with nothing kept in between.
use crate::contents::size_of;
use crate::entries::{Entry, Kind};
use crate::list::List;
use crate::plain_layer::{PlainLayer, push_name, split_last};
use std::alloc::{AllocError, Global};

/// An object that is shown at a path.
#[derive(Drop)]
pub struct Shown<'a> {
    pub path: Vec<u8>,
    pub entry: Entry<'a>,
    /// Whether the upper layer holds it.
    pub is_upper: bool,
    /// Whether a lower layer that is reached holds a directory there.
    pub is_base: bool,
}

/// The most directories of a merged tree that are looked into.
const DIRECTORIES_MOST: u32 = 1_000_000;

/// What was shown so far, and the directories among it that are to be looked into.
#[derive(Drop)]
struct Search<'a> {
    shown: List<Shown<'a>>,
    open: List<Vec<u8>>,
}

/// All that is shown below the root, each directory before what is in it.
pub fn shown_below<'a>(
    alloc: Global,
    layers: &[PlainLayer<'a>],
) -> Result<Vec<Shown<'a>>, AllocError> {
    let mut search = Search {
        shown: List::new(alloc),
        open: List::new(alloc),
    };
    search.open.add(Vec::new(alloc));
    search.run(alloc, layers);
    search.end()
}

impl<'a> Search<'a> {
    fn run(&mut self, alloc: Global, layers: &[PlainLayer<'a>]) {
        let names = all_names(alloc, layers);
        for _ in 0..DIRECTORIES_MOST {
            let Some(directory) = self.open.pop() else {
                break;
            };
            self.look_into(alloc, layers, directory.as_slice(), names.as_slice());
        }
        self.shown.note(names.lacks_memory());
    }

    // Tries each name in a directory.
    fn look_into(
        &mut self,
        alloc: Global,
        layers: &[PlainLayer<'a>],
        directory: &[u8],
        names: &[&[u8]],
    ) {
        for name in names {
            match path_of(alloc, directory, name) {
                Ok(path) => self.look_at(alloc, layers, path),
                Err(fault) => self.open.put(Err(fault)),
            }
        }
    }

    // Adds what is shown at a path.
    fn look_at(&mut self, alloc: Global, layers: &[PlainLayer<'a>], path: Vec<u8>) {
        match shown_at(alloc, layers, path.as_slice()) {
            Ok(Some((index, entry))) => self.take(alloc, layers, path, index, entry),
            Ok(None) => {}
            Err(fault) => self.open.put(Err(fault)),
        }
    }

    fn take(
        &mut self,
        alloc: Global,
        layers: &[PlainLayer<'a>],
        path: Vec<u8>,
        index: usize,
        entry: Entry<'a>,
    ) {
        if entry.kind == Kind::Directory {
            self.open.put(path.clone());
        }
        let (is_base, lacks_memory) = match is_base(alloc, layers, path.as_slice()) {
            Ok(is_base) => (is_base, false),
            Err(_) => (false, true),
        };
        self.shown.note(lacks_memory);
        self.shown.add(Shown {
            path,
            entry,
            is_upper: index == 0,
            is_base,
        });
    }

    // All that was shown.
    fn end(self) -> Result<Vec<Shown<'a>>, AllocError> {
        let Search { shown, open } = self;
        let mut shown = shown;
        shown.note(open.lacks_memory());
        drop(open);
        shown.end()
    }
}

// The path of a name in a directory.
fn path_of(alloc: Global, directory: &[u8], name: &[u8]) -> Result<Vec<u8>, AllocError> {
    let mut path = copy_of(alloc, directory)?;
    push_name(&mut path, name)?;
    Ok(path)
}

fn copy_of(alloc: Global, path: &[u8]) -> Result<Vec<u8>, AllocError> {
    let mut copy = Vec::new(alloc);
    copy.extend_from_slice(path)?;
    Ok(copy)
}

/// The path of a whiteout of the upper that hides nothing. Takes the upper's whiteouts out, and asks what is shown then.
pub fn needless_whiteout<'a>(
    alloc: Global,
    layers: &mut [PlainLayer<'a>],
) -> Result<Option<&'a [u8]>, AllocError> {
    let Some(upper) = layers.first_mut() else {
        return Ok(None);
    };
    let whiteouts = upper.take_whiteouts(alloc)?;
    for whiteout in whiteouts {
        if shown_at(alloc, layers, whiteout.path)?.is_none() {
            return Ok(Some(whiteout.path));
        }
    }
    Ok(None)
}

/// The size of the file that these layers show at a path, if they show one there.
pub fn size_shown(
    alloc: Global,
    layers: &[PlainLayer<'_>],
    path: &[u8],
) -> Result<Option<u64>, AllocError> {
    match shown_at(alloc, layers, path)? {
        Some((_, entry)) if entry.kind == Kind::File => Ok(Some(size_of(entry.bytes))),
        _ => Ok(None),
    }
}

// The object that is shown at a path, and the number of its layer: of the layers that are reached, the first that holds anything.
fn shown_at<'a>(
    alloc: Global,
    layers: &[PlainLayer<'a>],
    path: &[u8],
) -> Result<Option<(usize, Entry<'a>)>, AllocError> {
    let mut spelling = copy_of(alloc, path)?;
    for (index, layer) in layers.iter().enumerate() {
        if let Some(entry) = layer.held(spelling.as_slice()) {
            return Ok(unless_whiteout(index, entry));
        }
        if !goes_on(alloc, layer, &mut spelling)? {
            break;
        }
    }
    Ok(None)
}

// Spells a path for the layer below this one; false where nothing below is reached.
fn goes_on(
    alloc: Global,
    layer: &PlainLayer<'_>,
    spelling: &mut Vec<u8>,
) -> Result<bool, AllocError> {
    let handed = layer.hands_on(alloc, spelling.as_slice())?;
    *spelling = handed.spelling;
    Ok(!handed.is_cut)
}

fn unless_whiteout(index: usize, entry: Entry<'_>) -> Option<(usize, Entry<'_>)> {
    if entry.kind == Kind::Whiteout {
        None
    } else {
        Some((index, entry))
    }
}

// Whether a lower layer that is reached at a path holds a directory there.
fn is_base(alloc: Global, layers: &[PlainLayer<'_>], path: &[u8]) -> Result<bool, AllocError> {
    let mut spelling = copy_of(alloc, path)?;
    for (index, layer) in layers.iter().enumerate() {
        if index > 0 && layer.holds_directory(spelling.as_slice()) {
            return Ok(true);
        }
        if !goes_on(alloc, layer, &mut spelling)? {
            break;
        }
    }
    Ok(false)
}

// Each last name of an entry, once.
fn all_names<'a>(alloc: Global, layers: &[PlainLayer<'a>]) -> List<&'a [u8]> {
    let mut names = List::new(alloc);
    for layer in layers {
        for entry in layer.entries.as_slice() {
            if let Some((_, name)) = split_last(entry.path) {
                add_name(&mut names, name);
            }
        }
    }
    names
}

fn add_name<'a>(names: &mut List<&'a [u8]>, name: &'a [u8]) {
    if !has_name(names.as_slice(), name) {
        names.add(name);
    }
}

fn has_name(names: &[&[u8]], name: &[u8]) -> bool {
    for known in names {
        if *known == name {
            return true;
        }
    }
    false
}
