// The layers that are measured, as manifests.
use crate::manifests::{ManifestText, child, nested};
use std::alloc::{AllocError, Global};

/// How many objects a measured layer holds, or how many names a measured directory has.
pub const OBJECTS: u32 = 10_000;

/// How deep the file stands that is looked up: three directories are above it.
pub const DIRECTORIES: u32 = 3;

/// How many files are looked up one after the other, and how many names `MERGED` has.
pub const FILES: u32 = 256;

/// How many bytes each file has that is looked up, and how many are read at a time.
pub const BLOCK: u32 = 4096;

/// The directory that has `OBJECTS` names, of the lowest layer.
pub const WIDE: &str = "/list-10k-all";

/// The directory that has `FILES` names, part of them of each lower layer.
pub const MERGED: &str = "/list-256-all";

/// So many layers, each of `OBJECTS` objects: three directories, and the files in the last.
pub fn deep(alloc: Global, layers: u32) -> Result<ManifestText, AllocError> {
    let mut manifest = ManifestText::new(alloc)?;
    for _ in 0..layers {
        manifest.layer()?;
        nested_in(alloc, &mut manifest, DIRECTORIES)?;
        let last = nested(alloc, DIRECTORIES)?;
        files_in(alloc, &mut manifest, last.as_str(), OBJECTS - DIRECTORIES)?;
    }
    Ok(manifest)
}

/// An empty upper over so many lower layers, for whole calls: all have the directories and part of
/// the names of `MERGED`, the lowest has the files that are looked up, of `BLOCK` zero bytes each,
/// and those of `WIDE`.
pub fn served(alloc: Global, lowers: u32) -> Result<ManifestText, AllocError> {
    let mut manifest = ManifestText::new(alloc)?;
    manifest.layer()?;
    for lower in 0..lowers {
        manifest.layer()?;
        nested_in(alloc, &mut manifest, DIRECTORIES)?;
        manifest.directory(MERGED)?;
        share_in(alloc, &mut manifest, lower, lowers)?;
    }
    let last = nested(alloc, DIRECTORIES)?;
    zeros_in(alloc, &mut manifest, last.as_str(), "name-", FILES, BLOCK)?;
    manifest.directory(WIDE)?;
    files_in(alloc, &mut manifest, WIDE, OBJECTS)?;
    Ok(manifest)
}

/// `served`, with so many files of so many bytes of one blob to be copied up, beside those that are
/// looked up.
pub fn copied(
    alloc: Global,
    lowers: u32,
    files: u32,
    size: u32,
) -> Result<ManifestText, AllocError> {
    let mut manifest = served(alloc, lowers)?;
    let last = nested(alloc, DIRECTORIES)?;
    for number in 0..files {
        manifest.part(child(alloc, last.as_str(), "copy-", number)?.as_str(), size)?;
    }
    Ok(manifest)
}

/// The same, where each is a hole of so many bytes.
pub fn hollow(
    alloc: Global,
    lowers: u32,
    files: u32,
    size: u32,
) -> Result<ManifestText, AllocError> {
    let mut manifest = served(alloc, lowers)?;
    let last = nested(alloc, DIRECTORIES)?;
    zeros_in(alloc, &mut manifest, last.as_str(), "copy-", files, size)?;
    Ok(manifest)
}

/// `served`, with a file of so many bytes that has so many names.
pub fn copied_again(
    alloc: Global,
    lowers: u32,
    names: u32,
    size: u32,
) -> Result<ManifestText, AllocError> {
    let mut manifest = copied(alloc, lowers, 1, size)?;
    let last = nested(alloc, DIRECTORIES)?;
    let file = child(alloc, last.as_str(), "copy-", 0)?;
    for number in 1..names {
        let name = child(alloc, last.as_str(), "copy-", number)?;
        manifest.link(name.as_str(), file.as_str())?;
    }
    Ok(manifest)
}

// The names of `MERGED` that one of so many lower layers has: every so many.
fn share_in(
    alloc: Global,
    manifest: &mut ManifestText,
    lower: u32,
    lowers: u32,
) -> Result<(), AllocError> {
    for number in 0..FILES {
        if number.checked_rem(lowers) == Some(lower) {
            manifest.file(child(alloc, MERGED, "name-", number)?.as_str())?;
        }
    }
    Ok(())
}

// So many empty files in a directory.
fn files_in(
    alloc: Global,
    manifest: &mut ManifestText,
    parent: &str,
    files: u32,
) -> Result<(), AllocError> {
    for number in 0..files {
        manifest.file(child(alloc, parent, "name-", number)?.as_str())?;
    }
    Ok(())
}

// So many files of so many zero bytes in a directory, whose names begin with these five bytes.
fn zeros_in(
    alloc: Global,
    manifest: &mut ManifestText,
    parent: &str,
    first: &str,
    files: u32,
    size: u32,
) -> Result<(), AllocError> {
    for number in 0..files {
        manifest.zeros(child(alloc, parent, first, number)?.as_str(), size)?;
    }
    Ok(())
}

// So many directories one below the other.
fn nested_in(alloc: Global, manifest: &mut ManifestText, depth: u32) -> Result<(), AllocError> {
    let mut path = String::new(alloc);
    for number in 0..depth {
        path = child(alloc, path.as_str(), "dirs-", number)?;
        manifest.directory(path.as_str())?;
    }
    Ok(())
}
