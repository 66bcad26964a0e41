// The entries of a manifest, but for the bytes of files.
use crate::quoted::Quoted;
use layer_tree::{Directory, Inode, Marks};
use ov_base::{Attributes, Content, Mode, PATH_MAX, Redirect, UserAttributes};
use std::alloc::{AllocError, AllocFailed, Global};
use std::str;

/// Why an entry isn't said.
#[derive(Drop)]
pub(crate) enum Unsaid {
    /// No manifest can say it: a text of it is no UTF-8, or its path is longer than 4,095 bytes.
    NoText,
    Memory,
}

/// Whether a root has these attributes where no entry says them.
pub(crate) fn are_of_a_root(attributes: &Attributes) -> bool {
    attributes.mode.bits() == Mode::of_directories().bits()
        && attributes.uid == 0
        && attributes.gid == 0
        && attributes.user.len() == 0
}

/// Adds the entry of a directory at a path.
pub(crate) fn put_directory(
    alloc: Global,
    path: &[u8],
    directory: &Directory,
    entry: &mut String,
) -> Result<(), Unsaid> {
    put_head(path, "dir", entry)?;
    put_attributes(alloc, &directory.attributes, Mode::of_directories(), entry)?;
    put_marks(alloc, &directory.marks, entry)
}

/// Adds the entry of a file at a path without its bytes, or that of a symbolic link.
pub(crate) fn put_inode(
    alloc: Global,
    path: &[u8],
    inode: &Inode,
    entry: &mut String,
) -> Result<(), Unsaid> {
    match &inode.content {
        Content::File(_) => {
            put_head(path, "file", entry)?;
            put_attributes(alloc, &inode.attributes, Mode::of_files(), entry)
        }
        Content::SymbolicLink(target) => {
            let target = Quoted(text_of(target.as_bytes().as_slice())?);
            put_head(path, "symlink", entry)?;
            put_owner(&inode.attributes, entry)?;
            writeln!(entry, "target = {target}")?;
            Ok(())
        }
    }
}

/// Adds the entry of a whiteout at a path.
pub(crate) fn put_whiteout(path: &[u8], entry: &mut String) -> Result<(), Unsaid> {
    put_head(path, "whiteout", entry)
}

/// Adds the entry of a further name, at a path, of what was said at another.
pub(crate) fn put_link(path: &[u8], to: &[u8], entry: &mut String) -> Result<(), Unsaid> {
    put_head(path, "link", entry)?;
    let to = Quoted(text_of(to)?);
    writeln!(entry, "to = {to}")?;
    Ok(())
}

// The lines that each entry has.
fn put_head(path: &[u8], kind: &str, entry: &mut String) -> Result<(), Unsaid> {
    let path = Quoted(path_text(path)?);
    writeln!(entry, "\n[[layer.entry]]\npath = {path}\nkind = \"{kind}\"")?;
    Ok(())
}

// Mode, owner and user attributes, where they aren't those of an entry that doesn't say them.
fn put_attributes(
    alloc: Global,
    attributes: &Attributes,
    default: Mode,
    entry: &mut String,
) -> Result<(), Unsaid> {
    if attributes.mode.bits() != default.bits() {
        let mode = attributes.mode.bits();
        writeln!(entry, "mode = 0o{mode:o}")?;
    }
    put_owner(attributes, entry)?;
    put_user_attributes(alloc, &attributes.user, entry)
}

fn put_owner(attributes: &Attributes, entry: &mut String) -> Result<(), AllocError> {
    let Attributes { uid, gid, .. } = attributes;
    if *uid != 0 {
        writeln!(entry, "uid = {uid}")?;
    }
    if *gid != 0 {
        writeln!(entry, "gid = {gid}")?;
    }
    Ok(())
}

fn put_user_attributes(
    alloc: Global,
    user: &UserAttributes,
    entry: &mut String,
) -> Result<(), Unsaid> {
    if user.len() == 0 {
        return Ok(());
    }
    let names = user.names(alloc)?;
    entry.push_str("attrs = [")?;
    let mut before = "";
    for name in names.as_slice() {
        if let Some(value) = user.get(name.as_slice()) {
            put_pair(before, name.as_slice(), value.as_slice(), entry)?;
        }
        before = ", ";
    }
    entry.push_str("]\n")?;
    Ok(())
}

// Adds a name and its value behind the pairs before it.
fn put_pair(before: &str, name: &[u8], value: &[u8], entry: &mut String) -> Result<(), Unsaid> {
    let name = Quoted(text_of(name)?);
    let value = Quoted(text_of(value)?);
    write!(entry, "{before}[{name}, {value}]")?;
    Ok(())
}

fn put_marks(alloc: Global, marks: &Marks, entry: &mut String) -> Result<(), Unsaid> {
    if marks.opaque {
        entry.push_str("opaque = true\n")?;
    }
    if let Some(redirect) = &marks.redirect {
        let bytes = redirect_bytes(alloc, redirect)?;
        let text = Quoted(path_text(bytes.as_slice())?);
        writeln!(entry, "redirect = {text}")?;
    }
    Ok(())
}

fn redirect_bytes(alloc: Global, redirect: &Redirect) -> Result<Vec<u8>, AllocError> {
    let mut bytes = Vec::new(alloc);
    match redirect {
        Redirect::Single(name) => bytes.extend_from_slice(name.as_slice())?,
        Redirect::Absolute(path) => {
            for name in path.names() {
                bytes.push(b'/')?;
                bytes.extend_from_slice(name.as_slice())?;
            }
        }
    }
    Ok(bytes)
}

// The text of a path that these bytes spell, if a manifest can say it.
fn path_text(bytes: &[u8]) -> Result<&str, Unsaid> {
    if bytes.len() > PATH_MAX {
        return Err(Unsaid::NoText);
    }
    text_of(bytes)
}

fn text_of(bytes: &[u8]) -> Result<&str, Unsaid> {
    match str::from_utf8(bytes) {
        Ok(text) => Ok(text),
        Err(_) => Err(Unsaid::NoText),
    }
}

impl From<AllocError> for Unsaid {
    fn from(_fault: AllocError) -> Unsaid {
        Unsaid::Memory
    }
}

impl<T: Drop> From<AllocFailed<T>> for Unsaid {
    fn from(_fault: AllocFailed<T>) -> Unsaid {
        Unsaid::Memory
    }
}
