// The calls of operations.
use crate::deeds::{Deed, LONG};
use crate::manifests::nested;
use crate::mounts::{path_of, path_to};
use crate::trees::{BLOCK, DIRECTORIES, FILES, MERGED, OBJECTS, WIDE};
use ov_base::{Bytes, Call, OpenFlags, Path};
use std::alloc::{AllocError, Global};

/// The lowest descriptor, which all that is opened has, as nothing else is open.
const DESCRIPTOR: u32 = 0;

/// The most names that one call lists.
const PAGE: u32 = 256;

/// The calls that come first and aren't measured: they bring into the upper what gets an attribute, another mode or another name.
pub fn before(alloc: Global, deed: Deed) -> Result<Vec<Call>, AllocError> {
    let mut calls = Vec::new(alloc);
    match deed {
        Deed::Link | Deed::Rename => opened_in(alloc, &mut calls, deed, 0)?,
        Deed::ReadLong | Deed::WriteLong | Deed::WriteBlock => calls.push(opening(
            alloc, deed, 0,
        )?)?,
        Deed::SetAttribute => calls.push(setting(alloc, path_for(alloc, deed, 0)?)?)?,
        Deed::StatChanged { .. } | Deed::ReadChanged { .. } => {
            calls.push(changing(path_for(alloc, deed, 0)?))?;
        }
        _ => {}
    }
    Ok(calls)
}

/// The calls of so many operations from this number on.
pub fn operations(
    alloc: Global,
    deed: Deed,
    first: u32,
    count: u32,
) -> Result<Vec<Call>, AllocError> {
    let mut calls = Vec::new(alloc);
    for number in 0..count {
        operation_in(alloc, &mut calls, deed, first.saturating_add(number))?;
    }
    Ok(calls)
}

// The calls of one operation.
fn operation_in(
    alloc: Global,
    calls: &mut Vec<Call>,
    deed: Deed,
    number: u32,
) -> Result<(), AllocError> {
    match deed {
        Deed::Stat | Deed::StatMany | Deed::Absent | Deed::AbsentNew | Deed::StatChanged { .. } => {
            let path = path_for(alloc, deed, number)?;
            calls.push(Call::Stat { path })?;
        }
        Deed::Read | Deed::ReadChanged { .. } | Deed::Create => {
            opened_in(alloc, calls, deed, number)?;
        }
        Deed::Copy(_)
        | Deed::CopyAgain(_)
        | Deed::CopyHole(_)
        | Deed::Touch(_)
        | Deed::TouchAgain(_) => {
            opened_in(alloc, calls, deed, number)?;
        }
        Deed::ReadLong | Deed::WriteLong | Deed::WriteBlock => moved_in(alloc, calls, deed)?,
        Deed::List => listed_in(alloc, calls, MERGED, FILES)?,
        Deed::ListWide => listed_in(alloc, calls, WIDE, OBJECTS)?,
        _ => named_in(alloc, calls, deed, number)?,
    }
    Ok(())
}

// The calls that open a directory of so many names, list them to the end and close it.
fn listed_in(
    alloc: Global,
    calls: &mut Vec<Call>,
    directory: &str,
    names: u32,
) -> Result<(), AllocError> {
    let descriptor = DESCRIPTOR;
    calls.push(Call::Open {
        path: path_of(alloc, directory)?,
        flags: flags_of(true, false, true),
        mode: 0,
    })?;
    for _ in 0..=names.div_ceil(PAGE) {
        let count = PAGE;
        calls.push(Call::ListNames { descriptor, count })?;
    }
    calls.push(Call::Close { descriptor })?;
    Ok(())
}

// The calls of an operation on names, or on an attribute.
fn named_in(
    alloc: Global,
    calls: &mut Vec<Call>,
    deed: Deed,
    number: u32,
) -> Result<(), AllocError> {
    let path = path_for(alloc, deed, number)?;
    match deed {
        Deed::Symlink => {
            let target = Bytes::from_slice(alloc, b"target")?;
            calls.push(Call::Symlink { target, path })?;
            unlinked_in(alloc, calls, deed, number)?;
        }
        Deed::Mkdir => {
            calls.push(Call::Mkdir { path, mode: 0o755 })?;
            let path = path_for(alloc, deed, number)?;
            calls.push(Call::Rmdir { path })?;
        }
        Deed::Link => linked_in(alloc, calls, path)?,
        Deed::Rename => calls.push(renaming_back(alloc, path, number)?)?,
        Deed::SetAttribute => calls.push(setting(alloc, path)?)?,
        Deed::Chmod { .. } => calls.push(changing(path))?,
        _ => calls.push(Call::Unlink { path })?,
    }
    Ok(())
}

// The calls of an operation that opens a file and closes it: what is opened is read before, or removed after that.
fn opened_in(
    alloc: Global,
    calls: &mut Vec<Call>,
    deed: Deed,
    number: u32,
) -> Result<(), AllocError> {
    let descriptor = DESCRIPTOR;
    calls.push(opening(alloc, deed, number)?)?;
    if matches!(deed, Deed::Read | Deed::ReadChanged { .. }) {
        let count = BLOCK;
        calls.push(Call::Read { descriptor, count })?;
    }
    if matches!(deed, Deed::Touch(_) | Deed::TouchAgain(_)) {
        calls.push(writing(alloc, BLOCK)?)?;
    }
    calls.push(Call::Close { descriptor })?;
    if matches!(
        deed,
        Deed::Create | Deed::CopyAgain(_) | Deed::TouchAgain(_)
    ) {
        unlinked_in(alloc, calls, deed, number)?;
    }
    Ok(())
}

// The calls that go to the beginning of an open file and read or write it there.
fn moved_in(alloc: Global, calls: &mut Vec<Call>, deed: Deed) -> Result<(), AllocError> {
    calls.push(Call::Seek {
        descriptor: DESCRIPTOR,
        offset: 0,
        whence: 0,
    })?;
    calls.push(match deed {
        Deed::ReadLong => Call::Read {
            descriptor: DESCRIPTOR,
            count: LONG,
        },
        Deed::WriteLong => writing(alloc, LONG)?,
        _ => writing(alloc, BLOCK)?,
    })?;
    Ok(())
}

// The call that writes so many bytes.
fn writing(alloc: Global, count: u32) -> Result<Call, AllocError> {
    let mut bytes = Vec::new(alloc);
    bytes.resize(count as usize, b'w')?;
    Ok(Call::Write {
        descriptor: DESCRIPTOR,
        bytes: Bytes::from_vec(bytes),
    })
}

// The call that removes the file of an operation.
fn unlinked_in(
    alloc: Global,
    calls: &mut Vec<Call>,
    deed: Deed,
    number: u32,
) -> Result<(), AllocError> {
    let path = path_for(alloc, deed, number)?;
    calls.push(Call::Unlink { path })?;
    Ok(())
}

// The calls that give a file another name and remove that.
fn linked_in(alloc: Global, calls: &mut Vec<Call>, old: Path) -> Result<(), AllocError> {
    let new = further_path(alloc)?;
    calls.push(Call::Hardlink { old, new })?;
    let path = further_path(alloc)?;
    calls.push(Call::Unlink { path })?;
    Ok(())
}

// The file or directory of an operation.
fn path_for(alloc: Global, deed: Deed, number: u32) -> Result<Path, AllocError> {
    let (first, number) = name_for(deed, number);
    let parent = parent_for(alloc, deed)?;
    path_to(alloc, parent.as_str(), first, number)
}

// The first bytes of its name, and the number that the name ends by.
fn name_for(deed: Deed, number: u32) -> (&'static str, u32) {
    match deed {
        Deed::Read | Deed::StatMany => ("name-", number % FILES),
        Deed::Whiteout => ("name-", number),
        Deed::Absent => ("none-", 0),
        Deed::AbsentNew => ("none-", number),
        Deed::Create | Deed::Link | Deed::Rename => ("made-", 0),
        Deed::Symlink | Deed::Mkdir => ("made-", 0),
        Deed::Copy(_) | Deed::CopyAgain(_) => ("copy-", number),
        Deed::Touch(_) | Deed::TouchAgain(_) => ("copy-", number),
        Deed::CopyHole(_) | Deed::Chmod { .. } => ("copy-", number),
        Deed::ReadLong | Deed::WriteLong | Deed::WriteBlock => ("copy-", 0),
        _ => ("name-", 0),
    }
}

// The directory in which it stands.
fn parent_for(alloc: Global, deed: Deed) -> Result<String, AllocError> {
    match deed {
        Deed::Whiteout => String::from_str(alloc, WIDE),
        _ => nested(alloc, DIRECTORIES),
    }
}

// Another path at depth 4, where nothing is.
fn further_path(alloc: Global) -> Result<Path, AllocError> {
    let parent = nested(alloc, DIRECTORIES)?;
    path_to(alloc, parent.as_str(), "more-", 0)
}

// The call that renames the file, and the one after it that renames it back.
fn renaming_back(alloc: Global, path: Path, number: u32) -> Result<Call, AllocError> {
    let further = further_path(alloc)?;
    let (old, new) = if number & 1 == 0 {
        (path, further)
    } else {
        (further, path)
    };
    Ok(Call::Rename { old, new })
}

// The call that opens the file.
fn opening(alloc: Global, deed: Deed, number: u32) -> Result<Call, AllocError> {
    let reads = matches!(
        &deed,
        Deed::Read | Deed::ReadLong | Deed::ReadChanged { .. }
    );
    let creates = matches!(&deed, Deed::Create | Deed::Link | Deed::Rename);
    Ok(Call::Open {
        path: path_for(alloc, deed, number)?,
        flags: flags_of(reads, creates, false),
        mode: 0o644,
    })
}

// The flags to open for reading, or else for writing, a file that is made or not, or a directory.
fn flags_of(reads: bool, creates: bool, directory: bool) -> OpenFlags {
    OpenFlags {
        reads,
        writes: !reads,
        create: creates,
        exclusive: creates,
        truncate: false,
        append: false,
        directory,
        unknown: false,
    }
}

// The call that sets the attribute of a file.
fn setting(alloc: Global, path: Path) -> Result<Call, AllocError> {
    Ok(Call::SetAttribute {
        path,
        name: Bytes::from_slice(alloc, b"user.note")?,
        value: Bytes::from_slice(alloc, b"value")?,
    })
}

// The call that changes the mode of a file.
fn changing(path: Path) -> Call {
    Call::Chmod { path, mode: 0o600 }
}
