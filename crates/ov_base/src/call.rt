// The calls of a client.
ghost use Rattle.std.specs.Prelude.{◌≡◌, IfOk};
ghost use Rattle.ov_base.specs.Calls.{pair_of, read_of};
ghost use Rattle.ov_base.specs.Paths.{path_of_text};

use crate::bytes::{Bytes, IntoBytes};
use crate::errno::Errno;
use crate::path::Path;
use std::alloc::{AllocError, Global};

/// The flags of `open`, taken apart. Neither `reads` nor `writes` stands for the access number 3, which is refused.
#[derive(Clone, Copy, Debug, PartialEq, Eq)]
pub struct OpenFlags {
    pub reads: bool,
    pub writes: bool,
    pub create: bool,
    pub exclusive: bool,
    pub truncate: bool,
    pub append: bool,
    pub directory: bool,
    /// A bit that no flag has, which is refused.
    pub unknown: bool,
}

/// A file call of POSIX.1-2017 or inotify(7) as one client makes it, with each path as a `P` and
/// each other text as a `T`.
#[derive(Drop)]
pub enum CallOf<P, T> {
    Stat {
        path: P,
    },
    Readlink {
        path: P,
    },
    Chmod {
        path: P,
        mode: u32,
    },
    Chown {
        path: P,
        uid: u32,
        gid: u32,
    },
    SetAttribute {
        path: P,
        name: T,
        value: T,
    },
    GetAttribute {
        path: P,
        name: T,
    },
    DeleteAttribute {
        path: P,
        name: T,
    },
    ListAttributes {
        path: P,
    },
    Mkdir {
        path: P,
        mode: u32,
    },
    Symlink {
        target: T,
        path: P,
    },
    Open {
        path: P,
        flags: OpenFlags,
        mode: u32,
    },
    Unlink {
        path: P,
    },
    Rmdir {
        path: P,
    },
    Hardlink {
        old: P,
        new: P,
    },
    Rename {
        old: P,
        new: P,
    },
    Read {
        descriptor: u32,
        count: u32,
    },
    Write {
        descriptor: u32,
        bytes: T,
    },
    Seek {
        descriptor: u32,
        offset: i64,
        whence: u8,
    },
    Truncate {
        descriptor: u32,
        size: u64,
    },
    Fstat {
        descriptor: u32,
    },
    ListNames {
        descriptor: u32,
        count: u32,
    },
    Close {
        descriptor: u32,
    },
    Arm {
        slot: u8,
        path: P,
        mask: u32,
    },
    Disarm {
        watch: i32,
    },
    TakeNotices {
        count: u32,
    },
}

/// A call whose paths are read. Contracts name it as `Rattle.ov_base.specs.Calls.{Call}`.
pub type Call = CallOf<Path, Bytes>;

impl<T: IntoBytes> CallOf<T, T> {
    /// The call that these texts spell, or why its path is refused, of two the first that is. It
    /// fails only when out of memory.
    pub fn read(self, alloc: Global) -> Result<Result<Call, Errno>, AllocError>
        ensures { IfOk result (λ outcome. outcome ≡ read_of T.bytes self) }
    {
        match self {
            CallOf::Stat { path } => Ok(path_of(alloc, path)?.map(|path| Call::Stat { path })),
            CallOf::Readlink { path } => Ok(path_of(alloc, path)?.map(|path| Call::Readlink {
                path,
            })),
            CallOf::Chmod { path, mode } => {
                Ok(path_of(alloc, path)?.map(|path| Call::Chmod { path, mode }))
            }
            CallOf::Chown { path, uid, gid } => {
                Ok(path_of(alloc, path)?.map(|path| Call::Chown { path, uid, gid }))
            }
            CallOf::SetAttribute { path, name, value } => {
                let name = name.into_bytes(alloc)?;
                let value = value.into_bytes(alloc)?;
                Ok(path_of(alloc, path)?.map(|path| Call::SetAttribute { path, name, value }))
            }
            CallOf::GetAttribute { path, name } => {
                let name = name.into_bytes(alloc)?;
                Ok(path_of(alloc, path)?.map(|path| Call::GetAttribute { path, name }))
            }
            CallOf::DeleteAttribute { path, name } => {
                let name = name.into_bytes(alloc)?;
                Ok(path_of(alloc, path)?.map(|path| Call::DeleteAttribute { path, name }))
            }
            CallOf::ListAttributes { path } => {
                Ok(path_of(alloc, path)?.map(|path| Call::ListAttributes { path }))
            }
            CallOf::Mkdir { path, mode } => {
                Ok(path_of(alloc, path)?.map(|path| Call::Mkdir { path, mode }))
            }
            CallOf::Symlink { target, path } => {
                let target = target.into_bytes(alloc)?;
                Ok(path_of(alloc, path)?.map(|path| Call::Symlink { target, path }))
            }
            CallOf::Open { path, flags, mode } => {
                Ok(path_of(alloc, path)?.map(|path| Call::Open { path, flags, mode }))
            }
            CallOf::Unlink { path } => Ok(path_of(alloc, path)?.map(|path| Call::Unlink { path })),
            CallOf::Rmdir { path } => Ok(path_of(alloc, path)?.map(|path| Call::Rmdir { path })),
            CallOf::Hardlink { old, new } => {
                Ok(two_paths(alloc, old, new)?.map(|(old, new)| Call::Hardlink { old, new }))
            }
            CallOf::Rename { old, new } => {
                Ok(two_paths(alloc, old, new)?.map(|(old, new)| Call::Rename { old, new }))
            }
            CallOf::Read { descriptor, count } => Ok(Ok(Call::Read { descriptor, count })),
            CallOf::Write { descriptor, bytes } => {
                let bytes = bytes.into_bytes(alloc)?;
                Ok(Ok(Call::Write { descriptor, bytes }))
            }
            CallOf::Seek {
                descriptor,
                offset,
                whence,
            } => Ok(Ok(Call::Seek {
                descriptor,
                offset,
                whence,
            })),
            CallOf::Truncate { descriptor, size } => Ok(Ok(Call::Truncate { descriptor, size })),
            CallOf::Fstat { descriptor } => Ok(Ok(Call::Fstat { descriptor })),
            CallOf::ListNames { descriptor, count } => Ok(Ok(Call::ListNames {
                descriptor,
                count,
            })),
            CallOf::Close { descriptor } => Ok(Ok(Call::Close { descriptor })),
            CallOf::Arm { slot, path, mask } => {
                Ok(path_of(alloc, path)?.map(|path| Call::Arm { slot, path, mask }))
            }
            CallOf::Disarm { watch } => Ok(Ok(Call::Disarm { watch })),
            CallOf::TakeNotices { count } => Ok(Ok(Call::TakeNotices { count })),
        }
    }
}

// The path that a text spells, or why it is none.
fn path_of<T: IntoBytes>(alloc: Global, text: T) -> Result<Result<Path, Errno>, AllocError>
    ensures { IfOk result (λ outcome. outcome ≡ path_of_text (T.bytes text)) }
{
    let bytes = text.into_bytes(alloc)?;
    Path::parse(alloc, bytes.as_slice())
}

// Two paths, or why the first that is none is refused.
fn two_paths<T: IntoBytes>(
    alloc: Global,
    old: T,
    new: T,
) -> Result<Result<(Path, Path), Errno>, AllocError>
    ensures { IfOk result (λ outcome.
        outcome ≡ pair_of (path_of_text (T.bytes old)) (path_of_text (T.bytes new))) }
{
    match path_of(alloc, old)? {
        Ok(old) => Ok(path_of(alloc, new)?.map(|new| (old, new))),
        Err(errno) => Ok(Err(errno)),
    }
}
