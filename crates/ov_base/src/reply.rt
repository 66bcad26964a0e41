// What calls answer.
use crate::bytes::{Bytes, Texts};
use crate::errno::Errno;
use crate::name::NameList;
use crate::notice::Notices;

/// The kind of an object, as `S_IFMT` names it.
#[derive(Clone, Copy, Debug, PartialEq, Eq)]
pub enum ObjectKind {
    Directory,
    File,
    SymbolicLink,
}

/// What stat(2) shows of an object, without times and numbers of inode and device.
#[derive(Clone, Copy, Debug, PartialEq, Eq)]
pub struct Stat {
    pub kind: ObjectKind,
    pub mode: u32,
    pub uid: u32,
    pub gid: u32,
    /// The bytes of a file, the length of a link's target, 0 of a directory.
    pub size: u64,
    /// The number of names, 4,294,967,295 where it is more; 1 of a directory.
    pub links: u32,
}

/// The answer to a call.
#[derive(Drop)]
pub enum Reply {
    Refused(Errno),
    Done,
    Status(Stat),
    /// Where a symbolic link leads.
    Target(Bytes),
    /// The value of an attribute.
    Value(Bytes),
    /// The bytes that were read.
    Read(Bytes),
    Names(NameList),
    AttributeNames(Texts),
    Descriptor(u32),
    Written(u32),
    Place(u64),
    Watch(i32),
    Unread(Notices),
}
