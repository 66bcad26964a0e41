// The bits of events, as sys/inotify.h has them.

pub const ACCESS: u32 = 1;

pub const MODIFY: u32 = 2;

pub const ATTRIB: u32 = 4;

pub const CLOSE_WRITE: u32 = 8;

pub const CLOSE_NOWRITE: u32 = 0x10;

pub const OPEN: u32 = 0x20;

pub const MOVED_FROM: u32 = 0x40;

pub const MOVED_TO: u32 = 0x80;

pub const CREATE: u32 = 0x100;

pub const DELETE: u32 = 0x200;

pub const DELETE_SELF: u32 = 0x400;

pub const MOVE_SELF: u32 = 0x800;

/// The bit that an event of a directory has besides.
pub const ISDIR: u32 = 0x4000_0000;
