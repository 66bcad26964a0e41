// The bits of events and masks, as sys/inotify.h has them.
/// Bytes were read.
pub const ACCESS: u32 = 1;

/// Bytes or a length were changed.
pub const MODIFY: u32 = 2;

/// Attributes or the number of names were changed.
pub const ATTRIB: u32 = 4;

/// A handle that may write was closed.
pub const CLOSE_WRITE: u32 = 8;

/// Any other handle was closed.
pub const CLOSE_NOWRITE: u32 = 0x10;

/// Something was opened.
pub const OPEN: u32 = 0x20;

/// A name was moved out of the directory.
pub const MOVED_FROM: u32 = 0x40;

/// A name was moved into the directory.
pub const MOVED_TO: u32 = 0x80;

/// A name was made in the directory.
pub const CREATE: u32 = 0x100;

/// A name in the directory was deleted.
pub const DELETE: u32 = 0x200;

/// What is watched is gone.
pub const DELETE_SELF: u32 = 0x400;

/// What is watched was moved.
pub const MOVE_SELF: u32 = 0x800;

/// The events that a watch may ask for.
pub const EVENTS: u32 = 0xfff;

/// Some notices are lost.
pub const Q_OVERFLOW: u32 = 0x4000;

/// A watch has ended.
pub const IGNORED: u32 = 0x8000;

/// Arm a directory alone.
pub const ONLYDIR: u32 = 0x0100_0000;

/// Add to the mask of a watch that is there.
pub const MASK_ADD: u32 = 0x2000_0000;

/// What is told of is a directory.
pub const ISDIR: u32 = 0x4000_0000;

/// End the watch with its first event.
pub const ONESHOT: u32 = 0x8000_0000;
