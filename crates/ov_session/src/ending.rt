// How sessions end.
use ov_frames::FrameFault;

/// How a session ends.
#[derive(Clone, Copy, Debug, PartialEq, Eq)]
pub enum Ending {
    /// The client asked to be detached.
    Detached,
    /// The input ended between frames.
    Ended,
    /// The input ended inside a frame.
    Cut,
    /// The bytes that came are no frame.
    Frame(FrameFault),
    /// A read failed, or one was due after the last that the source may make.
    Read,
    /// A write failed.
    Write,
    /// Memory ran out.
    Memory,
    /// The door held a call back.
    Stopped,
}
