// What comes of what an embedder asks.
use ov_base::Errno;

/// What came of what was asked. Where it isn't `Done` or `Unwritten`, nothing was changed.
#[derive(Clone, Copy, Debug, PartialEq, Eq)]
pub enum Outcome {
    /// It was done; a call was answered, and the frame of its answer is there.
    Done,
    /// The call was made, but there was no memory for the frame of its answer.
    Unwritten,
    /// Nothing is mounted.
    NotMounted,
    /// No client of this number is attached.
    NoClient,
    /// The bytes are not the frame of one request.
    NoFrame,
    /// The request is a detach, which is not asked for by a frame here.
    Leaves,
    /// So much was done on the mount that nothing more is.
    Ended,
    /// There was no memory.
    NoMemory,
    /// As many clients are attached as a mount has: 64.
    Full,
    /// The manifest is at fault, or its blobs are; there is a text of why.
    Fault,
    /// Something is mounted already.
    Mounted,
    /// A step was made, and the call has more of them.
    More,
    /// There is no job of this number.
    NoJob,
    /// There is no upper.
    NoUpper,
    /// The saved upper is at fault; there is a text of why.
    Upper,
    /// There is no layer of this number.
    NoLayer,
    /// It was refused, for this reason.
    Refused(Errno),
}
