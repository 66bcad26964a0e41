// What a mount is told as it begins.

/// What a mount does otherwise than by the rules that hold where nothing is told.
#[derive(Clone, Copy)]
pub struct MountOptions {
    /// Whether renames of base directories make redirects.
    pub redirects: bool,
    /// Whether files are copied up without their bytes where these don't change.
    pub metacopy: bool,
    /// Whether nothing may be written.
    pub read_only: bool,
    /// The most bytes that a write or a truncate may give a file.
    pub file_limit: u64,
}
