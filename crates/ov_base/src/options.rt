// The options of a mount.

/// The most bytes of a file where a manifest doesn't say otherwise: 1 MiB.
pub const FILE_LIMIT: u64 = 1_048_576;

/// `redirect_dir`, `metacopy`, the length of the history and the most bytes of a file.
#[derive(Clone, Copy, Debug, PartialEq, Eq)]
pub struct Options {
    /// Whether a rename of a merged directory makes a redirect (overlayfs.rst, `redirect_dir`); existing ones are always followed.
    pub redirects: bool,
    /// Whether a change of the attributes or names of a lower file copies it up without its bytes (overlayfs.rst, "Metadata only copy up");
    /// files without bytes of their own that are there are always followed.
    pub metacopy: bool,
    /// How many attaches, calls and detaches the mount's history has room for.
    pub history: u32,
    /// The most bytes that a write or a truncate may give a file (EFBIG); a longer file of a layer is
    /// read and copied up as any.
    pub file_limit: u64,
}
