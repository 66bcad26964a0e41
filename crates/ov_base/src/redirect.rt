// The redirect of a directory.
use crate::name::Name;
use crate::path::Path;

/// Where the layers below a directory go on: `trusted.overlay.redirect` of overlayfs.rst.
#[derive(Drop)]
pub enum Redirect {
    /// From the root, by at least one name.
    Absolute(Path),
    /// By another name in the same parent.
    Single(Name),
}
