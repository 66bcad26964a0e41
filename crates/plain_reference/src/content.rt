// What a file or a symbolic link holds, in vectors of their own.
use ov_base::{Bytes, LinkTarget};

/// What a file or a symbolic link holds.
#[derive(Drop)]
pub enum Content {
    File(Bytes),
    SymbolicLink(LinkTarget),
}
