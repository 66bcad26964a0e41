// What an open handle sees of its node.

use crate::content::Content;
use crate::node::{Node, Origin, bytes_in, capped, stat_by, stat_kept, stat_of};
use ov_base::{Attributes, Bytes, ObjectKind, OpenFlags, Reply};
use std::alloc::AllocError;

/// What a handle sees: its node as it is, or, where it was opened for reading alone on a file whose bytes were a lower layer's, these
/// bytes, and of an untouched file its attributes and link count too (overlayfs.rst, "Non-standard behavior").
#[derive(Drop)]
pub enum View {
    Live,
    Kept(Bytes),
    Frozen(Bytes, Attributes, u64),
}

// What a handle for reading alone sees of a file.
fn view_by(origin: Origin, bytes: &Bytes, attributes: &Attributes) -> Result<View, AllocError> {
    match origin {
        Origin::Own(false) => Ok(View::Live),
        Origin::Own(true) => Ok(View::Kept(bytes.clone()?)),
        Origin::Untouched(links) => Ok(View::Frozen(bytes.clone()?, attributes.clone()?, links)),
    }
}

impl View {
    /// What a new handle on a node sees.
    pub fn of(flags: OpenFlags, node: Option<&Node>) -> Result<View, AllocError> {
        match node {
            Some(
                Node::Leaf {
                    content: Content::File(bytes),
                    attributes,
                    origin,
                    ..
                },
            ) => {
                if flags.writes {
                    Ok(View::Live)
                } else {
                    view_by(*origin, bytes, attributes)
                }
            }
            _ => Ok(View::Live),
        }
    }

    /// The bytes that it shows of a node.
    pub fn bytes<'a>(&'a self, node: Option<&'a Node>) -> &'a [u8] {
        match self {
            View::Live => bytes_in(node),
            View::Kept(bytes) => bytes.as_slice(),
            View::Frozen(bytes, _, _) => bytes.as_slice(),
        }
    }

    /// What fstat(2) shows of a node through it.
    pub fn stat(&self, node: Option<&Node>) -> Reply {
        match self {
            View::Live => stat_of(node),
            View::Kept(bytes) => stat_kept(bytes, node),
            View::Frozen(bytes, attributes, links) => {
                let size = bytes.as_slice().len() as u64;
                stat_by(ObjectKind::File, attributes, size, capped(*links))
            }
        }
    }
}
