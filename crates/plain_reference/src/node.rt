// The nodes of the tree.

use crate::content::Content;
use crate::id::Id;
use crate::names::Names;
use ov_base::{Attributes, Bytes, Name, NameList, ObjectKind, OpenFlags, Reply, Stat, Texts};
use std::alloc::{AllocError, Global};

/// Where a file or symbolic link stands: in the upper layer, with bytes of its own or, where that is true, those of a file of the lower
/// layers; or untouched in a lower layer, whose link count it shows.
#[derive(Clone, Copy)]
pub enum Origin {
    Own(bool),
    Untouched(u64),
}

/// A directory, or a file or symbolic link. `count` is how many names lead to it.
#[derive(Drop)]
pub enum Node {
    Directory {
        attributes: Attributes,
        is_base: bool,
        names: Names,
        count: u64,
    },
    Leaf {
        content: Content,
        attributes: Attributes,
        origin: Origin,
        count: u64,
    },
}

/// Whether there is a directory.
pub fn is_folder(node: Option<&Node>) -> bool {
    matches!(node, Some(Node::Directory { .. }))
}

/// Whether there is a directory that a lower layer has too.
pub fn is_base(node: Option<&Node>) -> bool {
    match node {
        Some(Node::Directory { is_base, .. }) => *is_base,
        _ => false,
    }
}

/// Whether there is a symbolic link.
pub fn is_link(node: Option<&Node>) -> bool {
    match node {
        Some(
            Node::Leaf {
                content: Content::SymbolicLink(_),
                ..
            },
        ) => true,
        _ => false,
    }
}

/// Whether there is a file of the upper whose bytes are those of a lower one.
pub fn has_low_bytes(node: Option<&Node>) -> bool {
    match node {
        Some(
            Node::Leaf {
                origin: Origin::Own(low),
                ..
            },
        ) => *low,
        _ => false,
    }
}

/// Whether there is a directory with a name.
pub fn has_names(node: Option<&Node>) -> bool {
    match node {
        Some(Node::Directory { names, .. }) => !names.is_empty(),
        _ => false,
    }
}

/// Whether a name leads to the node.
pub fn is_named(node: Option<&Node>) -> bool {
    match node {
        Some(Node::Directory { count, .. }) => *count > 0,
        Some(Node::Leaf { count, .. }) => *count > 0,
        None => false,
    }
}

/// How many names lead to a node.
pub fn count_of(node: Option<&Node>) -> u64 {
    match node {
        Some(Node::Directory { count, .. }) => *count,
        Some(Node::Leaf { count, .. }) => *count,
        None => 0,
    }
}

/// The attributes of a node.
pub fn attributes_of(node: Option<&Node>) -> Option<&Attributes> {
    match node {
        Some(Node::Directory { attributes, .. }) => Some(attributes),
        Some(Node::Leaf { attributes, .. }) => Some(attributes),
        None => None,
    }
}

/// How many user attributes a node has.
pub fn user_count(node: Option<&Node>) -> usize {
    match node {
        Some(Node::Directory { attributes, .. }) => attributes.user.len(),
        Some(Node::Leaf { attributes, .. }) => attributes.user.len(),
        None => 0,
    }
}

/// The value of a user attribute of a node.
pub fn value_of<'a>(node: Option<&'a Node>, name: &[u8]) -> Option<&'a Bytes> {
    match node {
        Some(Node::Directory { attributes, .. }) => attributes.user.get(name),
        Some(Node::Leaf { attributes, .. }) => attributes.user.get(name),
        None => None,
    }
}

/// A copy of the value of a user attribute of a node; no bytes where it isn't there.
pub fn value_in(alloc: Global, node: Option<&Node>, name: &[u8]) -> Result<Bytes, AllocError> {
    match value_of(node, name) {
        Some(value) => value.clone(),
        None => Ok(Bytes::new(alloc)),
    }
}

/// The names of the user attributes of a node, in the order in which they were set.
pub fn user_names(alloc: Global, node: Option<&Node>) -> Result<Texts, AllocError> {
    match node {
        Some(Node::Directory { attributes, .. }) => attributes.user.names(alloc),
        Some(Node::Leaf { attributes, .. }) => attributes.user.names(alloc),
        None => Ok(Texts::from_vec(Vec::new(alloc))),
    }
}

// Whether the bytes are a lower file's after a change of attributes or names, which copies up.
fn low_after(metacopy: bool, content: &Content, origin: Origin) -> bool {
    match origin {
        Origin::Own(low) => low,
        Origin::Untouched(_) => metacopy && matches!(content, Content::File(_)),
    }
}

impl Node {
    /// Leads a name of the directory to a node; another node stays as it is.
    pub fn lead(&mut self, name: &Name, to: Id) -> Result<(), AllocError> {
        if let Node::Directory { names, .. } = self {
            names.insert(name.clone()?, to)?;
        }
        Ok(())
    }

    /// Takes a name out of the directory; another node stays as it is.
    pub fn unlead(&mut self, name: &Name) {
        if let Node::Directory { names, .. } = self {
            names.remove(name);
        }
    }

    /// Lets the node have a name less.
    pub fn lose_name(&mut self) {
        match self {
            Node::Directory { count, .. } => *count = count.saturating_sub(1),
            Node::Leaf { count, .. } => *count = count.saturating_sub(1),
        }
    }

    /// Lets a file or symbolic link have a name more, as far as numbers go; it then stands in the upper layer.
    pub fn gain_name(&mut self, metacopy: bool) {
        self.copy_up(metacopy);
        if let Node::Leaf { count, .. } = self {
            *count = count.saturating_add(1);
        }
    }

    /// Gives the node other attributes; a file or symbolic link then stands in the upper layer.
    pub fn give(&mut self, metacopy: bool, other: Attributes) {
        self.copy_up(metacopy);
        match self {
            Node::Directory { attributes, .. } => *attributes = other,
            Node::Leaf { attributes, .. } => *attributes = other,
        }
    }

    /// Copies a file or symbolic link of a lower layer up where its attributes or names change, a file without its bytes where the mount
    /// was told so.
    pub fn copy_up(&mut self, metacopy: bool) {
        if let Node::Leaf {
            content,
            origin,
            ..
        } = self
        {
            *origin = Origin::Own(low_after(metacopy, content, *origin));
        }
    }

    /// Copies a file or symbolic link of a lower layer up, and the bytes of a file that was copied up without them.
    pub fn touch(&mut self) {
        if let Node::Leaf { origin, .. } = self {
            *origin = Origin::Own(false);
        }
    }

    /// Gives a file other bytes; another node stays as it is.
    pub fn fill(&mut self, other: Bytes) {
        if let Node::Leaf {
            content: Content::File(bytes),
            ..
        } = self
        {
            *bytes = other;
        }
    }

    /// Lets the node be opened: write access copies a file up, and TRUNC empties it.
    pub fn open(&mut self, alloc: Global, flags: OpenFlags) {
        if flags.writes {
            self.touch();
            if flags.truncate {
                self.fill(Bytes::new(alloc));
            }
        }
    }
}

/// The sorted names of a directory; of another node none.
pub fn names_in(alloc: Global, node: Option<&Node>) -> Result<NameList, AllocError> {
    match node {
        Some(Node::Directory { names, .. }) => Ok(NameList::from_vec(names.list(alloc)?)),
        _ => Ok(NameList::new(alloc)),
    }
}

/// The status of an object.
pub fn stat_by(kind: ObjectKind, attributes: &Attributes, size: u64, links: u32) -> Reply {
    Reply::Status(Stat {
        kind,
        mode: attributes.mode.bits(),
        uid: attributes.uid,
        gid: attributes.gid,
        size,
        links,
    })
}

/// The link count that stat(2) has room for.
pub fn capped(links: u64) -> u32 {
    links.min(u64::from(u32::MAX)) as u32
}

fn shown_links(origin: Origin, count: u64) -> u64 {
    match origin {
        Origin::Own(_) => count,
        Origin::Untouched(links) => links,
    }
}

/// What `stat` shows of a node: a directory has size 0 and 1 link.
pub fn stat_of(node: Option<&Node>) -> Reply {
    match node {
        None => Reply::Done,
        Some(Node::Directory { attributes, .. }) => {
            stat_by(ObjectKind::Directory, attributes, 0, 1)
        }
        Some(
            Node::Leaf {
                content,
                attributes,
                origin,
                count,
            },
        ) => {
            let links = capped(shown_links(*origin, *count));
            match content {
                Content::File(bytes) => {
                    stat_by(
                        ObjectKind::File,
                        attributes,
                        bytes.as_slice().len() as u64,
                        links,
                    )
                }
                Content::SymbolicLink(target) => stat_by(
                    ObjectKind::SymbolicLink,
                    attributes,
                    target.as_bytes().as_slice().len() as u64,
                    links,
                ),
            }
        }
    }
}

/// The same of a file through a handle that keeps these bytes: their number is the size, all else is the node's.
pub fn stat_kept(bytes: &Bytes, node: Option<&Node>) -> Reply {
    match node {
        Some(
            Node::Leaf {
                attributes,
                origin,
                count,
                ..
            },
        ) => {
            let size = bytes.as_slice().len() as u64;
            let names = shown_links(*origin, *count);
            stat_by(ObjectKind::File, attributes, size, capped(names))
        }
        _ => stat_of(node),
    }
}

/// The bytes of a file, or of the target of a symbolic link; of another node none.
pub fn bytes_in<'a>(node: Option<&'a Node>) -> &'a [u8] {
    match node {
        Some(Node::Leaf { content, .. }) => match content {
            Content::File(bytes) => bytes.as_slice(),
            Content::SymbolicLink(target) => target.as_bytes().as_slice(),
        },
        _ => &[],
    }
}

/// A copy of those bytes.
pub fn bytes_of(alloc: Global, node: Option<&Node>) -> Result<Bytes, AllocError> {
    Bytes::from_slice(alloc, bytes_in(node))
}
