//! One layer of an overlay mount: a tree of objects in memory.
#![tactic(auto)]

mod attribute_change;
mod file_fill;
mod file_size;
mod file_write;
mod hashed_names;
mod layer;
mod link_count;
mod name_table;
mod node;

pub use layer::{Layer, ROOT};
pub use name_table::{Entry, NameTable};
pub use node::{Directory, Inode, Marks, Node, Object};
