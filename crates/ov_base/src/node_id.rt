// Which object of a mount is meant.
use crate::path::Path;

/// The identity of an object: the path at which the mount began with it, or the serial under which it was made.
#[derive(Drop)]
pub enum NodeId {
    At(Path),
    New(u64),
}
