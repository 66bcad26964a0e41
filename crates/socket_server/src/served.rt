/// How a server ended.
#[derive(Clone, Copy, Debug, PartialEq, Eq)]
pub enum Served {
    /// Each worker took its connections, and served or refused each. Connections that were turned
    /// away, since no worker was free, are none of these.
    Done,
    /// It was closed before: no worker failed, and one at least took fewer connections.
    Stopped,
    /// A worker could not go on, which was told.
    Failed,
}
