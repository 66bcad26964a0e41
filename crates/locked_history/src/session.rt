/// A client, and the number of its next entry. It is plain data that can be copied, so it is judged
/// anew in each step.
#[derive(Clone, Copy)]
pub struct Session {
    pub client: u64,
    pub number: u64,
}

/// Why a call, or a detach, was not made. None of these is an entry of the history.
#[derive(Clone, Copy, Debug, PartialEq, Eq)]
pub enum Refused {
    /// Memory ran out.
    Memory,
    /// The history has no place that no client's detach needs.
    Full,
    /// The client isn't attached, or the session's number isn't the client's next.
    Session,
    /// The gate said so.
    Stopped,
}
