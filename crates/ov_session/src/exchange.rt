// What passed between a session and its door.
use ov_base::Call;
use ov_frames::Answer;

/// What passed between a session and its door, one of a list in order.
#[derive(Drop)]
pub enum Exchange {
    /// A call, and what it was answered.
    Called(Call, Answer),
    /// A call that the door held back: it was not made, and the session ends.
    HeldBack(Call),
    /// The client was detached, and this was answered.
    Departed(Answer),
}
