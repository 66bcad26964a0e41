// What a step of a job gives.
use ov_base::Reply;

/// What one step of a job gives: there is more to do, or the call's reply, or memory ran out.
#[derive(Drop)]
pub enum Turn {
    More,
    Done(Reply),
    NoMemory,
}
