//! Frames: the requests that the bytes of a stream spell, in whatever pieces they come, and the
//! bytes of replies.
#![tactic(auto)]

mod answer;
mod decoder;
mod fault;
mod feeding;
mod fields;
mod front;
mod laws;
mod open_flags;
mod reading;
mod request;
mod writing;

pub use answer::{Answer, LentAnswer};
pub use decoder::{Decoder, End};
pub use fault::FrameFault;
pub use front::{FRAME_MAX, Front, front_end, front_of};
pub use laws::{law_of_frames, law_of_pieces, law_of_replies, worked_rows};
pub use request::{Request, TextCall};
pub use writing::{append_reply, encode_reply};
