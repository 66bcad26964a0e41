//! Devices: what is read from and written to, whose calls and failures are counted where no caller can set them.
#![tactic(auto)]

mod fault;
mod reader;
mod sink;
mod source;
mod writer;

pub use fault::Fault;
pub use reader::CountedReader;
pub use sink::{Sink, write_all};
pub use source::Source;
pub use writer::CountedWriter;
