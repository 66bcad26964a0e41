// A writer of the host, counted.
ghost use Rattle.std.specs.Prelude.{◌≡◌};

use crate::fault::{Fault, counted};
use crate::sink::Sink;
use std::io;
use std::io::Write;

/// How often an interrupted write is made again before it counts as failed.
const TRIES: u32 = 1_000;

/// A writer, and how many writes and flushes failed. Want of memory is no failure.
#[derive(Drop)]
pub struct CountedWriter<W> {
    writer: W,
    failures: u64,
}

impl<W> CountedWriter<W> {
    /// A writer that was not written to yet.
    pub fn new(writer: W) -> CountedWriter<W>
        ensures writer { result.writer ≡ writer }
        ensures failures { result.failures ≡ 0 }
    {
        CountedWriter {
            writer,
            failures: 0,
        }
    }
}

impl<W: Write> Sink for CountedWriter<W> {
    ghost contents = { λ s. W.contents s.writer };

    ghost failures = { λ s. s.failures };

    fn write(&mut self, bytes: &[u8]) -> Result<usize, Fault> {
        'tries: for _ in 0..TRIES {
            match self.writer.write(bytes) {
                Ok(0) => break 'tries,
                Ok(count) => return Ok(count),
                Err(error) if error.kind() == io::ErrorKind::Interrupted => {}
                Err(error) => return Err(counted(error, &mut self.failures)),
            }
        }
        self.failures = self.failures.saturating_add(1);
        Err(Fault::Failed)
    }

    fn flush(&mut self) -> Result<(), Fault> {
        match self.writer.flush() {
            Ok(()) => Ok(()),
            Err(error) => Err(counted(error, &mut self.failures)),
        }
    }
}
