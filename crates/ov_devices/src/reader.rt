// A reader of the host, counted.
ghost use Rattle.std.specs.Prelude.{◌≡◌, ◌≤◌};

use crate::fault::{Fault, counted};
use crate::source::Source;
use std::io;
use std::io::Read;

/// How many reads are made at most: 2^32 - 1.
const READS: u64 = 4_294_967_295;

/// And of a reader that may last for years: 2^47 - 1, a million a second for more than four years.
const READS_OF_YEARS: u64 = 140_737_488_355_327;

/// A reader, how many reads of it may be made, and how many were made and failed. Want of memory
/// and an interruption are no failures.
#[derive(Drop)]
pub struct CountedReader<R> {
    reader: R,
    most: u64,
    reads: u64,
    failures: u64,
    ghost bounded: { (reads ≤ most) × (most ≤ 140737488355327) },
    ghost fewer: { failures ≤ reads },
}

impl<R> CountedReader<R> {
    /// A reader that was not read yet, and is read 4,294,967,295 times at most.
    pub fn new(reader: R) -> CountedReader<R>
        ensures reader { result.reader ≡ reader }
        ensures most { result.most ≡ 4294967295 }
        ensures reads { result.reads ≡ 0 }
        ensures failures { result.failures ≡ 0 }
    {
        CountedReader {
            reader,
            most: READS,
            reads: 0,
            failures: 0,
        }
    }

    /// A reader that was not read yet, and is read 140,737,488,355,327 times at most.
    pub fn of_years(reader: R) -> CountedReader<R>
        ensures reader { result.reader ≡ reader }
        ensures most { result.most ≡ 140737488355327 }
        ensures reads { result.reads ≡ 0 }
        ensures failures { result.failures ≡ 0 }
    {
        CountedReader {
            reader,
            most: READS_OF_YEARS,
            reads: 0,
            failures: 0,
        }
    }
}

impl<R: Read> Source for CountedReader<R> {
    ghost remaining = { λ s. R.remaining s.reader };

    ghost most = { λ s. s.most };

    ghost reads = { λ s. s.reads };

    ghost failures = { λ s. s.failures };

    ghost bounded = { λ s. s.bounded };

    fn reads_left(&self) -> u64 {
        self.most - self.reads
    }

    fn read(&mut self, piece: &mut [u8]) -> Result<Option<usize>, Fault> {
        self.reads += 1;
        match self.reader.read(piece) {
            Ok(count) => Ok(Some(count)),
            Err(error) if error.kind() == io::ErrorKind::Interrupted => Ok(None),
            Err(error) => Err(counted(error, &mut self.failures)),
        }
    }
}
