// Readers that give their bytes in pieces and writers that take them so, until they fail.
use std::alloc::Global;
use std::io;
use std::io::{Read, Write};

/// A reader or writer that never fails makes no more reads or writes than this.
const ENDLESS: usize = 1_000_000;

/// Gives its bytes up to a cut, then those behind it.
#[derive(Drop)]
pub struct Pieces<'a> {
    left: &'a [u8],
    until_cut: usize,
    most: usize,
    reads_left: usize,
}

impl Pieces<'_> {
    /// Two pieces, the first of so many bytes; one piece for none.
    pub fn cut(bytes: &[u8], cut: usize) -> Pieces<'_> {
        Pieces {
            left: bytes,
            until_cut: cut,
            most: ENDLESS,
            reads_left: ENDLESS,
        }
    }

    /// Pieces of at most so many bytes.
    pub fn most(bytes: &[u8], most: usize) -> Pieces<'_> {
        Pieces {
            left: bytes,
            until_cut: 0,
            most,
            reads_left: ENDLESS,
        }
    }

    /// A byte at a time, and after so many reads a failure.
    pub fn single(bytes: &[u8], reads: usize) -> Pieces<'_> {
        Pieces {
            left: bytes,
            until_cut: 0,
            most: 1,
            reads_left: reads,
        }
    }
}

impl Read for Pieces<'_> {
    fn read(&mut self, buf: &mut [u8]) -> io::Result<usize> {
        if self.reads_left == 0 {
            return Err(io::Error::from(io::ErrorKind::BrokenPipe));
        }
        self.reads_left -= 1;
        let room = buf.len().min(self.most);
        let end = if self.until_cut > 0 {
            room.min(self.until_cut)
        } else {
            room
        };
        let count = self.left.read(&mut buf[..end])?;
        self.until_cut = self.until_cut.saturating_sub(count);
        Ok(count)
    }
}

/// Takes a few bytes at a time, and after some writes fails.
#[derive(Drop)]
pub struct Taker {
    pub taken: Vec<u8>,
    most: usize,
    writes_left: usize,
}

impl Taker {
    /// Takes all bytes.
    pub fn new(alloc: Global) -> Taker {
        Taker {
            taken: Vec::new(alloc),
            most: ENDLESS,
            writes_left: ENDLESS,
        }
    }

    /// A byte at a time, and after so many writes a failure.
    pub fn single(alloc: Global, writes: usize) -> Taker {
        Taker {
            taken: Vec::new(alloc),
            most: 1,
            writes_left: writes,
        }
    }
}

impl Write for Taker {
    fn write(&mut self, buf: &[u8]) -> io::Result<usize> {
        if self.writes_left == 0 {
            return Err(io::Error::from(io::ErrorKind::BrokenPipe));
        }
        self.writes_left -= 1;
        let most = buf.len().min(self.most);
        self.taken.extend_from_slice(&buf[..most])?;
        Ok(most)
    }

    fn flush(&mut self) -> io::Result<()> {
        Ok(())
    }
}
