// Readers and writers that are interrupted, and such that fail in one way.
use super::devices::{Pieces, Taker};
use std::io;
use std::io::{ErrorKind, Read, Write};

/// A reader each of whose reads is interrupted so often first.
#[derive(Drop)]
pub struct ShakyReader<'a> {
    pieces: Pieces<'a>,
    times: u32,
    left: u32,
}

impl ShakyReader<'_> {
    pub fn new(pieces: Pieces<'_>, times: u32) -> ShakyReader<'_> {
        ShakyReader {
            pieces,
            times,
            left: times,
        }
    }
}

impl Read for ShakyReader<'_> {
    fn read(&mut self, buf: &mut [u8]) -> io::Result<usize> {
        if self.left > 0 {
            self.left -= 1;
            return Err(io::Error::from(ErrorKind::Interrupted));
        }
        self.left = self.times;
        self.pieces.read(buf)
    }
}

/// A writer each of whose writes is interrupted so often first.
#[derive(Drop)]
pub struct ShakyWriter {
    pub taker: Taker,
    times: u32,
    left: u32,
}

impl ShakyWriter {
    pub fn new(taker: Taker, times: u32) -> ShakyWriter {
        ShakyWriter {
            taker,
            times,
            left: times,
        }
    }
}

impl Write for ShakyWriter {
    fn write(&mut self, buf: &[u8]) -> io::Result<usize> {
        if self.left > 0 {
            self.left -= 1;
            return Err(io::Error::from(ErrorKind::Interrupted));
        }
        self.left = self.times;
        self.taker.write(buf)
    }

    fn flush(&mut self) -> io::Result<()> {
        Ok(())
    }
}

/// A writer that takes all bytes, and whose flushes fail so after some.
#[derive(Drop)]
pub struct Unflushed {
    pub taker: Taker,
    flushes_left: usize,
    kind: ErrorKind,
}

impl Unflushed {
    pub fn new(taker: Taker, flushes: usize, kind: ErrorKind) -> Unflushed {
        Unflushed {
            taker,
            flushes_left: flushes,
            kind,
        }
    }
}

impl Write for Unflushed {
    fn write(&mut self, buf: &[u8]) -> io::Result<usize> {
        self.taker.write(buf)
    }

    fn flush(&mut self) -> io::Result<()> {
        if self.flushes_left == 0 {
            return Err(io::Error::from(self.kind));
        }
        self.flushes_left -= 1;
        Ok(())
    }
}

/// A reader and writer that fails at once, by a fault of this kind.
#[derive(Drop)]
pub struct Failing {
    pub kind: ErrorKind,
}

impl Read for Failing {
    fn read(&mut self, _buf: &mut [u8]) -> io::Result<usize> {
        Err(io::Error::from(self.kind))
    }
}

impl Write for Failing {
    fn write(&mut self, _buf: &[u8]) -> io::Result<usize> {
        Err(io::Error::from(self.kind))
    }

    fn flush(&mut self) -> io::Result<()> {
        Err(io::Error::from(self.kind))
    }
}

/// A reader or writer of which one read or write fails, after so many; all others do well.
#[derive(Drop)]
pub struct Once<D> {
    pub device: D,
    left: Option<usize>,
}

impl<D> Once<D> {
    pub fn new(device: D, before: usize) -> Once<D> {
        Once {
            device,
            left: Some(before),
        }
    }

    // Whether this is the one that fails.
    fn fails(&mut self) -> bool {
        let Some(left) = self.left else {
            return false;
        };
        self.left = left.checked_sub(1);
        left == 0
    }
}

impl<D: Read> Read for Once<D> {
    fn read(&mut self, buf: &mut [u8]) -> io::Result<usize> {
        if self.fails() {
            return Err(io::Error::from(ErrorKind::BrokenPipe));
        }
        self.device.read(buf)
    }
}

impl<D: Write> Write for Once<D> {
    fn write(&mut self, buf: &[u8]) -> io::Result<usize> {
        if self.fails() {
            return Err(io::Error::from(ErrorKind::BrokenPipe));
        }
        self.device.write(buf)
    }

    fn flush(&mut self) -> io::Result<()> {
        self.device.flush()
    }
}
