// A device of which one use fails.
use std::io;
use std::io::{ErrorKind, Read, Write};

/// A reader or writer of which one read or write fails, after so many; all others do well.
#[derive(Drop)]
pub struct Once<D> {
    pub device: D,
    left: Option<usize>,
}

impl<D> Once<D> {
    pub fn new(device: D, before: usize) -> Once<D> {
        Once {
            device,
            left: Some(before),
        }
    }

    // Whether this is the one that fails.
    fn fails(&mut self) -> bool {
        let Some(left) = self.left else {
            return false;
        };
        self.left = left.checked_sub(1);
        left == 0
    }
}

impl<D: Read> Read for Once<D> {
    fn read(&mut self, buf: &mut [u8]) -> io::Result<usize> {
        if self.fails() {
            return Err(io::Error::from(ErrorKind::BrokenPipe));
        }
        self.device.read(buf)
    }
}

impl<D: Write> Write for Once<D> {
    fn write(&mut self, buf: &[u8]) -> io::Result<usize> {
        if self.fails() {
            return Err(io::Error::from(ErrorKind::BrokenPipe));
        }
        self.device.write(buf)
    }

    fn flush(&mut self) -> io::Result<()> {
        self.device.flush()
    }
}
