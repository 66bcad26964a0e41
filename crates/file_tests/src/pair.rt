// A file beside a vector that is to have the same bytes.
use crate::vectors::{all_of, below, lay_plainly, some_bytes};
use file_bytes::FileBytes;
use rand_pcg::Pcg32;
use std::alloc::Global;
use std::process::Abort;

/// More bytes than files have here, but for long writes.
pub const MOST: usize = 250_000;

/// A file, and a vector that is to have the same bytes.
#[derive(Drop)]
pub struct Pair {
    pub file: FileBytes,
    pub plain: Vec<u8>,
    /// Where the last write ended.
    pub end: usize,
}

impl Pair {
    /// A file of these bytes.
    pub fn of(rt: &impl Abort, alloc: Global, plain: Vec<u8>) -> Pair {
        let bytes = plain.clone().expect(rt, "memory");
        let file = FileBytes::from_vec(alloc, bytes).expect(rt, "memory");
        Pair {
            file,
            plain,
            end: 0,
        }
    }

    /// A copy of both.
    pub fn copy(&self, rt: &impl Abort) -> Pair {
        Pair {
            file: self.file.clone().expect(rt, "memory"),
            plain: self.plain.clone().expect(rt, "memory"),
            end: self.end,
        }
    }

    /// One change of both.
    pub fn change(&mut self, rt: &impl Abort, alloc: Global, dice: &mut Pcg32) {
        let len = self.plain.len();
        match below(dice, 5) {
            0 => self.write(rt, alloc, dice, MOST, 65_537),
            1 => self.write(rt, alloc, dice, len, 5_000),
            2 => self.write_on(rt, alloc, dice),
            3 => {
                let size = below(dice, MOST);
                self.resize(rt, size);
            }
            _ => {
                let count = below(dice, len);
                self.share(rt, count);
            }
        }
    }

    // A write somewhere in so many bytes, of fewer than so many.
    fn write(
        &mut self,
        rt: &impl Abort,
        alloc: Global,
        dice: &mut Pcg32,
        within: usize,
        most: usize,
    ) {
        let start = below(dice, within);
        let count = below(dice, most);
        let bytes = some_bytes(rt, alloc, dice, count);
        self.lay(rt, start, &bytes);
    }

    // A write of a few bytes about where the last one ended.
    fn write_on(&mut self, rt: &impl Abort, alloc: Global, dice: &mut Pcg32) {
        let back = below(dice, 100);
        let count = below(dice, 5_000);
        let bytes = some_bytes(rt, alloc, dice, count);
        let start = self.end.min(self.plain.len()).saturating_sub(back);
        self.lay(rt, start.min(MOST), &bytes);
    }

    fn resize(&mut self, rt: &impl Abort, size: usize) {
        self.file.resize(size).expect(rt, "memory");
        self.plain.resize(size, 0).expect(rt, "memory");
    }

    /// Keeps the first bytes of both.
    pub fn share(&mut self, rt: &impl Abort, count: usize) {
        self.file = self.file.share(count).expect(rt, "memory");
        self.plain.truncate(count);
    }

    /// These bytes laid over both.
    pub fn lay(&mut self, rt: &impl Abort, start: usize, bytes: &[u8]) {
        assert!(rt; start <= MOST);
        assert!(rt; bytes.len() <= MOST);
        self.file.lay_over(start, bytes).expect(rt, "memory");
        lay_plainly(rt, &mut self.plain, start, bytes);
        self.end = start + bytes.len();
    }

    /// Whether both have the same bytes, where the file is read so many at a time.
    pub fn agree(&self, rt: &impl Abort, alloc: Global, step: usize) -> bool {
        let all = all_of(rt, alloc, &self.file, step);
        self.file.len() == self.plain.len() && all == self.plain
    }
}
