// What is read from.
ghost use Rattle.std.specs.Prelude.{◌≡◌, ◌+◌, ◌<◌, ◌≤◌, ℕ, List, Option, length, MatchResult};
ghost use Rattle.std.specs.Io.KnownBytes.{Keeps};
ghost use Rattle.ov_devices.specs.Devices.{Gives, failed};

use crate::fault::Fault;

/// A reader that is read at most so many times as it was made for, and counts its reads and those
/// that failed.
pub trait Source {
    /// The bytes that reads will give from here on, where they are known.
    ghost remaining: { Self → Option (List ℕ) };

    /// How many reads may be made in all.
    ghost most: { Self → ℕ };

    /// How many reads were made.
    ghost reads: { Self → ℕ };

    /// How many of them failed.
    ghost failures: { Self → ℕ };

    /// How many reads are left.
    fn reads_left(&self) -> u64
        ensures { result + reads self.now ≡ most self.now };

    /// How many bytes a read gives, 0 at the end; none where it was interrupted, and is to be made
    /// again.
    fn read(&mut self, piece: &mut [u8]) -> Result<Option<usize>, Fault>
        requires room { 0 < length piece.old }
        requires left { reads self.old < most self.old }
        ensures bytes { MatchResult result
            (λ read. Gives (remaining self.old) (remaining self.new) read piece.new)
            (λ _. Keeps (remaining self.old) (remaining self.new)) }
        ensures room { length piece.new ≡ length piece.old }
        ensures most { most self.new ≡ most self.old }
        ensures reads { reads self.new ≡ reads self.old + 1 }
        ensures failures { failures self.new ≡ failures self.old + failed result };

    /// No more reads are made than that, and no source is made for more than 140,737,488,355,327.
    ghost bounded: { (s : Self) → (reads s ≤ most s) × (most s ≤ 140737488355327) };
}
