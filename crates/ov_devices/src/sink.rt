// What is written to.
ghost use Rattle.std.specs.Prelude.{◌<◌, ◌≤◌, ℕ, List, Option, length, IfOk, OnOk};
ghost use Rattle.std.specs.Io.KnownBytes.{Appends, Keeps, WriteAppends};
ghost use Rattle.ov_devices.specs.Devices.{Counts};

use crate::fault::Fault;

/// A writer that counts the writes and flushes that failed, up to
/// 18,446,744,073,709,551,615 of them.
pub trait Sink {
    /// The bytes that the writer holds, where they are known.
    ghost contents: { Self → Option (List ℕ) };

    /// How many writes and flushes failed.
    ghost failures: { Self → ℕ };

    /// How many of some bytes a write took, at least one. A write that takes none failed.
    fn write(&mut self, bytes: &[u8]) -> Result<usize, Fault>
        requires some { 0 < length bytes.now }
        ensures some { IfOk result (λ count. (0 < count) × (count ≤ length bytes.now)) }
        ensures bytes { WriteAppends (contents self.old) (contents self.new) result bytes.now }
        ensures failures { Counts (failures self.old) (failures self.new) result };

    /// Has the writer hand on what it took.
    fn flush(&mut self) -> Result<(), Fault>
        ensures bytes { Keeps (contents self.old) (contents self.new) }
        ensures failures { Counts (failures self.old) (failures self.new) result };
}

/// Writes all of some bytes.
pub fn write_all<K: Sink>(sink: &mut K, bytes: &[u8]) -> Result<(), Fault>
    ensures bytes { OnOk result
        (Appends (K.contents sink.old) (K.contents sink.new) bytes.now) }
    ensures failures { Counts (K.failures sink.old) (K.failures sink.new) result }
{
    let mut rest = bytes;
    'parts: while !rest.is_empty() {
        let count = sink.write(rest)?;
        rest = &rest[count..];
    }
    Ok(())
}
