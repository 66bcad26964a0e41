// What a session reads.
ghost use Rattle.std.specs.Prelude.{◌≡◌, ◌<◌, ◌≤◌, length, IfErr, IfOk, OnErr, OnOk};
ghost use Rattle.std.specs.Io.KnownBytes.{Keeps};
ghost use Rattle.ov_devices.specs.Devices.{Reads};
ghost use Rattle.ov_session.specs.Devices.{IsInputEnd};

use crate::ending::Ending;
use ov_devices::{Fault, Source};

/// How many bytes a read gives, 0 at the end. An interrupted read is made again.
pub(crate) fn read_piece<S: Source>(input: &mut S, piece: &mut [u8]) -> Result<usize, Ending>
    requires room { 0 < length piece.old }
    ensures ok { IfOk result (λ count.
        Reads (S.remaining input.old) (S.remaining input.new) count piece.new) }
    ensures room { length piece.new ≡ length piece.old }
    ensures more { OnOk result (S.reads input.old < S.reads input.new) }
    ensures well { OnOk result (S.failures input.new ≡ S.failures input.old) }
    ensures kept { OnErr result (Keeps (S.remaining input.old) (S.remaining input.new)) }
    ensures reads { S.reads input.old ≤ S.reads input.new }
    ensures most { S.most input.new ≡ S.most input.old }
    ensures end { IfErr result
        (IsInputEnd (S.failures input.old) (S.failures input.new) (S.reads input.new)
        (S.most input.old)) }
{
    'tries: while input.reads_left() > 0 {
        match input.read(piece) {
            Ok(Some(count)) => return Ok(count),
            Ok(None) => {}
            Err(Fault::Memory) => return Err(Ending::Memory),
            Err(Fault::Failed) => return Err(Ending::Read),
        }
    }
    Err(Ending::Read)
}
