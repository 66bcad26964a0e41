// Why a device did not do what it was asked.
ghost use Rattle.std.specs.IoError.{error_kind};
ghost use Rattle.ov_devices.specs.Devices.{CountsFault};
ghost use Rattle.ov_devices.specs.Kinds.{IsFaultOf};

use std::io;

/// Why a device did not do what it was asked.
#[derive(Clone, Copy, Debug, PartialEq, Eq)]
pub enum Fault {
    /// There was no memory for it, which is no failure of the device.
    Memory,
    /// The device failed.
    Failed,
}

/// What an error of the host is, counted where it is a failure: up to the 18,446,744,073,709,551,615th.
pub(crate) fn counted(error: io::Error, failures: &mut u64) -> Fault
    ensures fault { IsFaultOf (error_kind error) result }
    ensures failures { CountsFault failures.old failures.new result }
{
    match error.kind() {
        io::ErrorKind::OutOfMemory => Fault::Memory,
        _ => {
            *failures = failures.saturating_add(1);
            Fault::Failed
        }
    }
}
