// The bytes of a file, or why there are none.
ghost use Rattle.std.specs.Prelude.{◌≤◌, IfOk, length};

use crate::failure::Failure;
use ov_server::Fault;
use std::alloc::Global;
use std::fs::Files;
use std::io::Read;
use std::path::AsPath;
use std::{fs, io};

/// Why a file's bytes could not be had.
#[derive(Drop)]
pub(crate) enum Unread {
    Memory,
    /// The system refused, for this reason.
    Reason(io::Error),
    /// They are more than may be read.
    TooLong,
}

/// The bytes of a file, of which at most one over the limit is read.
pub(crate) fn bytes_of<R: Files + AllocGlobal, P: AsPath>(
    rt: &R,
    path: P,
    limit: u64,
) -> Result<Vec<u8>, Unread>
    ensures { IfOk result (λ bytes. length bytes.items ≤ limit) }
{
    match fs::open(rt, path) {
        Ok(file) => taken(rt.alloc(), file, limit),
        Err(error) => Err(Unread::Reason(error)),
    }
}

/// The bytes that a reader gives up to its end, which are at most so many.
pub(crate) fn taken<S: Read + Drop>(alloc: Global, reader: S, limit: u64) -> Result<Vec<u8>, Unread>
    ensures { IfOk result (λ bytes. length bytes.items ≤ limit) }
{
    let mut bytes = Vec::new(alloc);
    match reader.take(limit.saturating_add(1)).read_to_end(&mut bytes) {
        Ok(_) if bytes.len() as u64 <= limit => Ok(bytes),
        Ok(_) => Err(Unread::TooLong),
        Err(error) if error.kind() == io::ErrorKind::OutOfMemory => Err(Unread::Memory),
        Err(error) => Err(Unread::Reason(error)),
    }
}

/// The failure of a file that could not be read, with its name and the reason.
pub(crate) fn cannot_read(
    alloc: Global,
    fault: Fault,
    path: &str,
    limit: u64,
    why: Unread,
) -> Failure {
    match why {
        Unread::Memory => Failure::from(Fault::Memory),
        Unread::Reason(error) => Failure::because(alloc, fault, format_args!("{path}: {error}")),
        Unread::TooLong => Failure::because(
            alloc,
            fault,
            format_args!("{path}: more than {limit} bytes, which --manifest-limit can raise"),
        ),
    }
}
