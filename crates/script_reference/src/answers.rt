// The lines that answer commands.
use ov_base::{Errno, Reply};
use ov_script::ReplyLine;
use std::alloc::{AllocError, Global};

/// The line of a client that was attached.
pub fn attached_line(alloc: Global, client: u64) -> Result<String, AllocError> {
    format!(in alloc; "client {client}\n")
}

/// The line of a client that was not attached.
pub fn not_attached_line(alloc: Global, errno: Errno) -> Result<String, AllocError> {
    let errno = errno.text();
    format!(in alloc; "not attached {errno}\n")
}

/// The line of a client that was detached.
pub fn detached_line(alloc: Global, client: u32) -> Result<String, AllocError> {
    format!(in alloc; "{client} detached\n")
}

/// The line of a call that was not taken.
pub fn not_taken_line(alloc: Global, client: u32, errno: Errno) -> Result<String, AllocError> {
    let errno = errno.text();
    format!(in alloc; "{client} not taken {errno}\n")
}

/// The line of a reply.
pub fn reply_line(alloc: Global, client: u32, reply: &Reply) -> Result<String, AllocError> {
    let line = ReplyLine { client, reply };
    format!(in alloc; "{line}\n")
}

/// The line of a call that has steps left.
pub fn more_line(alloc: Global, client: u32) -> Result<String, AllocError> {
    format!(in alloc; "{client} more\n")
}

/// The line of a call that was given up.
pub fn dropped_line(alloc: Global, client: u32) -> Result<String, AllocError> {
    format!(in alloc; "{client} dropped\n")
}

/// The line of how many temps there are.
pub fn work_line(alloc: Global, temps: usize) -> Result<String, AllocError> {
    format!(in alloc; "work {temps}\n")
}
