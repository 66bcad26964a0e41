// What threads of their own do beside a server, and its end with that of standard input.
use command_line::Serving;
use ov_server::Fault;
use server_files::Status;
use socket_server::Closing;
use std::alloc::Global;
use std::fs::Files;
use std::io::{ErrorKind, Input, Read};
use std::os::unix::net::UnixListener;
use std::sync::{Arc, Wait};
use std::thread;
use std::time::{Clock, Duration};

/// How many seconds clients have to read what was answered before the end.
const SECONDS_TO_READ: u64 = 5;

/// What a thread of its own does beside a server.
#[derive(Drop)]
pub(crate) enum Task {
    /// Closes it when standard input ends.
    Close(Arc<Closing, Global>),
    /// Writes its status.
    Tell(Arc<Status, Global>),
}

/// Does a task, until that is over.
pub(crate) fn do_task<R: Clock + Input + Files + Wait + AllocGlobal>(rt: &R, task: &Task) {
    match task {
        Task::Close(closing) => close_at_end(rt, closing),
        Task::Tell(status) => status.write_all(rt),
    }
}

/// What ends the server when standard input ends, if that is asked for. It is handed to what has a
/// thread do a task.
pub(crate) fn ending_of<W: Fn(Task) -> Result<(), Fault>>(
    alloc: Global,
    listener: &UnixListener,
    serving: &Serving<'_>,
    starts: &W,
) -> Result<Option<Arc<Closing, Global>>, Fault>
    requires always { (task : _) → W.pre starts.now task }
{
    if !serving.until_eof {
        return Ok(None);
    }
    let closing = match Closing::new(alloc, listener, serving.workers as usize) {
        Ok(closing) => Arc::new(alloc, closing)?,
        Err(fault) if fault.kind() == ErrorKind::OutOfMemory => return Err(Fault::Memory),
        Err(_) => return Err(Fault::Socket),
    };
    starts(Task::Close(Arc::try_clone(&closing)?))?;
    Ok(Some(closing))
}

/// What ends the server, without its count of holders.
pub(crate) fn closing_in(ending: &Option<Arc<Closing, Global>>) -> Option<&Closing> {
    match ending {
        Some(closing) => Some(closing),
        None => None,
    }
}

// Waits for the end of standard input, and closes the server. What can't be read has ended.
fn close_at_end<R: Clock + Input + Wait>(rt: &R, closing: &Closing) {
    let mut input = rt.reader();
    let mut piece = [0u8; 512];
    for _ in 0..u64::MAX {
        match input.read(&mut piece) {
            Ok(0) => break,
            Ok(_) => (),
            Err(fault) if fault.kind() == ErrorKind::Interrupted => (),
            Err(_) => break,
        }
    }
    closing.close(rt);
    thread::sleep(rt, Duration::from_secs(SECONDS_TO_READ));
    closing.cut(rt);
}
