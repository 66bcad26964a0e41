// Connections, which end where they wait too long.
ghost use Rattle.std.specs.Prelude.{◌≡◌};
ghost use Rattle.ov_frames.specs.Replies.{answer_frame};
ghost use Rattle.ov_frames.specs.declared.answer.Answer.TheVariants.{NotTaken};

use ov_base::Errno;
use std::io;
use std::io::{ErrorKind, Read, Write};
use std::os::unix::net::{UnixListener, UnixStream};
use std::sync::atomic::{AtomicBool, Ordering};
use std::time::Duration;

/// A connection that was taken, its number, after how many seconds it ends that is idle, and whether
/// a read or a write of it waited too long. It is made by taking it alone.
#[derive(Drop)]
pub(crate) struct Connection {
    pub(crate) number: u64,
    pub(crate) idle: Option<u64>,
    stream: UnixStream,
    timed_out: AtomicBool,
}

impl Connection {
    /// Takes the next connection of a listener. It waits for ever, and has no number yet.
    pub(crate) fn take(listener: &UnixListener) -> io::Result<Connection> {
        let (stream, _) = listener.accept()?;
        Ok(Connection {
            number: 0,
            idle: None,
            stream,
            timed_out: AtomicBool::new(false),
        })
    }

    /// From now on a read or a write fails that waits as long as it may be idle, if that is said.
    pub(crate) fn limit(&self) -> io::Result<()> {
        let Some(seconds) = self.idle else {
            return Ok(());
        };
        let limit = Duration::from_secs(seconds);
        self.stream.set_read_timeout(Some(limit))?;
        self.stream.set_write_timeout(Some(limit))
    }

    /// From now on a read fails that waits so long. It can't be no time.
    pub(crate) fn limit_reads(&self, limit: Duration) -> io::Result<()> {
        self.stream.set_read_timeout(Some(limit))
    }

    /// Its stream.
    pub(crate) fn stream(&self) -> &UnixStream {
        &self.stream
    }

    /// Whether a read or a write waited too long.
    pub(crate) fn timed_out(&self) -> bool {
        self.timed_out.load(Ordering::SeqCst)
    }

    /// A read has no time any more: what that fails with.
    pub(crate) fn out_of_time(&self) -> io::Error {
        self.timed_out.store(true, Ordering::SeqCst);
        io::Error::from(ErrorKind::WouldBlock)
    }

    /// Tells that no client is attached for it.
    pub(crate) fn refuse(&self, errno: Errno) {
        let mut writer = self;
        let _ = writer.write_all(&refusal(errno));
    }

    // Notes where this waited too long.
    fn note(&self, done: &io::Result<usize>) {
        if let Err(error) = done {
            if error.kind() == ErrorKind::WouldBlock {
                self.timed_out.store(true, Ordering::SeqCst);
            }
        }
    }
}

// The frame that tells that no client is attached. It takes no memory.
fn refusal(errno: Errno) -> [u8; 6]
    ensures { result ≡ answer_frame (NotTaken errno) }
{
    [0, 0, 0, 2, 2, errno.number()]
}

impl Read for &Connection {
    fn read(&mut self, piece: &mut [u8]) -> io::Result<usize> {
        let mut stream = &self.stream;
        let read = stream.read(piece);
        self.note(&read);
        read
    }
}

impl Write for &Connection {
    fn write(&mut self, bytes: &[u8]) -> io::Result<usize> {
        let mut stream = &self.stream;
        let written = stream.write(bytes);
        self.note(&written);
        written
    }

    fn flush(&mut self) -> io::Result<()> {
        let mut stream = &self.stream;
        stream.flush()
    }
}
