// The lines that a server tells with `--verbose`, and those of them that wait to be told.
use circular_buffer::HeapCircularBuffer;
use ov_base::Errno;
use ov_frames::FrameFault;
use ov_session::Ending;
use std::alloc::{AllocError, Global};
use std::fmt;
use std::fmt::{Display, Formatter, Write};

const TURNED_AWAY: &str = "overlayd: a connection is turned away: no worker is free\n";

/// What is told of a session, of one who gets none, or of the history, or how many lines were lost.
/// To tell it takes no memory.
#[derive(Clone, Copy)]
pub(crate) enum Line {
    Begins {
        session: u64,
        client: u64,
    },
    IsNotAttached {
        session: u64,
        errno: Errno,
    },
    Ends {
        session: u64,
        calls: u64,
        ending: Ending,
        timed_out: bool,
    },
    /// Nine tenths of a history of so many places are used.
    NineTenths(usize),
    /// All places of a history are used.
    Full(usize),
    TurnedAway,
    Lost(u64),
}

impl Display for Line {
    fn fmt<W: Write>(&self, f: &mut Formatter<W>) -> fmt::Result {
        match *self {
            Line::Begins { session, client } => {
                write!(f, "overlayd: session {session} begins as client {client}\n")
            }
            Line::IsNotAttached { session, errno } => {
                let why = errno.text();
                write!(f, "overlayd: session {session} is not attached: {why}\n")
            }
            Line::Ends {
                session,
                calls,
                ending,
                timed_out,
            } => {
                let how = if timed_out {
                    "timed out"
                } else {
                    ending_text(ending)
                };
                write!(
                    f,
                    "overlayd: session {session} ends after {calls} calls: {how}\n"
                )
            }
            Line::NineTenths(places) => {
                write!(
                    f,
                    "overlayd: nine tenths of the history's {places} places are used\n"
                )
            }
            Line::Full(places) => {
                write!(
                    f,
                    "overlayd: the history is full: its {places} places are used\n"
                )
            }
            Line::TurnedAway => f.write_str(TURNED_AWAY),
            Line::Lost(count) => write!(f, "overlayd: lines lost: {count}\n"),
        }
    }
}

// The words for how a session ended.
fn ending_text(ending: Ending) -> &'static str {
    match ending {
        Ending::Detached => "detached",
        Ending::Ended => "end of input",
        Ending::Cut => "end of input inside a frame",
        Ending::Frame(FrameFault::BadLength) => "bad frame: length",
        Ending::Frame(FrameFault::BadOp) => "bad frame: op",
        Ending::Frame(FrameFault::BadFields) => "bad frame: fields",
        Ending::Read => "read failed",
        Ending::Write => "write failed",
        Ending::Memory => "out of memory",
        Ending::Stopped => "stopped",
    }
}

/// The lines that wait, how many were lost since no more could wait, and whether all came.
#[derive(Drop)]
pub(crate) struct Waiting {
    lines: HeapCircularBuffer<Line>,
    lost: u64,
    closed: bool,
}

impl Waiting {
    /// So many lines can wait.
    pub(crate) fn new(alloc: Global, most: usize) -> Result<Waiting, AllocError> {
        Ok(Waiting {
            lines: HeapCircularBuffer::with_capacity(alloc, most)?,
            lost: 0,
            closed: false,
        })
    }

    /// A line waits, or is lost where too many do.
    pub(crate) fn put(&mut self, line: Line) {
        if self.lines.try_push_back(line).is_err() {
            self.lost = self.lost.saturating_add(1);
        }
    }

    /// No more lines come.
    pub(crate) fn close(&mut self) {
        self.closed = true;
    }

    /// Whether there is nothing to tell yet.
    pub(crate) fn is_quiet(&self) -> bool {
        self.lines.is_empty() && self.lost == 0 && !self.closed
    }

    /// The next line, behind all that waited how many were lost.
    pub(crate) fn take(&mut self) -> Option<Line> {
        if let Some(line) = self.lines.pop_front() {
            return Some(line);
        }
        if self.lost == 0 {
            return None;
        }
        let count = self.lost;
        self.lost = 0;
        Some(Line::Lost(count))
    }
}
