// What the client of a connection sends, frame by frame in its time.
ghost use Rattle.std.specs.Io.{ReadsAtMost};

use crate::connection::Connection;
use crate::frame_place::FramePlace;
use crate::service::Awaits;
use std::io;
use std::io::Read;
use std::time::{Clock, Duration, Instant};

/// Reads what a client sends. Where that may be idle for some time only, a read waits so long for the
/// first byte of a frame, and those for the others of that frame as long together. What passes
/// between two reads is the server's time, and counts for nothing.
#[derive(Drop)]
pub(crate) struct Requests<'c, G, H> {
    rt: &'c H,
    gate: &'c G,
    connection: &'c Connection,
    place: FramePlace,
    // How long the frame in which it stands may be waited for.
    left: Duration,
    // How long the socket has a read wait.
    limit: Duration,
}

impl<'c, G: Awaits, H: Clock> Requests<'c, G, H> {
    /// The requests of a connection, whose reads wait as long as it may be idle. The gate is told before
    /// each.
    pub(crate) fn new(rt: &'c H, gate: &'c G, connection: &'c Connection) -> Requests<'c, G, H> {
        let idle = Duration::from_secs(connection.idle.unwrap_or(0));
        Requests {
            rt,
            gate,
            connection,
            place: FramePlace::start(),
            left: idle,
            limit: idle,
        }
    }

    // Has the next read wait no longer than it may; or it may not wait any more.
    fn limit(&mut self) -> io::Result<()> {
        if self.left.is_zero() {
            return Err(self.connection.out_of_time());
        }
        if self.limit != self.left {
            self.connection.limit_reads(self.left)?;
            self.limit = self.left;
        }
        Ok(())
    }

    // Reads inside a frame, and takes the time for that from the frame's. Where the clock can't be
    // read, each read has the whole.
    fn read_timed(&mut self, piece: &mut [u8]) -> io::Result<usize>
        ensures { ReadsAtMost result piece.new }
    {
        let mut connection = self.connection;
        let began = Instant::now(self.rt);
        let read = connection.read(piece);
        if let Ok(began) = began {
            if let Ok(waited) = began.elapsed(self.rt) {
                self.left = self.left.saturating_sub(waited);
            }
        }
        read
    }

    // Reads once, in time where that is inside a frame.
    fn read_once(&mut self, piece: &mut [u8]) -> io::Result<usize>
        ensures { ReadsAtMost result piece.new }
    {
        let mut connection = self.connection;
        if self.place.is_inside() {
            self.read_timed(piece)
        } else {
            connection.read(piece)
        }
    }

    // The bytes that came are passed. A frame that begins has its whole time, and so has the first byte
    // of the next one where these end with a frame.
    fn follow(&mut self, bytes: &[u8], idle: u64) {
        let begins = self.place.pass(bytes);
        if begins || !self.place.is_inside() {
            self.left = Duration::from_secs(idle);
        }
    }
}

impl<G: Awaits, H: Clock> Read for Requests<'_, G, H> {
    fn read(&mut self, piece: &mut [u8]) -> io::Result<usize> {
        self.gate.awaits();
        let mut connection = self.connection;
        let Some(idle) = connection.idle else {
            return connection.read(piece);
        };
        self.limit()?;
        let count = self.read_once(piece)?;
        self.follow(&piece[..count], idle);
        Ok(count)
    }
}
