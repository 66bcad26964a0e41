// How many connections were served, and how many refused a client.
ghost use Rattle.std.specs.Prelude.{◌≡◌, ◌+◌, ◌<◌};

use crate::connection::Connection;
use ov_base::Errno;

/// How many connections of a worker had a client, and how many were refused one. Each is counted by
/// the connection itself, which ends with that, so that nothing is counted twice or without one. Who
/// is turned away since no worker is free comes to none, and is in no tally.
#[derive(Drop)]
pub(crate) struct Tally {
    served: u64,
    refused: u64,
}

impl Tally {
    /// No connection was taken.
    pub(crate) fn new() -> Tally
        ensures { (result.served ≡ 0) × (result.refused ≡ 0) }
    {
        Tally {
            served: 0,
            refused: 0,
        }
    }

    /// The client of a connection was served.
    pub(crate) fn serves(&mut self, connection: Connection)
        requires few { self.old.served + self.old.refused < 18446744073709551615 }
        ensures served { self.new.served ≡ self.old.served + 1 }
        ensures refused { self.new.refused ≡ self.old.refused }
    {
        drop(connection);
        self.served += 1;
    }

    /// A connection is refused a client, and told this number.
    pub(crate) fn refuses(&mut self, connection: Connection, errno: Errno)
        requires few { self.old.served + self.old.refused < 18446744073709551615 }
        ensures served { self.new.served ≡ self.old.served }
        ensures refused { self.new.refused ≡ self.old.refused + 1 }
    {
        connection.refuse(errno);
        drop(connection);
        self.refused += 1;
    }
}
