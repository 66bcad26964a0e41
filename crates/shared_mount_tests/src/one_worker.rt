// A server on a mount that others use too. Its one worker has no client left for its connection,
// another thread uses the number of the client of its connection, or its client says nothing; or two
// workers have two clients.
ghost use Rattle.locked_history.specs.Names.{IsNamed};

use crate::checks::{counts, holds, keys_of};
use crate::mounts::{Silent, attached, blank_of, ended, looking, made};
use crate::peers::{
    DETACH, SHOWN_FIRST, STAT_ROOT, ask, assert_closed, connected, hear, socket_path,
};
use crate::two_workers::two_clients;
use locked_history::{Blank, Mount, MountName, Receipt, Session};
use socket_server::{Reports, ServeOptions, Served, serve_mount};
use std::alloc::Global;
use std::fs;
use std::fs::Files;
use std::hash::RandomState;
use std::io::Eprint;
use std::marker::Brand;
use std::net::Net;
use std::os::unix::net::{UnixListener, UnixStream};
use std::process::Abort;
use std::sync::Wait;
use std::test::Fail;
use std::thread::{Threads, join};
use std::time::Clock;
use watch_table::{AnyAnswer, Callback, Hook, Rule};

const EMPTY: &str = "layer = [{}, {}]";

/// How many clients a mount has at most.
const CLIENTS_MOST: usize = 64;

/// What is sent where no client is attached for that: ENFILE.
const CROWDED: &[u8] = b"\x00\x00\x00\x02\x02\x17";

/// What a detach is answered whose session's number was used: EINVAL.
const NOT_ITS_SESSION: &[u8] = b"\x00\x00\x00\x02\x02\x16";

/// What happens to a connection; how many receipts the workers leave, how the server ends, and how
/// many entries the history has.
#[derive(Clone, Copy)]
pub enum Meeting {
    IsCrowdedOut,
    IsMeddledWith,
    SaysNothing,
    /// 2 attaches, 4 answered calls and 2 detaches.
    IsOneOfTwo,
}

impl Meeting {
    fn receipts(self) -> usize {
        match self {
            Meeting::IsCrowdedOut => 0,
            Meeting::IsMeddledWith | Meeting::SaysNothing => 2,
            Meeting::IsOneOfTwo => 8,
        }
    }

    fn end(self) -> Served {
        match self {
            Meeting::IsCrowdedOut | Meeting::SaysNothing | Meeting::IsOneOfTwo => Served::Done,
            Meeting::IsMeddledWith => Served::Failed,
        }
    }

    fn entries(self) -> usize {
        match self {
            Meeting::IsCrowdedOut => CLIENTS_MOST,
            Meeting::IsMeddledWith => 3,
            Meeting::SaysNothing => 2,
            Meeting::IsOneOfTwo => 8,
        }
    }
}

// As many clients as there can be are attached.
fn crowd<N: MountName, F: Callback + Drop, R: Rule, H: Wait + Abort>(
    rt: &H,
    alloc: Global,
    mount: &Mount<N, F, R>,
) {
    for _client in 0..CLIENTS_MOST {
        let _came = attached(rt, mount, Vec::new(alloc));
    }
}

// The client of a connection asks once, then another uses its next number, and it can't be detached.
fn meddle<N: MountName, F: Callback + Drop, R: Rule, H: Wait + Abort>(
    rt: &H,
    alloc: Global,
    mount: &Mount<N, F, R>,
    stream: &UnixStream,
) {
    ask(rt, stream, STAT_ROOT, SHOWN_FIRST);
    let mut copy = Session {
        client: 0,
        number: 3,
    };
    let _made = made(rt, mount, &mut copy, looking(alloc));
    ask(rt, stream, DETACH, NOT_ITS_SESSION);
}

// What the clients meet.
fn meets<N: MountName, F: Callback + Drop, R: Rule, H: Net + Wait + Abort>(
    rt: &H,
    alloc: Global,
    mount: &Mount<N, F, R>,
    path: &str,
    meeting: Meeting,
) {
    if let Meeting::IsOneOfTwo = meeting {
        return two_clients(rt, path);
    }
    let stream = connected(rt, path);
    match meeting {
        Meeting::IsCrowdedOut => hear(rt, &stream, CROWDED),
        Meeting::IsMeddledWith => meddle(rt, alloc, mount, &stream),
        Meeting::SaysNothing | Meeting::IsOneOfTwo => {}
    }
    assert_closed(rt, &stream);
}

// The receipts of what the workers did, and how the server ended.
fn receipts_of<N, F, R, H>(
    rt: &H,
    alloc: Global,
    options: &ServeOptions<'_>,
    mount: &Mount<N, F, R>,
    meeting: Meeting,
) -> (Vec<Receipt<N>>, Served)
where
    N: MountName + Send + Sync,
    F: Callback + Copy + Send + Sync,
    R: Rule + Send + Sync,
    H: Files + Net + Threads + Wait + Eprint + Clock + Abort + Sync,
{
    let path = options.socket;
    let reports = Reports::new(rt, alloc, options.verbose).expect(rt, "memory");
    let hooks: Vec<Hook<F, R>> = Vec::new(alloc);
    let listener = UnixListener::bind(rt, path).expect(rt, "a socket");
    let (socket, clients, tell) = (&listener, hooks.as_slice(), &reports);
    let (receipts, ()) = join(
        rt,
        move || serve_mount(rt, alloc, socket, mount, clients, tell, options),
        || meets(rt, alloc, mount, path, meeting),
    );
    fs::remove_file(rt, path).expect(rt, "no socket is left");
    receipts.expect(rt, "memory")
}

// The workers end as they are to, and their receipts stand in the one history.
fn served<N, F, R, H>(
    rt: &H,
    alloc: Global,
    options: &ServeOptions<'_>,
    blank: Blank<F, R>,
    meeting: Meeting,
)
where
    N: MountName + Send + Sync,
    F: Callback + Copy + Send + Sync,
    R: Rule + Send + Sync,
    H: Files + Net + Threads + Wait + Eprint + Clock + Abort + Sync,
    requires { IsNamed N.cells N.name N.parts N.opening blank }
{
    let mount = Mount::<N, F, R>::open(blank);
    if let Meeting::IsCrowdedOut = meeting {
        crowd(rt, alloc, &mount);
    }
    let (receipts, served) = receipts_of(rt, alloc, options, &mount, meeting);
    let count = receipts.len();
    let end = ended(rt, alloc, mount, receipts);
    counts(rt, end.handed_back, 0, "receipts handed back");
    counts(rt, count, meeting.receipts(), "receipts");
    holds(rt, served == meeting.end(), "how the server ends");
    counts(rt, end.entries, meeting.entries(), "entries");
}

// The same under the name of a mount. No type of its signature is a `&str`, since the name couldn't
// be picked then.
fn served_named<F, R, H>(
    rt: &H,
    alloc: Global,
    options: &ServeOptions<'_>,
    blank: Blank<F, R>,
    meeting: Meeting,
)
where
    F: Callback + Copy + Send + Sync,
    R: Rule + Send + Sync,
    H: Files + Net + Threads + Wait + Eprint + Clock + Abort + Sync,
{
    served::<Brand, F, R, H>(rt, alloc, options, blank, meeting);
}

/// Each on a mount of its own: this happens where so many workers have so many sessions each, and a
/// client may be idle for so long.
pub fn all_served<F, R, H>(
    rt: &H,
    alloc: Global,
    keys: RandomState,
    path: &str,
    meetings: &[(Meeting, usize, u64, Option<u64>)],
)
where
    F: Callback + Copy + Send + Sync,
    R: Rule + Send + Sync,
    H: Files + Net + Threads + Wait + Eprint + Clock + Abort + Sync,
{
    for (meeting, workers, sessions, idle) in meetings {
        let options = ServeOptions {
            socket: path,
            workers: *workers,
            history: 100_000,
            sessions: Some(*sessions),
            idle: *idle,
            acceptor: None,
            closing: None,
            counts: None,
            verbose: *workers == 1,
        };
        let blank = blank_of::<F, R>(rt, alloc, keys, EMPTY);
        served_named(rt, alloc, &options, blank, *meeting);
    }
}

// A worker that went on would wait for another connection, or for its client.
#[test]
fn one_worker_meets_others(rt: HostRuntime) {
    let path = socket_path(&rt, "one").expect(&rt, "a path");
    let keys = keys_of(&rt);
    let meetings = [
        (Meeting::IsCrowdedOut, 1, 1, None),
        (Meeting::IsMeddledWith, 1, 2, None),
        (Meeting::SaysNothing, 1, 1, Some(1)),
    ];
    all_served::<Silent, AnyAnswer, HostRuntime>(&rt, rt.alloc(), keys, path.as_str(), &meetings);
}
