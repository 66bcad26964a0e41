// Two workers with one session each: the worked frames from one client, and a `stat` from the other.
use crate::checks::keys_of;
use crate::mounts::Silent;
use crate::one_worker::{Meeting, all_served};
use crate::peers::{DETACH, SHOWN_FIRST, STAT_ROOT, ask, assert_closed, connected, socket_path};
use socket_server::ServeOptions;
use std::net::Net;
use std::process::Abort;
use watch_table::AnyAnswer;

/// An empty upper over an empty lower layer.
pub const EMPTY: &str = "layer = [{}, {}]";

/// `stat /`, `mkdir 755 /a`, `stat /x` and `stat x`, each with its reply to the first client of a
/// mount.
const WORKED: [(&[u8], &[u8]); 4] = [
    (STAT_ROOT, SHOWN_FIRST),
    (
        b"\x00\x00\x00\x09\x09\x00\x00\x01\xed\x00\x02\x2f\x61",
        b"\x00\x00\x00\x09\x00\x00\x00\x00\x00\x00\x00\x00\x02",
    ),
    (
        b"\x00\x00\x00\x05\x01\x00\x02\x2f\x78",
        b"\x00\x00\x00\x0a\x01\x00\x00\x00\x00\x00\x00\x00\x03\x02",
    ),
    (
        b"\x00\x00\x00\x04\x01\x00\x01\x78",
        b"\x00\x00\x00\x02\x02\x16",
    ),
];

/// What `stat /` is answered at place 5.
const SHOWN_SECOND: &[u8] =
    b"\x00\x00\x00\x22\x00\x00\x00\x00\x00\x00\x00\x00\x05\x01\x00\x00\x01\xed\x00\x00\x00\x00\x00\x00\x00\x00\x00\x00\x00\x00\x00\x00\x00\x00\x00\x00\x00\x01";

/// What the first client's `detach` is answered at place 6.
const DETACHED: &[u8] = b"\x00\x00\x00\x09\x00\x00\x00\x00\x00\x00\x00\x00\x06";

/// What the clients ask: the second comes while the first is there still.
pub fn two_clients<H: Net + Abort>(rt: &H, path: &str) {
    let first = connected(rt, path);
    for (request, reply) in WORKED {
        ask(rt, &first, request, reply);
    }
    let second = connected(rt, path);
    ask(rt, &second, STAT_ROOT, SHOWN_SECOND);
    ask(rt, &first, DETACH, DETACHED);
    assert_closed(rt, &first);
}

/// Two workers with one session each.
pub fn by_two(path: &str) -> ServeOptions<'_> {
    ServeOptions {
        socket: path,
        workers: 2,
        history: 100_000,
        sessions: Some(1),
        idle: None,
        acceptor: None,
        closing: None,
        counts: None,
        verbose: false,
    }
}

// All replies are read, the workers end, and each receipt stands in the one history.
#[test]
fn two_workers_serve_two_clients(rt: HostRuntime) {
    let path = socket_path(&rt, "two").expect(&rt, "a path");
    let keys = keys_of(&rt);
    let meetings = [(Meeting::IsOneOfTwo, 2, 1, None)];
    all_served::<Silent, AnyAnswer, HostRuntime>(&rt, rt.alloc(), keys, path.as_str(), &meetings);
}
