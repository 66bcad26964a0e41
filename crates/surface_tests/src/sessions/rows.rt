// The worked examples of frames: requests of the first client of a mount of two empty layers, and
// their replies.
use crate::checks::add;
use std::alloc::Global;
use std::process::Abort;

/// `stat /`, `mkdir 755 /a`, `stat /x`, `stat x` and `detach`, each with its reply.
pub const ROWS: [(&[u8], &[u8]); 5] = [
    (STAT_ROOT, SHOWN_ROOT),
    (
        b"\x00\x00\x00\x09\x09\x00\x00\x01\xed\x00\x02\x2f\x61",
        b"\x00\x00\x00\x09\x00\x00\x00\x00\x00\x00\x00\x00\x02",
    ),
    (
        b"\x00\x00\x00\x05\x01\x00\x02\x2f\x78",
        b"\x00\x00\x00\x0a\x01\x00\x00\x00\x00\x00\x00\x00\x03\x02",
    ),
    (
        b"\x00\x00\x00\x04\x01\x00\x01\x78",
        b"\x00\x00\x00\x02\x02\x16",
    ),
    (
        b"\x00\x00\x00\x01\x1a",
        b"\x00\x00\x00\x09\x00\x00\x00\x00\x00\x00\x00\x00\x04",
    ),
];

/// `stat /`.
pub const STAT_ROOT: &[u8] = b"\x00\x00\x00\x04\x01\x00\x01\x2f";

/// A directory of mode 0755, owner and group 0, size 0 and one link, at place 1.
pub const SHOWN_ROOT: &[u8] =
    b"\x00\x00\x00\x22\x00\x00\x00\x00\x00\x00\x00\x00\x01\x01\x00\x00\x01\xed\x00\x00\x00\x00\x00\x00\x00\x00\x00\x00\x00\x00\x00\x00\x00\x00\x00\x00\x00\x01";

/// All requests.
pub fn requests(rt: &impl Abort, alloc: Global) -> Vec<u8> {
    let mut bytes = Vec::new(alloc);
    for (request, _) in ROWS {
        add(rt, &mut bytes, request);
    }
    bytes
}

/// The replies to the requests that are whole in the first bytes, where the history has so many
/// entries more before them.
pub fn replies_to(rt: &impl Abort, alloc: Global, len: usize, entries: u8) -> Vec<u8> {
    let mut bytes = Vec::new(alloc);
    let mut left = len;
    for (request, reply) in ROWS {
        if left < request.len() {
            return bytes;
        }
        left -= request.len();
        push_later(rt, &mut bytes, reply, entries);
    }
    bytes
}

// A reply so many places later: the last byte of the place is its thirteenth. A refused request has
// neither.
fn push_later(rt: &impl Abort, bytes: &mut Vec<u8>, reply: &[u8], entries: u8) {
    let start = bytes.len();
    add(rt, bytes, reply);
    if reply.len() > 12 {
        if let Some(place) = bytes.get_mut(start.saturating_add(12)) {
            *place = place.wrapping_add(entries);
        }
    }
}

/// The replies to the first so many requests.
pub fn first_replies(rt: &impl Abort, alloc: Global, count: usize) -> Vec<u8> {
    let mut bytes = Vec::new(alloc);
    for (_, reply) in &ROWS[..count.min(ROWS.len())] {
        add(rt, &mut bytes, reply);
    }
    bytes
}
