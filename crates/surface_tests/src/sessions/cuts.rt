// However a stream is cut, it is answered the same.
use super::devices::{Pieces, Taker};
use super::rows::{STAT_ROOT, replies_to, requests};
use super::{ends, wrote};
use crate::checks::{add, counts, keys_of};
use ov_session::Ending;

// What follows the detach isn't answered.
#[test]
fn two_pieces_are_answered_the_same(rt: HostRuntime) {
    let alloc = rt.alloc();
    let keys = keys_of(&rt);
    let mut bytes = requests(&rt, alloc);
    let replies = replies_to(&rt, alloc, bytes.len(), 0);
    add(&rt, &mut bytes, STAT_ROOT);
    counts(&rt, bytes.len(), 51, "bytes of requests");
    counts(&rt, replies.len(), 84, "bytes of replies");
    for cut in 0..bytes.len() {
        let mut reader = Pieces::cut(bytes.as_slice(), cut);
        let mut writer = Taker::new(alloc);
        let devices = (&mut reader, &mut writer);
        ends(&rt, alloc, keys, devices, Ending::Detached, cut);
        wrote(&rt, writer.taken.as_slice(), replies.as_slice(), cut);
    }
}

#[test]
fn single_bytes_are_answered_the_same(rt: HostRuntime) {
    let alloc = rt.alloc();
    let keys = keys_of(&rt);
    let mut bytes = requests(&rt, alloc);
    let len = bytes.len();
    add(&rt, &mut bytes, STAT_ROOT);
    let mut reader = Pieces::single(bytes.as_slice(), len);
    let mut writer = Taker::new(alloc);
    let devices = (&mut reader, &mut writer);
    ends(&rt, alloc, keys, devices, Ending::Detached, len);
    let replies = replies_to(&rt, alloc, len, 0);
    wrote(&rt, writer.taken.as_slice(), replies.as_slice(), len);
}
