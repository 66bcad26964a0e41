// Frames at fault and streams that end, alone and behind a request, which is answered first.
use super::devices::{Pieces, Taker};
use super::rows::{SHOWN_ROOT, STAT_ROOT};
use super::{ends, wrote};
use crate::checks::{add, keys_of};
use ov_frames::FrameFault;
use ov_session::Ending;
use std::alloc::Global;
use std::hash::RandomState;
use std::process::Abort;

/// The bytes of an end, and the end.
const ENDS: [(&[u8], Ending); 6] = [
    (b"\x00\x00\x00\x00", Ending::Frame(FrameFault::BadLength)),
    (b"\x00\x01\x11\x71", Ending::Frame(FrameFault::BadLength)),
    (b"\x00\x00\x00\x01\x1b", Ending::Frame(FrameFault::BadOp)),
    (
        b"\x00\x00\x00\x05\x01\x00\x01\x2f\x00",
        Ending::Frame(FrameFault::BadFields),
    ),
    (b"\x00\x00\x00", Ending::Cut),
    (b"", Ending::Ended),
];

// Cuts a stream everywhere: each time it ends so, with these replies.
fn assert_end(
    rt: &impl Abort,
    alloc: Global,
    keys: RandomState,
    bytes: &[u8],
    wanted: Ending,
    replies: &[u8],
) {
    for cut in 0..=bytes.len() {
        let mut reader = Pieces::cut(bytes, cut);
        let mut writer = Taker::new(alloc);
        ends(rt, alloc, keys, (&mut reader, &mut writer), wanted, cut);
        wrote(rt, writer.taken.as_slice(), replies, cut);
    }
}

#[test]
fn ends_alone(rt: HostRuntime) {
    let keys = keys_of(&rt);
    for (bytes, end) in ENDS {
        assert_end(&rt, rt.alloc(), keys, bytes, end, b"");
    }
}

#[test]
fn ends_behind_a_request(rt: HostRuntime) {
    let alloc = rt.alloc();
    let keys = keys_of(&rt);
    for (last, end) in ENDS {
        let mut bytes = Vec::from_slice(alloc, STAT_ROOT).expect(&rt, "memory");
        add(&rt, &mut bytes, last);
        assert_end(&rt, alloc, keys, bytes.as_slice(), end, SHOWN_ROOT);
    }
}
