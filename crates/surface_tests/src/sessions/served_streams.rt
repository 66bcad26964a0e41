// Sessions ask their door for what the slow reference reads of their streams.
use super::devices::{Pieces, Taker};
use super::dice::Dice;
use super::frame_reference::{Asked, Stream, StreamEnd, read_stream};
use super::generated::stream_of;
use super::served;
use super::told::asked_of;
use crate::checks::{holds, keys_of};
use ov_base::Path;
use ov_frames::FrameFault;
use ov_session::{Ending, Exchange};
use std::alloc::Global;
use std::hash::RandomState;
use std::process::Abort;

/// How many streams are served.
const STREAMS: u64 = 2_000;

/// The most bytes of the pieces of a stream, by turns.
const PIECES: [usize; 4] = [1, 7, 300, 70_000];

/// The op of a detach.
const DETACH: u8 = 26;

// The texts of a request that are paths.
fn paths_of(asked: &Asked) -> &[Vec<u8>] {
    let texts = asked.texts.as_slice();
    match asked.op {
        5 | 6 | 7 => &texts[..texts.len().min(1)],
        10 => &texts[texts.len().min(1)..],
        17 => &[],
        _ => texts,
    }
}

// Whether a call is made for a request: no path text is refused.
fn is_called(rt: &impl Abort, alloc: Global, asked: &Asked) -> bool {
    let mut is_called = true;
    for text in paths_of(asked) {
        let parsed = Path::parse(alloc, text.as_slice()).expect(rt, "memory");
        is_called = is_called && parsed.is_ok();
    }
    is_called
}

// The requests before a detach that are calls.
fn calls_of(rt: &impl Abort, alloc: Global, all: Vec<Asked>) -> Vec<Asked> {
    let mut calls = Vec::new(alloc);
    for asked in all {
        if asked.op == DETACH {
            return calls;
        }
        if is_called(rt, alloc, &asked) {
            calls.push(asked).expect(rt, "memory");
        }
    }
    calls
}

// The calls that were answered.
fn answered(rt: &impl Abort, alloc: Global, exchanges: &[Exchange]) -> Vec<Asked> {
    let mut calls = Vec::new(alloc);
    for exchange in exchanges {
        if let Exchange::Called(call, _) = exchange {
            calls.push(asked_of(rt, alloc, call)).expect(rt, "memory");
        }
    }
    calls
}

// How a session ends whose client asks this.
fn ending_of(stream: &Stream) -> Ending {
    if stream.asked.iter().any(|asked| asked.op == DETACH) {
        return Ending::Detached;
    }
    match stream.end {
        StreamEnd::Whole => Ending::Ended,
        StreamEnd::Cut => Ending::Cut,
        StreamEnd::BadLength => Ending::Frame(FrameFault::BadLength),
        StreamEnd::BadOp => Ending::Frame(FrameFault::BadOp),
        StreamEnd::BadFields => Ending::Frame(FrameFault::BadFields),
    }
}

// How a session ends that gets these bytes in such pieces, and the calls that were answered.
fn session_of(
    rt: &impl Abort,
    alloc: Global,
    keys: RandomState,
    bytes: &[u8],
    most: usize,
) -> (Ending, Vec<Asked>) {
    let mut reader = Pieces::most(bytes, most);
    let mut writer = Taker::new(alloc);
    let (end, session) = served(rt, alloc, keys, &mut reader, &mut writer);
    let seen = answered(rt, alloc, session.exchanges());
    drop(session);
    (end, seen)
}

#[test]
fn random_streams_are_served_as_the_reference_reads_them(rt: HostRuntime) {
    let alloc = rt.alloc();
    let keys = keys_of(&rt);
    for seed in 0..STREAMS {
        serves(&rt, alloc, keys, seed);
    }
}

fn serves(rt: &impl Abort, alloc: Global, keys: RandomState, seed: u64) {
    let bytes = stream_of(rt, alloc, &mut Dice::new(seed));
    let wanted = read_stream(rt, alloc, bytes.as_slice());
    let most = PIECES[(seed % 4) as usize];
    let (end, seen) = session_of(rt, alloc, keys, bytes.as_slice(), most);
    assert!(rt; end == ending_of(&wanted), "stream {seed}");
    let calls = calls_of(rt, alloc, wanted.asked);
    holds(rt, seen.as_slice() == calls.as_slice(), "the calls");
}
