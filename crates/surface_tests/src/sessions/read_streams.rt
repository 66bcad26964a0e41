// Random streams, good and spoiled, are read as the slow reference reads them, in whatever pieces
// they come.
use super::dice::Dice;
use super::frame_reference::{Asked, StreamEnd, read_stream};
use super::generated::stream_of;
use super::told::asked_by;
use crate::checks::holds;
use ov_frames::{Decoder, End, FrameFault, Request};
use std::alloc::Global;
use std::process::Abort;

/// How many streams are read, and how many of them end in each way at least.
const STREAMS: u64 = 2_000;

const EACH_END: usize = 100;

/// The most bytes of the pieces of a stream, by turns.
const PIECES: [usize; 5] = [1, 3, 16, 300, 70_000];

/// The ends of streams.
const ENDS: [StreamEnd; 5] = [
    StreamEnd::Whole,
    StreamEnd::Cut,
    StreamEnd::BadLength,
    StreamEnd::BadOp,
    StreamEnd::BadFields,
];

// How the reference tells this end.
fn told(end: End) -> StreamEnd {
    match end {
        End::Ended => StreamEnd::Whole,
        End::Cut => StreamEnd::Cut,
        End::Frame(FrameFault::BadLength) => StreamEnd::BadLength,
        End::Frame(FrameFault::BadOp) => StreamEnd::BadOp,
        End::Frame(FrameFault::BadFields) => StreamEnd::BadFields,
    }
}

// The fault of an end.
fn fault_of(end: StreamEnd) -> Option<StreamEnd> {
    match end {
        StreamEnd::Whole | StreamEnd::Cut => None,
        fault => Some(fault),
    }
}

fn push_asked(rt: &impl Abort, alloc: Global, requests: &[Request], all: &mut Vec<Asked>) {
    for request in requests {
        all.push(asked_by(rt, alloc, request)).expect(rt, "memory");
    }
}

// What the decoder reads of these bytes in pieces, how it tells their end, and the fault that it
// answers behind them.
fn decoded(
    rt: &impl Abort,
    alloc: Global,
    dice: &mut Dice,
    bytes: &[u8],
    most: usize,
) -> (Vec<Asked>, StreamEnd, Option<StreamEnd>) {
    let mut decoder = Decoder::new(alloc);
    let mut all = Vec::new(alloc);
    let mut rest = bytes;
    for _ in 0..bytes.len() {
        let count = rest.len().min(dice.place(most).saturating_add(1));
        let (piece, behind) = rest.split_at(count);
        if let Ok(requests) = decoder.feed(alloc, piece).expect(rt, "memory") {
            push_asked(rt, alloc, requests.as_slice(), &mut all);
        }
        rest = behind;
    }
    let fault = match decoder.feed(alloc, b"").expect(rt, "memory") {
        Ok(_) => None,
        Err(fault) => Some(told(End::Frame(fault))),
    };
    (all, told(decoder.end()), fault)
}

// How many of the ends are this one.
fn count_of(ends: &[StreamEnd], end: StreamEnd) -> usize {
    ends.iter().filter(|found| **found == end).count()
}

#[test]
fn random_streams_are_read_as_by_the_reference(rt: HostRuntime) {
    let alloc = rt.alloc();
    let mut ends = Vec::new(alloc);
    for seed in 0..STREAMS {
        ends.push(reads(&rt, alloc, seed)).expect(&rt, "memory");
    }
    for end in ENDS {
        let count = count_of(ends.as_slice(), end);
        holds(&rt, count >= EACH_END, "streams that end in each way");
    }
}

// The stream of a seed is read so; its end.
fn reads(rt: &impl Abort, alloc: Global, seed: u64) -> StreamEnd {
    let mut dice = Dice::new(seed);
    let bytes = stream_of(rt, alloc, &mut dice);
    let wanted = read_stream(rt, alloc, bytes.as_slice());
    let most = PIECES[(seed % 5) as usize];
    let (all, end, fault) = decoded(rt, alloc, &mut dice, bytes.as_slice(), most);
    assert!(rt; end == wanted.end, "stream {seed}");
    holds(
        rt,
        fault == fault_of(wanted.end),
        "the fault behind the end",
    );
    holds(
        rt,
        all.as_slice() == wanted.asked.as_slice(),
        "what is asked",
    );
    end
}
