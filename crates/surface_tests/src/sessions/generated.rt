// Streams of requests, as dice choose them, and how they are spoiled.
use super::dice::Dice;
use super::frame_reference::{Field, fields_of};
use crate::checks::add;
use std::alloc::Global;
use std::process::Abort;

/// The most frames of a stream.
const FRAMES: u32 = 6;

/// The most bytes of a short block, and those of one whose frame is as long as a frame may be.
const SHORT_BLOCK: u32 = 40;

const LONGEST_BLOCK: u32 = 69_991;

/// Bytes that are no op.
const NO_OPS: [u8; 4] = [0, 27, 28, 0xff];

/// Paths, names and values, and texts that are none.
const TEXTS: [&[u8]; 12] = [
    b"/",
    b"/a",
    b"/a",
    b"/b",
    b"/a/b",
    b"/a/a/b",
    b"",
    b"a",
    b"/a//b",
    b"/..",
    b"user.a",
    b"\xff\x00",
];

/// The bytes of a stream; two of five are spoiled somewhere, and some have a length that is wrong.
pub fn stream_of(rt: &impl Abort, alloc: Global, dice: &mut Dice) -> Vec<u8> {
    let mut bytes = Vec::new(alloc);
    for _ in 0..=dice.roll(FRAMES) {
        let body = body_of(rt, alloc, dice);
        push_frame(rt, dice, body.as_slice(), &mut bytes);
    }
    spoil(rt, dice, &mut bytes);
    bytes
}

// An op and its fields; some ops are no call's, and have none.
fn body_of(rt: &impl Abort, alloc: Global, dice: &mut Dice) -> Vec<u8> {
    let op = match dice.roll(30) {
        0 => NO_OPS[dice.place(NO_OPS.len()) % NO_OPS.len()],
        _ => 1 + (dice.roll(26) % 26) as u8,
    };
    let mut body = Vec::from_slice(alloc, &[op]).expect(rt, "memory");
    for field in fields_of(op).unwrap_or(&[]) {
        push_field(rt, dice, *field, &mut body);
    }
    body
}

fn push_field(rt: &impl Abort, dice: &mut Dice, field: Field, body: &mut Vec<u8>) {
    match field {
        Field::U8 => push_bytes(rt, dice, 1, body),
        Field::U32 | Field::I32 => push_bytes(rt, dice, 4, body),
        Field::U64 | Field::I64 => push_bytes(rt, dice, 8, body),
        Field::Text => push_text(rt, dice, body),
        Field::Block => push_block(rt, dice, body),
    }
}

fn push_bytes(rt: &impl Abort, dice: &mut Dice, count: u32, body: &mut Vec<u8>) {
    for _ in 0..count {
        body.push(dice.byte()).expect(rt, "memory");
    }
}

fn push_text(rt: &impl Abort, dice: &mut Dice, body: &mut Vec<u8>) {
    let text = TEXTS[dice.place(TEXTS.len()) % TEXTS.len()];
    let length = u8::try_from(text.len()).unwrap_or(0);
    add(rt, body, &[0, length]);
    add(rt, body, text);
}

// Some blocks are as long as fits into a frame, or a byte longer.
fn push_block(rt: &impl Abort, dice: &mut Dice, body: &mut Vec<u8>) {
    let count = match dice.roll(16) {
        0 => LONGEST_BLOCK,
        1 => LONGEST_BLOCK + 1,
        _ => dice.roll(SHORT_BLOCK),
    };
    add(rt, body, &count.to_be_bytes());
    push_bytes(rt, dice, count, body);
}

// A length and what it counts; some lengths count a byte too few or too many, or are none.
fn push_frame(rt: &impl Abort, dice: &mut Dice, body: &[u8], bytes: &mut Vec<u8>) {
    let length = u32::try_from(body.len()).unwrap_or(0);
    let told = match dice.roll(60) {
        0 => length.saturating_sub(1),
        1 => length.saturating_add(1),
        2 => 0,
        3 => 70_000,
        4 => 70_001,
        5 => u32::MAX,
        _ => length,
    };
    add(rt, bytes, &told.to_be_bytes());
    add(rt, bytes, body);
}

// Changes a byte, removes one, inserts one or drops the last ones, or does nothing.
fn spoil(rt: &impl Abort, dice: &mut Dice, bytes: &mut Vec<u8>) {
    let place = dice.place(bytes.len());
    if place >= bytes.len() {
        return;
    }
    match dice.roll(10) {
        0 => bytes[place] = dice.byte(),
        1 => {
            let _ = bytes.remove(place);
        }
        2 => bytes.insert(place, dice.byte()).expect(rt, "memory"),
        3 => bytes.truncate(place),
        _ => {}
    }
}
