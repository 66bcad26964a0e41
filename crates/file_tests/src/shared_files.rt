// Files that share bytes until one of them is written.
use crate::pair::{MOST, Pair};
use crate::vectors::{all_of, below, holds, some_bytes};
use file_bytes::FileBytes;
use rand_pcg::Pcg32;
use std::alloc::Global;
use std::process::Abort;
use std::sync::Arc;

#[test]
fn files_do_what_vectors_do(rt: HostRuntime) {
    let mut dice = Pcg32::new(1, 1);
    for _ in 0..4 {
        changes_leave_the_lower(&rt, rt.alloc(), &mut dice);
    }
}

// A file that begins as a lower one is changed; the lower one stays.
fn changes_leave_the_lower(rt: &impl Abort, alloc: Global, dice: &mut Pcg32) {
    let size = below(dice, MOST);
    let bytes = some_bytes(rt, alloc, dice, size);
    let lower = Pair::of(rt, alloc, bytes);
    let mut copy = lower.copy(rt);
    for _ in 0..16 {
        copy.change(rt, alloc, dice);
    }
    let step = below(dice, 100_000).wrapping_add(1);
    holds(rt, copy.agree(rt, alloc, step), "what was changed");
    holds(rt, lower.agree(rt, alloc, 65_536), "the lower file");
}

#[test]
fn copies_are_changed_apart(rt: HostRuntime) {
    let alloc = rt.alloc();
    let mut dice = Pcg32::new(2, 1);
    let bytes = some_bytes(&rt, alloc, &mut dice, 150_000);
    let mut first = Pair::of(&rt, alloc, bytes.clone().expect(&rt, "memory"));
    first.lay(&rt, 65_530, b"over the end of a piece");
    let mut second = first.copy(&rt);
    first.lay(&rt, 140_000, &bytes);
    second.lay(&rt, 0, b"at the start");
    first.file.settle().expect(&rt, "memory");
    let mut third = first.copy(&rt);
    third.share(&rt, 70_000);
    first.lay(&rt, 65_535, b"ab");
    holds(&rt, first.agree(&rt, alloc, 65_537), "the first file");
    holds(&rt, second.agree(&rt, alloc, 9_000), "its copy");
    holds(&rt, third.agree(&rt, alloc, 70_000), "its first bytes");
}

#[test]
fn stretches_of_a_blob_are_files(rt: HostRuntime) {
    let alloc = rt.alloc();
    let (mut two, rest) = stretches(&rt, alloc, b"one two three");
    two.lay_over(2, b"ist").expect(&rt, "memory");
    let two = all_of(&rt, alloc, &two, 2);
    holds(&rt, two.as_slice() == &b"twist"[..], "one written over");
    let rest = all_of(&rt, alloc, &rest, 64);
    holds(&rt, rest.as_slice() == &b"two three"[..], "one beside it");
}

// Three of these bytes from the fifth on as a file, and nine as another.
fn stretches(rt: &impl Abort, alloc: Global, bytes: &[u8]) -> (FileBytes, FileBytes) {
    let copy = Vec::from_slice(alloc, bytes).expect(rt, "memory");
    assert!(rt; copy.len() >= 13);
    let blob = Arc::new(alloc, copy).expect(rt, "memory");
    let other = Arc::try_clone(&blob).expect(rt, "memory");
    let few = FileBytes::from_blob(alloc, other, 4, 3);
    (few, FileBytes::from_blob(alloc, blob, 4, 9))
}

// Where an allocation fails, the file is as it was.
#[test]
fn want_of_memory_changes_nothing(rt: HostRuntime) {
    let alloc = rt.alloc();
    let mut dice = Pcg32::new(3, 1);
    let bytes = some_bytes(&rt, alloc, &mut dice, 70_000);
    let lower = Pair::of(&rt, alloc, bytes);
    let mut file = lower.file.clone().expect(&rt, "memory");
    if file.lay_over(65_530, b"0123456789").is_err() {
        let all = all_of(&rt, alloc, &file, 70_000);
        holds(&rt, all == lower.plain, "a write that lacked memory");
        return;
    }
    if file.resize(200_000).is_err() {
        holds(&rt, file.len() == 70_000, "a growth that lacked memory");
        return;
    }
    if file.lay_over(196_600, b"0123456789").is_err() {
        has_zeros(&rt, &file, 196_606);
    }
    holds(&rt, file.len() == 200_000, "the size after growth");
}

// There are four zero bytes at a place.
fn has_zeros(rt: &impl Abort, file: &FileBytes, at: usize) {
    let mut room = [7u8; 4];
    assert_eq!(rt; file.read_into(at, &mut room), 4);
    assert!(rt; &room[..] == &b"\0\0\0\0"[..]);
}

#[test]
fn room_is_filled_as_far_as_bytes_go(rt: HostRuntime) {
    let mut file = FileBytes::new(rt.alloc());
    file.resize(65_536).expect(&rt, "memory");
    file.lay_over(65_534, b"abcd").expect(&rt, "memory");
    reads(&rt, &file, 65_533, (5, b"\0abcd\x07"));
    reads(&rt, &file, 65_536, (2, b"cd\x07\x07\x07\x07"));
    reads(&rt, &file, 65_538, (0, b"\x07\x07\x07\x07\x07\x07"));
    let mut room = [7u8; 1];
    holds(
        &rt,
        file.read_into(65_536, &mut room) == 1,
        "room for one byte",
    );
    holds(&rt, room[0] == b'c', "that byte");
}

// A read from a place on into room for six bytes fills so many, with this in it then.
fn reads(rt: &impl Abort, file: &FileBytes, at: usize, (count, wanted): (usize, &[u8])) {
    let mut room = [7u8; 6];
    holds(rt, file.read_into(at, &mut room) == count, "a count");
    holds(rt, &room[..] == wanted, "what was read");
}
