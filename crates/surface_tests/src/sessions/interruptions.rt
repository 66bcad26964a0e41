// Reads and writes that are interrupted, flushes that fail, and devices that are out of memory.
use super::devices::{Pieces, Taker};
use super::rows::{ROWS, first_replies, replies_to, requests};
use super::shaky::{Failing, ShakyReader, ShakyWriter, Unflushed};
use super::{ends, wrote};
use crate::checks::{counts, keys_of};
use ov_session::Ending;
use std::alloc::Global;
use std::hash::RandomState;
use std::io::ErrorKind;
use std::process::Abort;
use std::test::Fail;

// An interrupted read is made again, and nothing of the session shows it.
#[test]
fn interrupted_reads_are_made_again(rt: HostRuntime) {
    let alloc = rt.alloc();
    let keys = keys_of(&rt);
    let bytes = requests(&rt, alloc);
    let replies = replies_to(&rt, alloc, bytes.len(), 0);
    for times in [0, 1, 7] {
        let pieces = Pieces::single(bytes.as_slice(), bytes.len());
        let mut reader = ShakyReader::new(pieces, times);
        let mut writer = Taker::new(alloc);
        let devices = (&mut reader, &mut writer);
        ends(&rt, alloc, keys, devices, Ending::Detached, times as usize);
        wrote(
            &rt,
            writer.taken.as_slice(),
            replies.as_slice(),
            times as usize,
        );
    }
}

// So is a write, up to 999 times in a row.
#[test]
fn interrupted_writes_are_made_again(rt: HostRuntime) {
    let alloc = rt.alloc();
    let keys = keys_of(&rt);
    let bytes = requests(&rt, alloc);
    let replies = replies_to(&rt, alloc, bytes.len(), 0);
    for times in [0, 1, 999] {
        let mut reader = Pieces::cut(bytes.as_slice(), 0);
        let taker = Taker::single(alloc, replies.len());
        let mut writer = ShakyWriter::new(taker, times);
        let devices = (&mut reader, &mut writer);
        ends(&rt, alloc, keys, devices, Ending::Detached, times as usize);
        let taken = writer.taker.taken.as_slice();
        wrote(&rt, taken, replies.as_slice(), times as usize);
    }
}

// The 1,000th interruption in a row is a failure.
#[test]
fn a_write_is_interrupted_too_often(rt: HostRuntime) {
    let alloc = rt.alloc();
    let keys = keys_of(&rt);
    let bytes = requests(&rt, alloc);
    let mut reader = Pieces::cut(bytes.as_slice(), 0);
    let mut writer = ShakyWriter::new(Taker::new(alloc), 1_000);
    let devices = (&mut reader, &mut writer);
    ends(&rt, alloc, keys, devices, Ending::Write, 1_000);
    counts(&rt, writer.taker.taken.len(), 0, "bytes written");
}

// Each request is followed by a flush behind its reply. A detach is followed by one before its reply,
// and by one behind it; where the first fails, the detach is not answered.
#[test]
fn a_flush_fails(rt: HostRuntime) {
    let keys = keys_of(&rt);
    let asked = ROWS.len();
    for (kind, wanted) in [
        (ErrorKind::BrokenPipe, Ending::Write),
        (ErrorKind::OutOfMemory, Ending::Memory),
    ] {
        for flushes in 0..asked {
            let answered = flushes.saturating_add(1).min(asked.saturating_sub(1));
            flushes_so_often(&rt, rt.alloc(), keys, (flushes, kind), wanted, answered);
        }
        flushes_so_often(&rt, rt.alloc(), keys, (asked, kind), wanted, asked);
        let all = (asked.saturating_add(1), kind);
        flushes_so_often(&rt, rt.alloc(), keys, all, Ending::Detached, asked);
    }
}

// After so many flushes one fails so: the session ends so, and so many requests are answered.
fn flushes_so_often(
    rt: &impl Abort,
    alloc: Global,
    keys: RandomState,
    (flushes, kind): (usize, ErrorKind),
    wanted: Ending,
    answered: usize,
) {
    let bytes = requests(rt, alloc);
    let mut reader = Pieces::single(bytes.as_slice(), bytes.len());
    let mut writer = Unflushed::new(Taker::new(alloc), flushes, kind);
    ends(rt, alloc, keys, (&mut reader, &mut writer), wanted, flushes);
    let replies = first_replies(rt, alloc, answered);
    let taken = writer.taker.taken.as_slice();
    wrote(rt, taken, replies.as_slice(), flushes);
}

// The session's end tells whether a device was out of memory or failed.
#[test]
fn a_device_fails_at_once(rt: HostRuntime) {
    let alloc = rt.alloc();
    let keys = keys_of(&rt);
    let bytes = requests(&rt, alloc);
    for (kind, read, written) in [
        (ErrorKind::BrokenPipe, Ending::Read, Ending::Write),
        (ErrorKind::OutOfMemory, Ending::Memory, Ending::Memory),
    ] {
        let mut failing = Failing { kind };
        let mut writer = Taker::new(alloc);
        ends(&rt, alloc, keys, (&mut failing, &mut writer), read, 0);
        counts(&rt, writer.taken.len(), 0, "bytes written");
        let mut reader = Pieces::cut(bytes.as_slice(), 0);
        ends(&rt, alloc, keys, (&mut reader, &mut failing), written, 1);
    }
}
