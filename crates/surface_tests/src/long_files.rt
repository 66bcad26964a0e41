// A layer's file of more bytes than the mount lets a file have: it is read and copied up as any other, and only grows no further.
use crate::checks::keys_of;
use crate::cores::{Answer, answers, attached, mounted_on, unmount};
use crate::fixtures::read;
use crate::marked_files::{assert_bytes, open};
use ov_base::{Bytes, Call, Errno, Options};
use overlay_core::Core;
use program_hooks::{ByTag, ProgramRule};
use std::alloc::Global;
use std::hash::RandomState;
use std::process::Abort;
use watch_table::{Callback, Rule};

// An empty upper over a file of eleven bytes.
const LOWER: &str = "layer = [{}, {entry = [
  {path = '/f', kind = 'file', text = 'lower bytes'},
]}]";

const TOO_BIG: Answer = Answer::Refused(Errno::EFBIG);

/// What is written one after the other, what that is answered, and what the file has then.
const WRITES: [(&[u8], Answer, &[u8]); 3] = [
    (b"LOWER", Answer::Written(5), b"LOWER bytes"),
    (b"abcdefghi", Answer::Written(5), b"LOWERabcdes"),
    (b"x", TOO_BIG, b"LOWERabcdes"),
];

/// The sizes that it gets then, in the same way.
const CUTS: [(u64, Answer, &[u8]); 2] = [
    (11, TOO_BIG, b"LOWERabcdes"),
    (10, Answer::Done, b"LOWERabcde"),
];

#[test]
fn a_file_over_the_limit_grows_no_further(rt: HostRuntime) {
    grows_no_further::<_, ByTag, ProgramRule>(&rt, rt.alloc(), keys_of(&rt));
}

fn grows_no_further<A: Abort, F: Callback + Copy, H: Rule>(
    rt: &A,
    alloc: Global,
    keys: RandomState,
) {
    let (upper, lowers, options) = read(rt, alloc, keys, LOWER);
    let options = Options {
        file_limit: 10,
        ..options
    };
    let mut core: Core<F, H> = mounted_on(rt, alloc, keys, upper, lowers, options);
    writes_and_cuts(rt, alloc, &mut core);
    unmount(core);
}

// Of a write that meets the limit what fits is written, over what is there, and a byte beyond is left.
fn writes_and_cuts<F: Callback + Copy, H: Rule>(
    rt: &impl Abort,
    alloc: Global,
    core: &mut Core<F, H>,
) {
    let client = attached(rt, core, Vec::new(alloc));
    assert_bytes(rt, alloc, core, client, "/f", b"lower bytes");
    let file = open(rt, alloc, core, client, "/f", true);
    for (bytes, wanted, left) in WRITES {
        let bytes = Bytes::from_slice(alloc, bytes).expect(rt, "memory");
        let call = Call::Write {
            descriptor: file,
            bytes,
        };
        answers(rt, core, client, call, wanted);
        assert_bytes(rt, alloc, core, client, "/f", left);
    }
    for (size, wanted, left) in CUTS {
        let call = Call::Truncate {
            descriptor: file,
            size,
        };
        answers(rt, core, client, call, wanted);
        assert_bytes(rt, alloc, core, client, "/f", left);
    }
}
