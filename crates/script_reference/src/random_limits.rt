// Lines of calls on files that are about as long as they may be, as dice choose them.
use crate::dice::Dice;
use crate::random_calls::{push_call, push_one_of};
use crate::text::Text;

/// The most bytes of a file on a mount.
#[derive(Clone, Copy)]
pub struct Limit {
    /// The key of a manifest, with a line break; nothing for the limit that holds without one.
    pub key: &'static str,
    /// How many zero bytes two lower files have in most scripts, and in a few.
    pub zeros: [&'static str; 2],
    pub many_zeros: [&'static str; 2],
    /// The limit between a byte less and a byte more.
    around: [&'static str; 3],
}

/// The limits of generated scripts: bytes that lie together in memory are at most 65,536.
pub const LIMITS: [Limit; 7] = [
    Limit {
        key: "",
        zeros: ["4097", "9000"],
        many_zeros: ["1048575", "1048576"],
        around: ["1048575", "1048576", "1048577"],
    },
    Limit {
        key: "file_limit = 1\n",
        zeros: ["0", "1"],
        many_zeros: ["1", "1"],
        around: ["0", "1", "2"],
    },
    Limit {
        key: "file_limit = 4_095\n",
        zeros: ["4094", "4095"],
        many_zeros: ["4095", "4095"],
        around: ["4094", "4095", "4096"],
    },
    Limit {
        key: "file_limit = 65_536\n",
        zeros: ["4097", "9000"],
        many_zeros: ["65535", "65536"],
        around: ["65535", "65536", "65537"],
    },
    Limit {
        key: "file_limit = 65_537\n",
        zeros: ["4097", "9000"],
        many_zeros: ["65536", "65537"],
        around: ["65536", "65537", "65538"],
    },
    Limit {
        key: "file_limit = 131_072\n",
        zeros: ["4096", "65537"],
        many_zeros: ["131071", "131072"],
        around: ["131071", "131072", "131073"],
    },
    Limit {
        key: "file_limit = 3_000_000\n",
        zeros: ["4097", "9000"],
        many_zeros: ["1048577", "3000000"],
        around: ["2999999", "3000000", "3000001"],
    },
];

/// Where the mounts begin with files.
pub const LIMIT_FILES: [&str; 8] = [
    "/a/a", "/b", "/a/b/a", "/a/b/b", "/a/b/c", "/a/b/c", "/c", "/c",
];

// Words that stand twice are chosen more often.
const CALLS: [&str; 12] = [
    "seek", "seek", "seek", "seek", "write", "write", "write", "write", "truncate", "truncate",
    "read", "fstat",
];

const FLAGS: [&str; 8] = ["b", "b", "b", "w", "ba", "wa", "bt", "bc"];

const DESCRIPTORS: [&str; 4] = ["0", "0", "1", "2"];

const OFFSETS: [&str; 9] = [
    "0",
    "1",
    "-1",
    "-2",
    "-5",
    "65533",
    "65536",
    "131071",
    "9223372036854775807",
];

const SIZES: [&str; 7] = [
    "0",
    "1",
    "5",
    "65535",
    "65537",
    "1099511627776",
    "18446744073709551615",
];

const DATA: [&str; 5] = ["\\-", "x", "yz", "wxyz", "0123456789"];

const COUNTS: [&str; 3] = ["1", "5", "100"];

/// How many bytes a long write has.
const LONG: u32 = 5_000;

/// Appends the line of an open of a client, of a file with which the mount began.
pub fn push_open_at_limit(dice: &mut Dice, client: &str, script: &mut Text) {
    script.add(client);
    script.word("open");
    push_one_of(dice, &FLAGS, script);
    push_one_of(dice, &LIMIT_FILES, script);
    script.add("\n");
}

/// Appends the line of a call of a client, mostly one that reaches about as far as a file may.
pub fn push_call_at_limit(dice: &mut Dice, client: &'static str, limit: Limit, script: &mut Text) {
    match dice.roll(16) {
        0 => push_call(dice, &[client], script),
        1 | 2 => push_open_at_limit(dice, client, script),
        _ => push_descriptor_call(dice, client, limit, script),
    }
}

fn push_descriptor_call(dice: &mut Dice, client: &str, limit: Limit, script: &mut Text) {
    let name = dice.pick(&CALLS);
    script.add(client);
    script.word(name);
    push_one_of(dice, &DESCRIPTORS, script);
    match name {
        "seek" => {
            push_near(dice, &OFFSETS, limit, script);
            push_one_of(dice, &["set", "set", "cur", "end"], script);
        }
        "truncate" => push_near(dice, &SIZES, limit, script),
        "write" => push_data(dice, script),
        "read" => push_one_of(dice, &COUNTS, script),
        _ => {}
    }
    script.add("\n");
}

// A number near the limit, or another one.
fn push_near(dice: &mut Dice, others: &[&'static str], limit: Limit, script: &mut Text) {
    if dice.roll(3) == 0 {
        push_one_of(dice, others, script);
    } else {
        push_one_of(dice, &limit.around, script);
    }
}

// The bytes of a write: few, or in one of eight more than two chunks have by half.
fn push_data(dice: &mut Dice, script: &mut Text) {
    if dice.roll(8) > 0 {
        return push_one_of(dice, &DATA, script);
    }
    script.word("");
    for _ in 0..LONG {
        script.add("l");
    }
}
