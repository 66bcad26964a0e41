// Lines of calls, as dice choose them: names `a` to `d`, three names deep, and user attributes `user.a` to `user.c`.
use crate::dice::Dice;
use crate::text::Text;

// Words that stand twice are chosen more often.
const DESCRIPTOR_CALLS: [&str; 16] = [
    "read", "read", "read", "read", "write", "write", "write", "write", "seek", "seek", "seek",
    "truncate", "fstat", "list", "list", "close",
];

const PATH_CALLS: [&str; 11] = [
    "stat", "readlink", "mkdir", "symlink", "unlink", "unlink", "unlink", "rmdir", "chmod",
    "chown", "attrs",
];

const DESCRIPTORS: [&str; 6] = ["0", "0", "0", "0", "1", "2"];

const FLAGS: [&str; 20] = [
    "r", "r", "r", "rd", "ra", "rc", "w", "wa", "wc", "wt", "b", "b", "bc", "bc", "ba", "bt",
    "bca", "bct", "wcx", "bcx",
];

/// Where the mounts begin with files, and in some places with a link or with nothing.
pub const FILES: [&str; 11] = [
    "/a/a", "/a/b/a", "/a/b/b", "/a/b/c", "/a/b/c", "/a/a/a", "/a/a/b", "/b", "/c", "/c/b/c", "/d",
];

/// Where they begin with directories of one layer or of several, or where directories come to be.
pub const DIRECTORIES: [&str; 12] = [
    "/a", "/a", "/a/a", "/a/b", "/a/b", "/a/d", "/b", "/c", "/c/a", "/c/b", "/d", "/d/d",
];

// Where the mounts begin with nothing, so that directories come and go there.
const PLACES: [&str; 5] = ["/d", "/d", "/a/d", "/a/b/d", "/d/d"];

// Where they begin with nothing in directories of one layer or of several, so that further names come there.
const FREE_NAMES: [&str; 10] = [
    "/d", "/d", "/a/d", "/a/d", "/a/d", "/a/b/d", "/a/b/d", "/a/b/d", "/a/a/d", "/c/d",
];

const MODES: [&str; 6] = ["0", "600", "644", "755", "7777", "10000"];

const OFFSETS: [&str; 16] = [
    "0",
    "0",
    "0",
    "1",
    "1",
    "3",
    "3",
    "9",
    "30",
    "-1",
    "-1",
    "-4",
    "-9223372036854775808",
    "1048575",
    "1048576",
    "9223372036854775807",
];

const SIZES: [&str; 12] = [
    "0",
    "0",
    "1",
    "1",
    "2",
    "3",
    "5",
    "9",
    "40",
    "1048576",
    "1048577",
    "18446744073709551615",
];

const COUNTS: [&str; 12] = [
    "0", "1", "1", "2", "3", "3", "5", "9", "20", "100", "65536", "65537",
];

const DATA: [&str; 6] = ["\\-", "x", "yz", "\\x00\\xff", "wxyz", "0123456789"];

const ATTRIBUTES: [&str; 7] = [
    "user.a",
    "user.a",
    "user.b",
    "user.b",
    "user.c",
    "user.c",
    "trusted.a",
];

/// Appends the line of an open of one of these clients.
pub fn push_open_of(dice: &mut Dice, clients: &[&'static str], script: &mut Text) {
    script.add(dice.pick(clients));
    push_open(dice, script);
    script.add("\n");
}

/// Appends the line of any call of one of these clients.
pub fn push_call(dice: &mut Dice, clients: &[&'static str], script: &mut Text) {
    script.add(dice.pick(clients));
    match dice.roll(48) {
        0..=15 => push_descriptor_call(dice, script),
        16..=21 => push_open(dice, script),
        22..=32 => push_path_call(dice, script),
        33..=36 => push_link(dice, script),
        37..=44 => push_rename(dice, script),
        _ => push_attribute_call(dice, script),
    }
    script.add("\n");
}

/// Appends one of a few words and the space before it.
pub fn push_one_of(dice: &mut Dice, words: &[&'static str], script: &mut Text) {
    let word = dice.pick(words);
    script.word(word);
}

// A call of a descriptor.
fn push_descriptor_call(dice: &mut Dice, script: &mut Text) {
    let name = dice.pick(&DESCRIPTOR_CALLS);
    script.word(name);
    push_one_of(dice, &DESCRIPTORS, script);
    match name {
        "read" => push_one_of(dice, &COUNTS, script),
        "write" => push_one_of(dice, &DATA, script),
        "seek" => {
            push_one_of(dice, &OFFSETS, script);
            push_one_of(dice, &["set", "cur", "end"], script);
        }
        "truncate" => push_one_of(dice, &SIZES, script),
        "list" => push_one_of(dice, &["1", "2", "256"], script),
        _ => {}
    }
}

// An open of a directory, or one with any flags, and in some lines with a mode.
fn push_open(dice: &mut Dice, script: &mut Text) {
    script.word("open");
    if dice.roll(8) == 0 {
        script.word("rd");
        return push_one_of(dice, &DIRECTORIES, script);
    }
    if dice.roll(4) == 0 {
        push_any_flags(dice, script);
    } else {
        push_one_of(dice, &FLAGS, script);
    }
    if dice.roll(3) == 0 {
        push_path(dice, script);
    } else {
        push_one_of(dice, &FILES, script);
    }
    if dice.roll(6) == 0 {
        push_one_of(dice, &MODES, script);
    }
}

// Flags of which not all go together.
fn push_any_flags(dice: &mut Dice, script: &mut Text) {
    push_one_of(dice, &["r", "w", "b"], script);
    for flag in [["c", ""], ["x", ""], ["t", ""], ["a", ""], ["d", ""]] {
        script.add(dice.pick(&flag));
    }
}

// A call of a path, but for opens and the calls on user attributes.
fn push_path_call(dice: &mut Dice, script: &mut Text) {
    let name = dice.pick(&PATH_CALLS);
    script.word(name);
    match name {
        "mkdir" | "chmod" => push_one_of(dice, &MODES, script),
        "symlink" => push_one_of(dice, &["t", "a/b"], script),
        "chown" => {
            push_one_of(dice, &["0", "7", "4294967295"], script);
            push_one_of(dice, &["0", "8"], script);
        }
        _ => {}
    }
    if matches!(name, "mkdir" | "rmdir") && dice.roll(2) == 0 {
        return push_one_of(dice, &PLACES, script);
    }
    push_path(dice, script);
}

// A link of any path, more often of a file, to any path, more often to one at which the mounts begin with nothing.
fn push_link(dice: &mut Dice, script: &mut Text) {
    script.word("link");
    if dice.roll(4) == 0 {
        push_path(dice, script);
    } else {
        push_one_of(dice, &FILES, script);
    }
    if dice.roll(3) == 0 {
        return push_path(dice, script);
    }
    push_one_of(dice, &FREE_NAMES, script);
}

// A rename of a file, of a directory or of what came to a name that was free. The new path is that of such a name, any other one, or the old
// path itself or one below it.
fn push_rename(dice: &mut Dice, script: &mut Text) {
    script.word("rename");
    let old = match dice.roll(4) {
        0 => dice.pick(&FILES),
        1 => dice.pick(&FREE_NAMES),
        _ => dice.pick(&DIRECTORIES),
    };
    script.word(old);
    match dice.roll(8) {
        0 => {
            script.word(old);
            script.add(dice.pick(&["", "/a", "/b", "/d"]));
        }
        1 | 2 => push_path(dice, script),
        3 => push_one_of(dice, &DIRECTORIES, script),
        _ => push_one_of(dice, &FREE_NAMES, script),
    }
}

// A call on one user attribute.
fn push_attribute_call(dice: &mut Dice, script: &mut Text) {
    let name = dice.pick(&["setattr", "setattr", "getattr", "delattr"]);
    script.word(name);
    push_path(dice, script);
    push_one_of(dice, &ATTRIBUTES, script);
    if name == "setattr" {
        push_one_of(dice, &["\\-", "1", "\\xff"], script);
    }
}

/// Appends a path of at most three names, of which the first are more often those of directories that a mount begins with.
pub fn push_path(dice: &mut Dice, script: &mut Text) {
    script.add(" ");
    let parent = match dice.roll(10) {
        0 => return script.add("/"),
        1 | 2 => "",
        3..=6 => dice.pick(&["/a", "/a", "/a", "/b", "/c", "/d"]),
        _ => dice.pick(&[
            "/a/a", "/a/b", "/a/b", "/a/b", "/a/c", "/a/d", "/b/b", "/c/a", "/c/b", "/d/d",
        ]),
    };
    script.add(parent);
    script.add(dice.pick(&["/a", "/b", "/c", "/d"]));
}
