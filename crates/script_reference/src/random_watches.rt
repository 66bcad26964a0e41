// Lines of calls on watches, as dice choose them.
use crate::dice::Dice;
use crate::random_calls::{DIRECTORIES, FILES, push_one_of, push_path};
use crate::text::Text;

// By slots of each tag; the last two have no hook.
const SLOTS: [&str; 20] = [
    "0", "1", "2", "3", "4", "5", "6", "7", "8", "9", "10", "10", "11", "12", "12", "13", "14",
    "15", "16", "255",
];

// All events, those of the names in a directory, those of what is watched itself, some with ONLYDIR, MASK_ADD and ONESHOT, and what is no mask.
const MASKS: [&str; 20] = [
    "fff", "fff", "fff", "fff", "FFF", "00000fff", "3c0", "c06", "3b", "ff3", "1", "80000fff",
    "80000003", "200003c0", "20000c3c", "1000fff", "a10003ff", "0", "a1000000", "40000fff",
];

const WATCHES: [&str; 8] = ["1", "1", "2", "2", "3", "4", "0", "2147483647"];

const COUNTS: [&str; 6] = ["0", "1", "3", "9", "65", "66"];

/// Appends the line of an arm of one of these clients.
pub fn push_arm_of(dice: &mut Dice, clients: &[&'static str], script: &mut Text) {
    script.add(dice.pick(clients));
    push_arm(dice, script);
    script.add("\n");
}

/// Appends the line of any call on watches of one of these clients.
pub fn push_watch_call(dice: &mut Dice, clients: &[&'static str], script: &mut Text) {
    script.add(dice.pick(clients));
    match dice.roll(8) {
        0..=3 => push_arm(dice, script),
        4 => {
            script.word("disarm");
            push_one_of(dice, &WATCHES, script);
        }
        _ => {
            script.word("notices");
            push_one_of(dice, &COUNTS, script);
        }
    }
    script.add("\n");
}

// An arm of the root, of a directory, of a file or of any path.
fn push_arm(dice: &mut Dice, script: &mut Text) {
    script.word("arm");
    push_one_of(dice, &SLOTS, script);
    push_one_of(dice, &MASKS, script);
    match dice.roll(8) {
        0 => script.word("/"),
        1..=3 => push_one_of(dice, &DIRECTORIES, script),
        4 | 5 => push_one_of(dice, &FILES, script),
        _ => push_path(dice, script),
    }
}
