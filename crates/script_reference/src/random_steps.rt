// Lines of calls in steps, as dice choose them.
use crate::dice::Dice;
use crate::random_calls::{push_call, push_one_of, push_open_of, push_path};
use crate::random_watches::push_watch_call;
use crate::text::Text;

/// Where the mount begins with files.
pub const STEP_FILES: [&str; 15] = [
    "/a/a/a", "/a/a/b", "/a/a/c", "/a/b/a", "/a/b/b", "/a/b/c", "/a/c", "/b", "/c/a/a", "/c/a/b",
    "/c/a/c", "/c/b/a", "/c/b/b", "/c/b/c", "/c/c",
];

/// Places to which files go, where it begins with nothing.
pub const PLACES: [&str; 6] = ["/a/d", "/a/a/d", "/a/b/d", "/c/d", "/c/a/d", "/d"];

// Words that stand twice are chosen more often.
const STEPS: [&str; 16] = [
    " step\n",
    " step\n",
    " step\n",
    " step\n",
    " step\n",
    " step\n",
    " step\n",
    " step\n",
    " step\n",
    " step\n",
    " step\n",
    " step 2\n",
    " step 2\n",
    " step 3\n",
    " step 9\n",
    " drop\n",
];

const FLAGS: [&str; 12] = [
    "w", "w", "w", "wa", "wa", "wc", "b", "b", "ba", "bc", "wt", "r",
];

/// Appends the line of a client, of which a call goes on or not, or one that shows something, as `sight`, the line of a layer.
pub fn push_turn(
    dice: &mut Dice,
    client: &'static str,
    is_calling: bool,
    sight: &'static str,
    line: &mut Text,
) {
    match dice.roll(32) {
        0 => line.add(sight),
        1 => line.add("merge\n"),
        2 | 3 => line.add("work\n"),
        _ if is_calling => {
            line.add(client);
            line.add(dice.pick(&STEPS));
        }
        _ => push_call_of(dice, client, line),
    }
}

// A call that is begun in steps, often one on a file with which the mount began, or one that is
// made at once.
fn push_call_of(dice: &mut Dice, client: &'static str, line: &mut Text) {
    match dice.roll(16) {
        0..=8 => {
            line.add(client);
            line.add(" start");
            push_on_file(dice, line)
        }
        9 | 10 => {
            line.add(client);
            line.add(" ");
            push_call(dice, &["start"], line)
        }
        11 => push_watch_call(dice, &[client], line),
        12 => push_open_of(dice, &[client], line),
        _ => push_call(dice, &[client], line),
    }
}

// A call that needs a file in the upper layer, or a place in a directory there.
fn push_on_file(dice: &mut Dice, line: &mut Text) {
    match dice.roll(16) {
        0..=7 => {
            line.add(" open");
            push_one_of(dice, &FLAGS, line);
            push_one_of(dice, &STEP_FILES, line);
        }
        8 => {
            line.add(dice.pick(&[" chmod 600", " chown 7 8"]));
            push_one_of(dice, &STEP_FILES, line);
        }
        9 => {
            line.add(" setattr");
            push_one_of(dice, &STEP_FILES, line);
            line.add(" user.a 2");
        }
        10 => {
            line.add(dice.pick(&[" mkdir 755", " symlink t"]));
            push_one_of(dice, &PLACES, line);
        }
        11 => {
            line.add(dice.pick(&[" unlink", " rmdir", " open wc"]));
            push_path(dice, line);
        }
        _ => {
            line.add(dice.pick(&[" rename", " link"]));
            push_one_of(dice, &STEP_FILES, line);
            push_one_of(dice, &PLACES, line);
        }
    }
    line.add("\n");
}
