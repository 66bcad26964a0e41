// What is wrong with a line of a script, for a person: the word at fault, and what may stand there. Each
// word is judged by the reader of scripts itself, in a line whose other words are good.
use ov_script::{Escaped, command_of};
use std::alloc::{AllocError, Global};
use std::str;

/// The calls, a line each: their words as they are told, and as a good line has them.
const CALLS: &str = "\
stat P|stat /
readlink P|readlink /
chmod MODE P|chmod 644 /
chown UID GID P|chown 0 0 /
setattr P NAME VALUE|setattr / n v
getattr P NAME|getattr / n
delattr P NAME|delattr / n
attrs P|attrs /
mkdir MODE P|mkdir 755 /
symlink TARGET P|symlink t /
link OLD NEW|link / /
rename OLD NEW|rename / /
unlink P|unlink /
rmdir P|rmdir /
open FLAGS P|open r /
open FLAGS P MODE|open r / 644
read FD N|read 0 1
write FD DATA|write 0 d
seek FD OFFSET WHENCE|seek 0 0 set
truncate FD SIZE|truncate 0 0
fstat FD|fstat 0
list FD N|list 0 1
close FD|close 0
arm SLOT MASK P|arm 0 1 /
disarm WD|disarm 1
notices N|notices 1";

/// What may stand for a word of a call, a line each.
const KINDS: &str = "\
MODE|1 to 6 octal digits, as 755
MASK|1 to 8 hexadecimal digits, as 3c6
FLAGS|r, w or b, and then any of c, x, t, a and d, each once
WHENCE|set, cur or end
OFFSET|a decimal number of 64 bits, with a - before it or without
SIZE|a decimal number of 64 bits
SLOT|a decimal number from 0 to 255
WD|a decimal number from 0 to 2147483647
UID|a decimal number of 32 bits
GID|a decimal number of 32 bits
FD|a decimal number of 32 bits
N|a decimal number of 32 bits";

/// What may stand for any other word.
const TEXT: &str =
    "a text, in which \\x and two digits stand for a backslash and for each byte outside 0x21 to 0x7e, and \\- for none";

/// Why a line is no command, or can't be played where it stands.
pub fn why_bad(alloc: Global, line: &[u8]) -> Result<String, AllocError> {
    match str::from_utf8(line) {
        Ok(text) => why_bad_text(alloc, text),
        Err(_) => format!(in alloc;
            "the line is no UTF-8: other bytes are written as \\x and two digits"
        ),
    }
}

fn why_bad_text(alloc: Global, text: &str) -> Result<String, AllocError> {
    if let Some(spaces) = why_no_words(text) {
        return String::from_str(alloc, spaces);
    }
    let words: Vec<&str> = text.split(' ').collect(alloc)?;
    match words.as_slice() {
        [] | [_] => no_command(alloc, text),
        ["layer", index] => why_no_layer(alloc, text, index),
        [client, ..] if !is_client(alloc, client)? => no_command(alloc, client),
        [client, "step", _] | [client, "step"] | [client, "drop"] | [client, "detach"] => {
            why_no_step(alloc, client, text)
        }
        [client, "start", call @ ..] => why_bad_call(alloc, client, call),
        [client, call @ ..] => why_bad_call(alloc, client, call),
    }
}

// Why a line has no words, if it has none.
fn why_no_words(text: &str) -> Option<&'static str> {
    if text.ends_with('\r') {
        return Some("the line ends with a carriage return: lines end with a line feed alone");
    }
    if text.split(' ').any(|word| word.is_empty()) {
        return Some("words have one space between them, and none before or behind them");
    }
    if text.contains('\t') {
        return Some("words have one space between them, and no tab; in a word it is \\x09");
    }
    None
}

fn no_command(alloc: Global, word: &str) -> Result<String, AllocError> {
    let word = Escaped(word.as_bytes());
    format!(in alloc;
        "{word}: a line is attach, merge, work, layer I, or a client's number and what it does"
    )
}

fn is_client(alloc: Global, word: &str) -> Result<bool, AllocError> {
    is_good(format!(in alloc; "{word} detach"))
}

// Whether a line is a command.
fn is_good(line: Result<String, AllocError>) -> Result<bool, AllocError> {
    Ok(command_of(line?.as_bytes()).is_ok())
}

fn why_no_layer(alloc: Global, text: &str, index: &str) -> Result<String, AllocError> {
    let index = Escaped(index.as_bytes());
    match command_of(text.as_bytes()) {
        Ok(_) => format!(in alloc; "the mount has no layer {index}"),
        Err(_) => format!(in alloc; "{index}: I is the decimal number of a layer"),
    }
}

fn why_no_step(alloc: Global, client: &str, text: &str) -> Result<String, AllocError> {
    match command_of(text.as_bytes()) {
        Ok(_) => format!(in alloc;
            "client {client} isn't attached here, or has begun no call in steps"
        ),
        Err(_) => format!(in alloc;
            "C step N: N is a decimal number from 1 to 18446744073709551615"
        ),
    }
}

// Why the words of a call are none, or else why it can't be made.
fn why_bad_call(alloc: Global, client: &str, words: &[&str]) -> Result<String, AllocError> {
    let Some(name) = words.first() else {
        return format!(in alloc; "C start CALL: a call is missing");
    };
    let Some((told, good)) = form_of(name, words.len()) else {
        return no_form(alloc, name);
    };
    for (place, word) in words.iter().enumerate() {
        if !is_good(with_word(alloc, good, place, word))? {
            return not_of_kind(alloc, told, place, word);
        }
    }
    format!(in alloc; "client {client} isn't attached here, or has begun a call in steps")
}

// The form of a call with so many words, as it is told and as a good line has it.
fn form_of(name: &str, count: usize) -> Option<(&'static str, &'static str)> {
    for line in CALLS.lines() {
        let (told, good) = line.split_once('|').unwrap_or((line, ""));
        if is_named(told, name) && words_in(told) == count {
            return Some((told, good));
        }
    }
    None
}

fn is_named(told: &str, name: &str) -> bool {
    let (first, _) = told.split_once(' ').unwrap_or((told, ""));
    first == name
}

fn words_in(told: &str) -> usize {
    told.split(' ').count()
}

// A call of this name with other words than the line has, or none.
fn no_form(alloc: Global, name: &str) -> Result<String, AllocError> {
    let word = Escaped(name.as_bytes());
    for line in CALLS.lines() {
        let (told, _) = line.split_once('|').unwrap_or((line, ""));
        if is_named(told, name) {
            return format!(in alloc; "{word}: its words are C {told}");
        }
    }
    format!(in alloc; "{word}: no such call; overlayd play --help has them all")
}

// A line of a good call, with another word at a place.
fn with_word(alloc: Global, good: &str, place: usize, word: &str) -> Result<String, AllocError> {
    let mut line = String::from_str(alloc, "0")?;
    for (at, other) in good.split(' ').enumerate() {
        line.push_str(" ")?;
        line.push_str(if at == place { word } else { other })?;
    }
    Ok(line)
}

// A word at a place of a call is none that may stand there.
fn not_of_kind(alloc: Global, told: &str, place: usize, word: &str) -> Result<String, AllocError> {
    let kind = kind_at(told, place);
    let what = allowed_of(kind);
    let word = Escaped(word.as_bytes());
    format!(in alloc; "{word}: {kind} is {what}; the line is C {told}")
}

// The word at a place of a form.
fn kind_at<'a>(told: &'a str, place: usize) -> &'a str {
    for (at, kind) in told.split(' ').enumerate() {
        if at == place {
            return kind;
        }
    }
    told
}

// What may stand for a word of this kind.
fn allowed_of(kind: &str) -> &'static str {
    for line in KINDS.lines() {
        let (name, what) = line.split_once('|').unwrap_or((line, ""));
        if name == kind {
            return what;
        }
    }
    TEXT
}
