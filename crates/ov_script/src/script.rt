// The lines of a script.
ghost use Rattle.std.specs.Prelude.{◌≡◌, ◌<◌, ◌∷◌, [], IfSome, MatchOption, length, nat_eq, position};
ghost use Rattle.std.specs.Option.{option_and_then};
ghost use Rattle.std.specs.Result.{result_ok};
ghost use Rattle.ov_script.specs.Commands as commands;
ghost use Rattle.ov_script.specs.Escapes.{spelled_word};
ghost use Rattle.ov_script.specs.Words.{words};

use crate::escape::EscapedWord;
use crate::flags::open_flags;
use crate::numbers::{decimal, mask, octal_mode, offset, size, slot, steps, watch};
use ov_base::CallOf;

/// A line that is no command.
#[derive(Clone, Copy, Debug, PartialEq, Eq)]
pub struct BadCommand;

/// What a line asks for.
#[derive(Drop)]
pub enum Command<'a> {
    Attach,
    Detach { client: u32 },
    Call { client: u32, call: CallText<'a> },
    /// A call that is made in steps. This makes none of them.
    Start { client: u32, call: CallText<'a> },
    /// So many steps of the call that was started, at least one.
    Step { client: u32, steps: u64 },
    /// The call that was started is dropped.
    Drop { client: u32 },
    Layer { index: u32 },
    Merge,
    /// How many temps there are.
    Work,
}

/// A call as a line spells it. Its words have their form; whether a path is one is judged later.
pub type CallText<'a> = CallOf<EscapedWord<'a>, EscapedWord<'a>>;

/// How many steps `step` makes where the line has no number.
const STEPS_DEFAULT: u64 = 1;

/// The mode of `open` where the line has none.
const MODE_DEFAULT: u32 = 0o644;

/// The command of a line, without its line break. Words have one space between.
pub fn command_of(line: &[u8]) -> Result<Command<'_>, BadCommand>
    ensures { result_ok result ≡ commands.command_of line.now }
{
    let (first, rest) = split_word(line);
    let command = match rest {
        None => one_word(first),
        Some(rest) => more_words(first, rest),
    };
    command.ok_or(BadCommand)
}

// The word before the first space, and what follows that space.
fn split_word(text: &[u8]) -> (&[u8], Option<&[u8]>)
    ensures { MatchOption result.1 (words text.now ≡ result.0.now ∷ []) (λ rest. words text.now ≡ result.0.now ∷ words rest.now) }
{
    match first_space(text) {
        Some(space) => (&text[..space], Some(&text[space + 1..])),
        None => (text, None),
    }
}

fn first_space(text: &[u8]) -> Option<usize>
    ensures place { result ≡ position (λ b. nat_eq b 32) text.now }
    ensures within { IfSome result (λ place. place < length text.now) }
{
    text.iter().position(|byte| *byte == b' ')
}

fn one_word<'a>(word: &[u8]) -> Option<Command<'a>>
    ensures { result ≡ commands.one_word word.now }
{
    if word == b"attach".as_slice() {
        Some(Command::Attach)
    } else if word == b"merge".as_slice() {
        Some(Command::Merge)
    } else if word == b"work".as_slice() {
        Some(Command::Work)
    } else {
        None
    }
}

fn more_words<'a>(first: &[u8], rest: &'a [u8]) -> Option<Command<'a>>
    ensures { result ≡ commands.more_words first.now (words rest.now) }
{
    let (second, rest) = split_word(rest);
    match rest {
        None => two_words(first, second),
        Some(rest) => client_words(first, second, rest),
    }
}

fn two_words<'a>(first: &[u8], second: &[u8]) -> Option<Command<'a>>
    ensures { result ≡ commands.two_words first.now second.now }
{
    if first == b"layer".as_slice() {
        let index = decimal(second)?;
        Some(Command::Layer { index })
    } else if second == b"detach".as_slice() {
        let client = decimal(first)?;
        Some(Command::Detach { client })
    } else if second == b"step".as_slice() {
        let client = decimal(first)?;
        let steps = STEPS_DEFAULT;
        Some(Command::Step { client, steps })
    } else if second == b"drop".as_slice() {
        let client = decimal(first)?;
        Some(Command::Drop { client })
    } else {
        None
    }
}

// What a client asks for by a word and those after it.
fn client_words<'a>(client: &[u8], name: &[u8], rest: &'a [u8]) -> Option<Command<'a>>
    ensures { result ≡ commands.client_words client.now name.now (words rest.now) }
{
    if name == b"start".as_slice() {
        client_start(client, rest)
    } else if name == b"step".as_slice() {
        client_steps(client, rest)
    } else {
        client_call(client, name, rest)
    }
}

fn client_start<'a>(client: &[u8], rest: &'a [u8]) -> Option<Command<'a>>
    ensures { result ≡ commands.client_start client.now (commands.call_of_words (words rest.now)) }
{
    let client = decimal(client)?;
    let call = call_of_words(rest)?;
    Some(Command::Start { client, call })
}

fn client_steps<'a>(client: &[u8], rest: &[u8]) -> Option<Command<'a>>
    ensures { result ≡ commands.client_steps client.now (commands.steps_of_words (words rest.now)) }
{
    let client = decimal(client)?;
    let steps = steps_of_words(rest)?;
    Some(Command::Step { client, steps })
}

fn client_call<'a>(client: &[u8], name: &[u8], rest: &'a [u8]) -> Option<Command<'a>>
    ensures { result ≡ commands.client_call client.now (commands.call_text name.now (words rest.now)) }
{
    let client = decimal(client)?;
    let call = call_text(name, rest)?;
    Some(Command::Call { client, call })
}

// How many steps a text of one word spells.
fn steps_of_words(text: &[u8]) -> Option<u64>
    ensures { result ≡ commands.steps_of_words (words text.now) }
{
    let (word, rest) = split_word(text);
    match rest {
        None => steps(word),
        Some(_more) => None,
    }
}

// The call of its name and the words after it.
fn call_of_words<'a>(text: &'a [u8]) -> Option<CallText<'a>>
    ensures { result ≡ commands.call_of_words (words text.now) }
{
    let (name, rest) = split_word(text);
    call_text(name, rest?)
}

// The call of a name and the words after it.
fn call_text<'a>(name: &[u8], rest: &'a [u8]) -> Option<CallText<'a>>
    ensures { result ≡ commands.call_text name.now (words rest.now) }
{
    let (first, rest) = split_word(rest);
    let Some(rest) = rest else {
        return call_of_one(name, first);
    };
    let (second, rest) = split_word(rest);
    let Some(rest) = rest else {
        return call_of_two(name, first, second);
    };
    let (third, rest) = split_word(rest);
    match rest {
        None => call_of_three(name, first, second, third),
        Some(_) => None,
    }
}

fn call_of_one<'a>(name: &[u8], word: &'a [u8]) -> Option<CallText<'a>>
    ensures { result ≡ commands.call_of_one name.now word.now }
{
    if name == b"close".as_slice() {
        let descriptor = decimal(word)?;
        Some(CallText::Close { descriptor })
    } else if name == b"fstat".as_slice() {
        let descriptor = decimal(word)?;
        Some(CallText::Fstat { descriptor })
    } else if name == b"disarm".as_slice() {
        let watch = watch(word)?;
        Some(CallText::Disarm { watch })
    } else if name == b"notices".as_slice() {
        let count = decimal(word)?;
        Some(CallText::TakeNotices { count })
    } else {
        call_of_path(name, word)
    }
}

fn call_of_path<'a>(name: &[u8], word: &'a [u8]) -> Option<CallText<'a>>
    ensures { result ≡ option_and_then (commands.call_of_path name.now) (spelled_word word.now) }
{
    let path = EscapedWord::parse(word)?;
    if name == b"stat".as_slice() {
        Some(CallText::Stat { path })
    } else if name == b"readlink".as_slice() {
        Some(CallText::Readlink { path })
    } else if name == b"attrs".as_slice() {
        Some(CallText::ListAttributes { path })
    } else if name == b"unlink".as_slice() {
        Some(CallText::Unlink { path })
    } else if name == b"rmdir".as_slice() {
        Some(CallText::Rmdir { path })
    } else {
        None
    }
}

fn call_of_two<'a>(name: &[u8], first: &'a [u8], second: &'a [u8]) -> Option<CallText<'a>>
    ensures { result ≡ commands.call_of_two name.now first.now second.now }
{
    if name == b"read".as_slice() {
        let descriptor = decimal(first)?;
        let count = decimal(second)?;
        Some(CallText::Read { descriptor, count })
    } else if name == b"write".as_slice() {
        let descriptor = decimal(first)?;
        let bytes = EscapedWord::parse(second)?;
        Some(CallText::Write { descriptor, bytes })
    } else if name == b"truncate".as_slice() {
        let descriptor = decimal(first)?;
        let size = size(second)?;
        Some(CallText::Truncate { descriptor, size })
    } else if name == b"list".as_slice() {
        let descriptor = decimal(first)?;
        let count = decimal(second)?;
        Some(CallText::ListNames { descriptor, count })
    } else {
        path_call_of_two(name, first, second)
    }
}

fn path_call_of_two<'a>(name: &[u8], first: &'a [u8], second: &'a [u8]) -> Option<CallText<'a>>
    ensures { result ≡ commands.path_call_of_two name.now first.now second.now }
{
    if name == b"chmod".as_slice() {
        let mode = octal_mode(first)?;
        let path = EscapedWord::parse(second)?;
        Some(CallText::Chmod { mode, path })
    } else if name == b"getattr".as_slice() {
        let path = EscapedWord::parse(first)?;
        let name = EscapedWord::parse(second)?;
        Some(CallText::GetAttribute { path, name })
    } else if name == b"delattr".as_slice() {
        let path = EscapedWord::parse(first)?;
        let name = EscapedWord::parse(second)?;
        Some(CallText::DeleteAttribute { path, name })
    } else if name == b"mkdir".as_slice() {
        let mode = octal_mode(first)?;
        let path = EscapedWord::parse(second)?;
        Some(CallText::Mkdir { mode, path })
    } else if name == b"symlink".as_slice() {
        let target = EscapedWord::parse(first)?;
        let path = EscapedWord::parse(second)?;
        Some(CallText::Symlink { target, path })
    } else if name == b"link".as_slice() {
        let old = EscapedWord::parse(first)?;
        let new = EscapedWord::parse(second)?;
        Some(CallText::Hardlink { old, new })
    } else if name == b"rename".as_slice() {
        let old = EscapedWord::parse(first)?;
        let new = EscapedWord::parse(second)?;
        Some(CallText::Rename { old, new })
    } else if name == b"open".as_slice() {
        let flags = open_flags(first)?;
        let path = EscapedWord::parse(second)?;
        let mode = MODE_DEFAULT;
        Some(CallText::Open { flags, path, mode })
    } else {
        None
    }
}

fn call_of_three<'a>(
    name: &[u8],
    first: &'a [u8],
    second: &'a [u8],
    third: &'a [u8],
) -> Option<CallText<'a>>
    ensures { result ≡ commands.call_of_three name.now first.now second.now third.now }
{
    if name == b"seek".as_slice() {
        let descriptor = decimal(first)?;
        let offset = offset(second)?;
        let whence = whence_of(third)?;
        Some(CallText::Seek {
            descriptor,
            offset,
            whence,
        })
    } else {
        path_call_of_three(name, first, second, third)
    }
}

fn path_call_of_three<'a>(
    name: &[u8],
    first: &'a [u8],
    second: &'a [u8],
    third: &'a [u8],
) -> Option<CallText<'a>>
    ensures { result ≡ commands.path_call_of_three name.now first.now second.now third.now }
{
    if name == b"chown".as_slice() {
        let uid = decimal(first)?;
        let gid = decimal(second)?;
        let path = EscapedWord::parse(third)?;
        Some(CallText::Chown { uid, gid, path })
    } else if name == b"setattr".as_slice() {
        let path = EscapedWord::parse(first)?;
        let name = EscapedWord::parse(second)?;
        let value = EscapedWord::parse(third)?;
        Some(CallText::SetAttribute { path, name, value })
    } else if name == b"open".as_slice() {
        let flags = open_flags(first)?;
        let path = EscapedWord::parse(second)?;
        let mode = octal_mode(third)?;
        Some(CallText::Open { flags, path, mode })
    } else if name == b"arm".as_slice() {
        let slot = slot(first)?;
        let mask = mask(second)?;
        let path = EscapedWord::parse(third)?;
        Some(CallText::Arm { slot, mask, path })
    } else {
        None
    }
}

// From where a seek counts: the start, the place or the end.
fn whence_of(word: &[u8]) -> Option<u8>
    ensures { result ≡ commands.whence_of word.now }
{
    if word == b"set".as_slice() {
        Some(0)
    } else if word == b"cur".as_slice() {
        Some(1)
    } else if word == b"end".as_slice() {
        Some(2)
    } else {
        None
    }
}
