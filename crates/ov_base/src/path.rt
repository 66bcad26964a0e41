// Paths from the root.
ghost use Rattle.std.specs.Prelude.{◌≡◌, ◌∷◌, [], ◌≤◌, ◌&&◌, reverse, length, nat_eq, nat_lt};
ghost use Rattle.std.specs.Prelude.{IfOk, MatchOption, OnErr, slice_index};
ghost use Rattle.std.specs.List.{before_first, position_or_len};
ghost use Rattle.ov_base.specs.Names.{name_fault};
ghost use Rattle.ov_base.specs.Paths.{path_of_text, path_below, pieces};

use crate::errno::Errno;
use crate::name::{NAME_MAX, Name};
use crate::plain::plain_run;
use std::alloc::{AllocError, Global};
use std::marker::Model;

/// The most bytes of a path text, as Linux's `PATH_MAX` without the NUL.
pub const PATH_MAX: usize = 4095;

/// A path from the root. Contracts see its names with the last one first, so that the parent is the tail.
#[derive(Drop)]
pub struct Path {
    names: Vec<Name>,
}

impl Model for Path {
    ghost use Rattle.std.specs.Prelude.{List, ℕ, reverse};

    ghost Value = { List (List ℕ) };

    ghost view = { λ p. reverse p.names.items };
}

impl Path {
    /// The path of the root, which has no names.
    pub fn root(alloc: Global) -> Path
        ensures { result ≡ [] }
    {
        Path {
            names: Vec::new(alloc),
        }
    }

    /// The path that a text spells: `/` is the root, else each name follows a `/`. A text over
    /// 4,095 bytes is ENAMETOOLONG, one that doesn't begin with `/` is EINVAL, and then the first
    /// name at fault decides: over 255 bytes ENAMETOOLONG; empty, `.`, `..` or with a NUL EINVAL.
    pub fn parse(alloc: Global, text: &[u8]) -> Result<Result<Path, Errno>, AllocError>
        ensures { IfOk result (λ outcome. outcome ≡ path_of_text text.now) }
    {
        if text.len() > PATH_MAX {
            return Ok(Err(Errno::ENAMETOOLONG));
        }
        match text {
            [b'/'] => Ok(Ok(Path::root(alloc))),
            [b'/', rest @ ..] => parse_names(alloc, rest, slashes(text)),
            _ => Ok(Err(Errno::EINVAL)),
        }
    }

    /// The names from the root down.
    pub fn names(&self) -> &[Name]
        ensures { result.now ≡ reverse self.now }
    {
        self.names.as_slice()
    }

    /// The last name, and the names before it from the root down; none for the root.
    pub fn split_last(&self) -> Option<(&Name, &[Name])>
        ensures { MatchOption result (self.now ≡ []) (λ split. self.now ≡ split.0.now ∷ reverse split.1.now) }
    {
        self.names().split_last()
    }

    /// Goes on to a name in the directory of this path.
    pub fn push(&mut self, name: Name) -> Result<(), AllocError>
        ensures ok { IfOk result (λ _. self.new ≡ name ∷ self.old) }
        ensures err { OnErr result (self.new ≡ self.old) }
    {
        self.names.push(name)?;
        Ok(())
    }
}

// Whether a NUL stands at this place.
fn has_nul_at(text: &[u8], place: usize) -> bool
    ensures { result ≡ (nat_lt place (length text.now) && nat_eq (slice_index text.now place) 0) }
{
    place < text.len() && text[place] == 0
}

// How many bytes come before the first `/`.
fn before_slash(text: &[u8]) -> usize
    ensures { result ≡ position_or_len (λ b. nat_eq b 47) text.now }
{
    text.iter().take_while(|b| **b != b'/').count()
}

// The refusal of the piece before the first `/`, where that is no name.
fn first_fault(text: &[u8]) -> Errno
    ensures { result ≡ name_fault (before_first (λ b. nat_eq b 47) text.now) }
{
    if before_slash(text) > NAME_MAX {
        Errno::ENAMETOOLONG
    } else {
        Errno::EINVAL
    }
}

// How many `/` a text has. It counts in 16 bits, which no path passes, so that the compiler can
// count several bytes at a time.
fn slashes(text: &[u8]) -> usize
    requires { length text.now ≤ 4095 }
{
    let mut count: u16 = 0;
    for byte in text {
        count += (*byte == b'/') as u16;
    }
    count as usize
}

// The path below the root; room is made for so many names at once.
fn parse_names(alloc: Global, text: &[u8], room: usize) -> Result<Result<Path, Errno>, AllocError>
    ensures { IfOk result (λ outcome. outcome ≡ path_below [] (pieces text.now)) }
{
    let mut path = Path {
        names: Vec::with_capacity(alloc, room)?,
    };
    let mut rest = text;
    'names: loop {
        let end = plain_run(rest);
        if end > NAME_MAX {
            return Ok(Err(Errno::ENAMETOOLONG));
        }
        // A piece with a NUL is no name, and goes on to the next `/`.
        if has_nul_at(rest, end) {
            return Ok(Err(first_fault(rest)));
        }
        match Name::of_plain(alloc, &rest[..end])? {
            Ok(name) => path.push(name)?,
            Err(fault) => return Ok(Err(fault)),
        }
        if end == rest.len() {
            return Ok(Ok(path));
        }
        rest = &rest[end + 1..];
    }
}
