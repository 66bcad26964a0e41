// The flags of an open.
ghost use Rattle.std.specs.Prelude.{◌≡◌};
ghost use Rattle.ov_script.specs.Flags as opens;

use ov_base::OpenFlags;

const NO_FLAGS: OpenFlags = OpenFlags {
    reads: false,
    writes: false,
    create: false,
    exclusive: false,
    truncate: false,
    append: false,
    directory: false,
    unknown: false,
};

/// The flags that a word spells: `r`, `w` or `b` for both, and then any of `c` O_CREAT, `x` O_EXCL, `t` O_TRUNC, `a` O_APPEND and `d`
/// O_DIRECTORY, each at most once (open(2)).
pub fn open_flags(word: &[u8]) -> Option<OpenFlags>
    ensures { result ≡ opens.flags_of word.now }
{
    if word.is_empty() {
        return None;
    }
    let (reads, writes) = access_of(word[0])?;
    let flags = more_flags(&word[1..])?;
    Some(OpenFlags {
        reads,
        writes,
        ..flags
    })
}

// The flags that letters spell, without an access.
fn more_flags(letters: &[u8]) -> Option<OpenFlags>
    ensures { result ≡ opens.flags_after opens.no_flags letters.now }
{
    let mut flags = NO_FLAGS;
    for letter in letters {
        flags = with_flag(flags, *letter)?;
    }
    Some(flags)
}

// Whether a letter spells reading, and writing.
fn access_of(letter: u8) -> Option<(bool, bool)>
    ensures { result ≡ opens.access_of letter }
{
    match letter {
        b'r' => Some((true, false)),
        b'w' => Some((false, true)),
        b'b' => Some((true, true)),
        _ => None,
    }
}

// The flags with the one that a letter spells, if they hadn't it.
fn with_flag(flags: OpenFlags, letter: u8) -> Option<OpenFlags>
    ensures { result ≡ opens.with_flag letter flags }
{
    let mut flags = flags;
    match letter {
        b'c' if !flags.create => flags.create = true,
        b'x' if !flags.exclusive => flags.exclusive = true,
        b't' if !flags.truncate => flags.truncate = true,
        b'a' if !flags.append => flags.append = true,
        b'd' if !flags.directory => flags.directory = true,
        _ => return None,
    }
    Some(flags)
}
