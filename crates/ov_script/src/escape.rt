// Any bytes as one word of a line, and back.
ghost use Rattle.std.specs.Prelude.{◌≡◌, ◌∷◌, Some, None, ◌<◌, ◌==◌, IfOk, IfSome, IfNone, is_some, option_map, length};
ghost use Rattle.ov_script.specs.Escapes as escapes;
ghost use Rattle.ov_script.specs.Escapes.{LawOfEscapes, escaped_byte, escaped_of, hexadecimal_value, spelled, spelled_word};

use ov_base::{Bytes, IntoBytes};
use std::alloc::{AllocError, Global};
use std::fmt;
use std::marker::Model;

/// Bytes as one word: a byte outside 0x21 to 0x7e, and the backslash, is `\x` and two lower-case hexadecimal digits; no bytes are `\-`.
#[derive(Clone, Copy)]
pub struct Escaped<'a>(pub &'a [u8]);

impl fmt::Display for Escaped<'_> {
    ghost output = { λ e. Some (escaped_of e.0.now) };

    fn fmt<W: fmt::Write>(&self, f: &mut fmt::Formatter<W>) -> fmt::Result {
        if self.0.is_empty() {
            return write!(f, "\\-");
        }
        for byte in self.0 {
            let byte = EscapedByte(*byte);
            write!(f, "{byte}")?;
        }
        Ok(())
    }
}

#[derive(Clone, Copy)]
struct EscapedByte(u8);

impl fmt::Display for EscapedByte {
    ghost output = { λ e. Some (escaped_byte e.0) };

    #[tactic(auto, using(std::proofs::lemmas::Fmt::hex_byte))]
    fn fmt<W: fmt::Write>(&self, f: &mut fmt::Formatter<W>) -> fmt::Result {
        let byte = self.0;
        if is_graphic(byte) && byte != b'\\' {
            let plain = byte as char;
            write!(f, "{plain}")
        } else {
            write!(f, "\\x{byte:02x}")
        }
    }
}

// Whether the byte may stand in a word.
fn is_graphic(byte: u8) -> bool
    ensures { result ≡ escapes.is_graphic byte }
{
    byte >= 0x21 && byte <= 0x7e
}

/// A word of which each byte or escape has its form; an escape of a byte that needs none is taken. Contracts see the bytes that
/// it spells.
#[derive(Drop)]
pub struct EscapedWord<'a> {
    word: &'a [u8],
}

impl<'a> Model for EscapedWord<'a> {
    ghost use Rattle.std.specs.Prelude.{List, ℕ, [], unwrap_or, IsSome};
    ghost use Rattle.ov_script.specs.Escapes.{spelled_word};

    ghost Value = { List ℕ };

    ghost view = { λ w. unwrap_or (spelled_word w.word.now) [] };

    ghost invariant = { λ w. IsSome (spelled_word w.word.now) };
}

impl<'a> EscapedWord<'a> {
    /// The word, unless an escape hasn't its form or a byte outside 0x21 to 0x7e stands in it.
    pub fn parse(word: &'a [u8]) -> Option<EscapedWord<'a>>
        ensures { result ≡ spelled_word word.now }
    {
        if is_escaped(word) {
            Some(EscapedWord { word })
        } else {
            None
        }
    }

    /// The bytes that the word spells.
    pub fn bytes(&self, alloc: Global) -> Result<Vec<u8>, AllocError>
        ensures { IfOk result (λ bytes. bytes.items ≡ self.now) }
    {
        if self.word == b"\\-".as_slice() {
            Ok(Vec::new(alloc))
        } else {
            spelled_bytes(alloc, self.word)
        }
    }
}

impl IntoBytes for EscapedWord<'_> {
    ghost bytes = { λ w. w };

    fn into_bytes(self, alloc: Global) -> Result<Bytes, AllocError> {
        Ok(Bytes::from_vec(self.bytes(alloc)?))
    }
}

// The bytes that plain bytes and escapes spell, if each has its form.
fn spelled_bytes(alloc: Global, text: &[u8]) -> Result<Vec<u8>, AllocError>
    ensures { IfOk result (λ bytes. IfSome (spelled text.now) (λ all. bytes.items ≡ all)) }
{
    let mut bytes = Vec::new(alloc);
    let mut rest = text;
    'word: while let Some((byte, after)) = split_byte(rest) {
        bytes.push(byte)?;
        rest = after;
    }
    Ok(bytes)
}

fn is_escaped(word: &[u8]) -> bool
    ensures { result ≡ is_some (spelled_word word.now) }
{
    if word == b"\\-".as_slice() {
        return true;
    }
    let mut rest = word;
    'word: while let Some((_, after)) = split_byte(rest) {
        rest = after;
    }
    rest.is_empty() && !word.is_empty()
}

// The byte that the text begins with, and what follows its spelling.
fn split_byte(text: &[u8]) -> Option<(u8, &[u8])>
    ensures some { IfSome result (λ r. spelled text.now ≡ option_map (λ bytes. r.0 ∷ bytes) (spelled r.1.now)) }
    ensures shorter { IfSome result (λ r. length r.1.now < length text.now) }
    ensures none { IfNone result (is_some (spelled text.now) ≡ (length text.now == 0)) }
{
    let (first, rest) = text.split_first()?;
    let byte = *first;
    if byte == b'\\' {
        split_escape(rest)
    } else if is_graphic(byte) {
        Some((byte, rest))
    } else {
        None
    }
}

// The byte of the escape that the text goes on with after its backslash, and what follows it.
fn split_escape(text: &[u8]) -> Option<(u8, &[u8])>
    ensures some { IfSome result (λ r. spelled (92 ∷ text.now) ≡ option_map (λ bytes. r.0 ∷ bytes) (spelled r.1.now)) }
    ensures shorter { IfSome result (λ r. length r.1.now < length text.now) }
    ensures none { IfNone result (spelled (92 ∷ text.now) ≡ None) }
{
    match text {
        [b'x', high, low, rest @ ..] => {
            let high = hexadecimal_digit(*high)?;
            let low = hexadecimal_digit(*low)?;
            Some((high * 16 + low, rest))
        }
        _ => None,
    }
}

fn hexadecimal_digit(byte: u8) -> Option<u8>
    ensures value { result ≡ hexadecimal_value byte }
    ensures digit { IfSome result (λ d. d < 16) }
{
    match byte {
        b'0'..=b'9' => Some(byte - b'0'),
        b'a'..=b'f' => Some(byte - b'a' + 10),
        _ => None,
    }
}

/// What `Escaped` writes is one word of a line, of which `EscapedWord` gives the bytes back.
pub fn law_of_escapes()
    ensures { LawOfEscapes }
{}
