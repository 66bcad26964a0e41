// Repeated words in the lines of rows.
use ov_script::EscapedWord;
use std::alloc::{AllocError, Global};

/// Appends the bytes of a line and a line break. In the line, `<3*ab>` stands for `ababab`; the word may have escapes, as in `<1*\xff>`.
pub fn push_line(alloc: Global, bytes: &mut Vec<u8>, line: &str) -> Result<(), AllocError> {
    for (index, piece) in line.split('<').enumerate() {
        if index == 0 {
            bytes.extend_from_slice(piece.as_bytes())?;
        } else {
            push_piece(alloc, bytes, piece)?;
        }
    }
    bytes.push(b'\n')?;
    Ok(())
}

// What follows a `<`: a repeated word up to the `>`, and text.
fn push_piece(alloc: Global, bytes: &mut Vec<u8>, piece: &str) -> Result<(), AllocError> {
    match piece.split_once('>') {
        Some((repeated, text)) => {
            push_repeated(alloc, bytes, repeated)?;
            bytes.extend_from_slice(text.as_bytes())
        }
        None => push_repeated(alloc, bytes, piece),
    }
}

// A word behind how often it stands there; without a count it stands there once.
fn push_repeated(alloc: Global, bytes: &mut Vec<u8>, repeated: &str) -> Result<(), AllocError> {
    match repeated.split_once('*') {
        Some((count, word)) => push_word(alloc, bytes, word, count.parse::<u32>().unwrap_or(1)),
        None => push_word(alloc, bytes, repeated, 1),
    }
}

fn push_word(alloc: Global, bytes: &mut Vec<u8>, word: &str, count: u32) -> Result<(), AllocError> {
    let Some(word) = EscapedWord::parse(word.as_bytes()) else {
        return Ok(());
    };
    let word = word.bytes(alloc)?;
    for _ in 0..count {
        bytes.extend_from_slice(word.as_slice())?;
    }
    Ok(())
}
