// In which line of a manifest something stands, where that is certain.
use toml::{Table, Value};

/// The line, counted from 1, in which a key of the whole stands, where there is one such line.
pub(crate) fn line_of_key(bytes: &[u8], key: &str) -> Option<usize> {
    let mut found = None;
    for (before, line) in bytes.split(|byte| *byte == b'\n').enumerate() {
        if sets(line, key) {
            if found.is_some() {
                return None;
            }
            found = Some(before.saturating_add(1));
        }
    }
    found
}

// Whether a line begins with a key and an equals sign.
fn sets(line: &[u8], key: &str) -> bool {
    match line.trim_ascii_start().strip_prefix(key.as_bytes()) {
        Some(rest) => rest.trim_ascii_start().starts_with(b"="),
        None => false,
    }
}

/// The line, counted from 1, in which an entry has a text: the one of as many before as the entries
/// before it have that text. None where it stands elsewhere too, as in a comment.
pub(crate) fn line_of_text(
    bytes: &[u8],
    table: &Table,
    at: (usize, usize),
    text: &str,
) -> Option<usize> {
    let (before, all) = uses_of(table, at, text);
    let mut found = 0usize;
    let mut line = None;
    for (above, words) in bytes.split(|byte| *byte == b'\n').enumerate() {
        found = found.saturating_add(quoted_in(words, text));
        if line.is_none() && found > before {
            line = Some(above.saturating_add(1));
        }
    }
    if found == all { line } else { None }
}

// How often a line has a text in quotes.
fn quoted_in(line: &[u8], text: &str) -> usize {
    let length = text.len().saturating_add(2);
    line.windows(length)
        .filter(|words| quotes(words, text))
        .count()
}

// Whether words are a text in quotes.
fn quotes(words: &[u8], text: &str) -> bool {
    match words {
        [b'"', inner @ .., b'"'] => inner == text.as_bytes(),
        [b'\'', inner @ .., b'\''] => inner == text.as_bytes(),
        _ => false,
    }
}

// How often the entries before one have a text as a value, and how often all have.
fn uses_of(table: &Table, at: (usize, usize), text: &str) -> (usize, usize) {
    let (mut before, mut all) = (0usize, 0usize);
    let Some(layers) = table.get("layer").and_then(Value::as_array) else {
        return (before, all);
    };
    for (number, layer) in layers.iter().enumerate() {
        let (above, here) = uses_in(layer, if number == at.0 { at.1 } else { 0 }, text);
        all = all.saturating_add(here);
        if number < at.0 {
            before = before.saturating_add(here);
        } else if number == at.0 {
            before = before.saturating_add(above);
        }
    }
    (before, all)
}

// How often the entries of a layer before one have a text, and how often all of them.
fn uses_in(layer: &Value, at: usize, text: &str) -> (usize, usize) {
    let (mut before, mut all) = (0usize, 0usize);
    let Some(entries) = layer.get("entry").and_then(Value::as_array) else {
        return (before, all);
    };
    for (number, entry) in entries.iter().enumerate() {
        let here = values_of(entry, text);
        all = all.saturating_add(here);
        if number < at {
            before = before.saturating_add(here);
        }
    }
    (before, all)
}

// How many values of an entry are this text.
fn values_of(entry: &Value, text: &str) -> usize {
    let Some(entry) = entry.as_table() else {
        return 0;
    };
    entry
        .iter()
        .filter(|(_, value)| value.as_str() == Some(text))
        .count()
}
