// The entries of which an upper layer's lines tell.
use crate::entries::{Entry, Kind, Spelling, path_in};
use crate::list::List;
use ov_script::EscapedWord;
use std::alloc::{AllocError, Global};

/// What a line tells.
#[derive(Drop)]
pub struct Told<'a> {
    /// Its words as the line has them.
    words: Entry<'a>,
    path: Option<Vec<u8>>,
    redirect: Option<Vec<u8>>,
    target: Option<Vec<u8>>,
    metacopy: Option<Vec<u8>>,
}

/// What lines tell, each path once. A line of which the words aren't those of an object tells nothing.
pub fn told_in<'a>(alloc: Global, lines: &'a str) -> Result<Vec<Told<'a>>, AllocError> {
    let mut list: List<Told<'a>> = List::new(alloc);
    for line in lines.lines() {
        if let Some(words) = words_in(line) {
            let told = told_of(alloc, words, &mut list);
            if told.path.is_some() && !is_told(list.as_slice(), told.path()) {
                list.add(told);
            }
        }
    }
    list.end()
}

fn is_told(list: &[Told<'_>], path: &[u8]) -> bool {
    for told in list {
        if told.path() == path {
            return true;
        }
    }
    false
}

// What words spell. Where there is no memory for that the list notes it.
fn told_of<'a>(alloc: Global, words: Entry<'a>, list: &mut List<Told<'a>>) -> Told<'a> {
    Told {
        words,
        path: spelled(alloc, Some(words.path), list),
        redirect: spelled(alloc, words.redirect, list),
        target: spelled(alloc, target_in(words.bytes), list),
        metacopy: spelled(alloc, words.metacopy, list),
    }
}

fn target_in(spelling: Spelling<'_>) -> Option<&[u8]> {
    match spelling {
        Spelling::Text(target) => Some(target),
        _ => None,
    }
}

// The bytes that a word spells, if it is one.
fn spelled(alloc: Global, word: Option<&[u8]>, list: &mut List<Told<'_>>) -> Option<Vec<u8>> {
    let word = EscapedWord::parse(word?)?;
    match word.bytes(alloc) {
        Ok(bytes) => Some(bytes),
        Err(_) => {
            list.note(true);
            None
        }
    }
}

impl Told<'_> {
    fn path(&self) -> &[u8] {
        match &self.path {
            Some(path) => path.as_slice(),
            None => &[],
        }
    }

    /// The entry that is told, with as many zeros as a file has bytes.
    pub fn entry(&self) -> Entry<'_> {
        let path = path_in(self.path());
        Entry {
            path,
            first: path,
            bytes: self.bytes(),
            redirect: bytes_of(&self.redirect),
            metacopy: bytes_of(&self.metacopy),
            ..self.words
        }
    }

    fn bytes(&self) -> Spelling<'_> {
        match &self.target {
            Some(target) => Spelling::Text(target.as_slice()),
            None => self.words.bytes,
        }
    }
}

fn bytes_of(spelled: &Option<Vec<u8>>) -> Option<&[u8]> {
    match spelled {
        Some(bytes) => Some(bytes.as_slice()),
        None => None,
    }
}

// The words of a line, without those that its kind hasn't.
fn words_in(line: &str) -> Option<Entry<'_>> {
    let (line, target) = cut(line, " -> ");
    let (line, redirect) = cut(line, " redirect ");
    let (line, opaque) = cut(line, " opaque");
    let (line, metacopy) = cut(line, " metacopy ");
    let mut words = first_words(line)?;
    match words.kind {
        Kind::Directory => {
            words.bytes = Spelling::Zeros(0);
            words.links = 1;
            words.opaque = opaque.is_some();
            words.redirect = redirect;
        }
        Kind::SymbolicLink => words.bytes = Spelling::Text(target?),
        Kind::File => words.metacopy = metacopy,
        Kind::Whiteout => {}
    }
    Some(words)
}

// A line before a mark, and the bytes that follow the mark, if it is there.
fn cut<'a>(line: &'a str, mark: &str) -> (&'a str, Option<&'a [u8]>) {
    match line.split_once(mark) {
        Some((before, after)) => (before, Some(after.as_bytes())),
        None => (line, None),
    }
}

// The seven words that each line has.
fn first_words(line: &str) -> Option<Entry<'_>> {
    let [kind, mode, uid, gid, size, links, path] = seven_words(line);
    let mut entry = Entry::bare(path.as_bytes(), kind_of(kind)?);
    let numbers = (
        u32::from_str_radix(mode, 8).ok(),
        number_in(uid),
        number_in(gid),
        number_in(size),
        number_in(links),
    );
    let (Some(mode), Some(uid), Some(gid), Some(size), Some(links)) = numbers else {
        return None;
    };
    entry.mode = mode;
    entry.uid = uid;
    entry.gid = gid;
    entry.bytes = Spelling::Zeros(size);
    entry.links = links;
    Some(entry)
}

// The first seven words of a line; those that it lacks are empty.
fn seven_words(line: &str) -> [&str; 7] {
    let mut words = [""; 7];
    for (place, word) in line.split(' ').enumerate() {
        if place < 7 {
            words[place] = word;
        }
    }
    words
}

fn number_in(word: &str) -> Option<u32> {
    word.parse::<u32>().ok()
}

fn kind_of(letter: &str) -> Option<Kind> {
    match letter {
        "d" => Some(Kind::Directory),
        "f" => Some(Kind::File),
        "l" => Some(Kind::SymbolicLink),
        "c" => Some(Kind::Whiteout),
        _ => None,
    }
}
