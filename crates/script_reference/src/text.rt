// A text on its way.
use std::alloc::{AllocError, Global};
use std::ops::Range;

/// Pieces that are added one behind the other. Where memory runs out for one that is told in the end
/// alone, so that who adds pieces has no fault to hand on.
#[derive(Drop)]
pub struct Text {
    pieces: String,
    lacks_memory: bool,
}

impl Text {
    /// No text.
    pub fn new(alloc: Global) -> Text {
        Text {
            pieces: String::new(alloc),
            lacks_memory: false,
        }
    }

    /// Adds a piece.
    pub fn add(&mut self, piece: &str) {
        let added = self.pieces.push_str(piece);
        self.note(added);
    }

    /// Adds a word and the space before it.
    pub fn word(&mut self, word: &str) {
        self.add(" ");
        self.add(word);
    }

    /// Adds a piece that was made, if there was memory for it.
    pub fn put(&mut self, piece: Result<String, AllocError>) {
        match piece {
            Ok(piece) => self.add(piece.as_str()),
            Err(_) => self.lacks_memory = true,
        }
    }

    /// Notes whether there was memory for something that makes pieces.
    pub fn note(&mut self, made: Result<(), AllocError>) {
        if made.is_err() {
            self.lacks_memory = true;
        }
    }

    /// Adds the lines that show layers of these numbers.
    pub fn layers(&mut self, alloc: Global, numbers: Range<u32>) {
        for number in numbers {
            self.put(format!(in alloc; "layer {number}\n"));
        }
    }

    /// What was added.
    pub fn as_str(&self) -> &str {
        self.pieces.as_str()
    }

    /// Adds the pieces of another, of which none are left there.
    pub fn take(&mut self, other: &mut Text) {
        self.add(other.as_str());
        self.lacks_memory = self.lacks_memory || other.lacks_memory;
        other.pieces.clear();
    }

    /// The whole text.
    pub fn end(self) -> Result<String, AllocError> {
        let Text {
            pieces,
            lacks_memory,
        } = self;
        if lacks_memory {
            Err(AllocError)
        } else {
            Ok(pieces)
        }
    }
}
