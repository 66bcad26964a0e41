// Paths in the order of their texts.
ghost use Rattle.std.specs.Prelude.{◌≡◌, IfOk, reverse};
ghost use Rattle.std.specs.Ordering.{is_gt};
ghost use Rattle.plain_model.specs.Merging as merging;
ghost use Rattle.plain_model.specs.Merging.{text_cmp};

use ov_base::{Name, Path};
use std::alloc::{AllocError, Global};

// A path with its text, which is made once.
#[derive(Drop)]
pub(crate) struct Candidate {
    pub(crate) path: Path,
    text: Vec<u8>,
    ghost spelled: { text.items ≡ merging.text path },
}

impl Candidate {
    pub(crate) fn new(alloc: Global, path: Path) -> Result<Candidate, AllocError>
        ensures { IfOk result (λ c. c.path ≡ path) }
    {
        let text = text_of(alloc, path.names())?;
        Ok(Candidate { path, text })
    }

    // Whether the text comes after that of another by their bytes.
    pub(crate) fn is_after(&self, other: &Candidate) -> bool
        ensures { result ≡ is_gt (text_cmp self.now.path other.now.path) }
    {
        self.text.as_slice() > other.text.as_slice()
    }
}

// The text of the path of these names from the root: each after a `/`.
fn text_of(alloc: Global, names: &[Name]) -> Result<Vec<u8>, AllocError>
    ensures { IfOk result (λ v. v.items ≡ merging.text (reverse names.now)) }
{
    let mut text = Vec::new(alloc);
    for name in names {
        text.push(b'/')?;
        text.extend_from_slice(name.as_slice())?;
    }
    Ok(text)
}
