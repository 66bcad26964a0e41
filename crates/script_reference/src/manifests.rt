// The manifests over which generated scripts are played.
use std::alloc::{AllocError, Global};
use std::ops::Range;

// What makes a manifest one whose mount makes redirects, one whose mount copies files up without their bytes, too, and one without an upper,
// which has neither option or both.
const REDIRECTS: &[u8] = b"redirect_dir = \"on\"\n";

const METACOPY: &[u8] = b"redirect_dir = \"on\"\nmetacopy = \"on\"\n";

const NO_UPPER: &[u8] = b"upper = false\n";

const NO_UPPER_METACOPY: &[u8] = b"upper = false\nredirect_dir = \"on\"\nmetacopy = \"on\"\n";

/// One manifest as that of five mounts.
#[derive(Drop)]
pub struct Manifests {
    follows: Vec<u8>,
    redirects: Vec<u8>,
    metacopy: Vec<u8>,
    no_upper: Vec<u8>,
    no_upper_metacopy: Vec<u8>,
}

/// The text of a manifest, and whether its mount has an upper.
#[derive(Clone, Copy)]
pub struct Manifest<'a> {
    pub text: &'a [u8],
    pub has_upper: bool,
}

impl Manifests {
    /// All five, from the one of a mount with an upper and without options.
    pub fn of(alloc: Global, follows: Vec<u8>) -> Result<Manifests, AllocError> {
        let redirects = with_keys(alloc, REDIRECTS, follows.as_slice())?;
        let metacopy = with_keys(alloc, METACOPY, follows.as_slice())?;
        let no_upper = with_keys(alloc, NO_UPPER, follows.as_slice())?;
        let no_upper_metacopy = with_keys(alloc, NO_UPPER_METACOPY, follows.as_slice())?;
        Ok(Manifests {
            follows,
            redirects,
            metacopy,
            no_upper,
            no_upper_metacopy,
        })
    }

    /// The one that goes with a seed: of twelve, three make redirects, three copy files up without their bytes, too, and two have no upper.
    pub fn with_seed(&self, seed: u64) -> Manifest<'_> {
        let (text, has_upper) = match seed % 12 {
            1 | 5 | 9 => (&self.redirects, true),
            3 | 7 | 11 => (&self.metacopy, true),
            4 => (&self.no_upper, false),
            10 => (&self.no_upper_metacopy, false),
            _ => (&self.follows, true),
        };
        Manifest {
            text: text.as_slice(),
            has_upper,
        }
    }
}

impl Manifest<'_> {
    /// The numbers of so many layers of its mount: without an upper none of them is 0.
    pub fn numbers(self, layers: u32) -> Range<u32> {
        if self.has_upper {
            0..layers
        } else {
            1..layers.saturating_add(1)
        }
    }

    /// The line that shows the first of them.
    pub fn first_layer(self) -> &'static str {
        if self.has_upper {
            "layer 0\n"
        } else {
            "layer 1\n"
        }
    }
}

// A manifest with these keys on top.
fn with_keys(alloc: Global, keys: &[u8], manifest: &[u8]) -> Result<Vec<u8>, AllocError> {
    let mut text = Vec::from_slice(alloc, keys)?;
    text.extend_from_slice(manifest)?;
    Ok(text)
}
