// A blob: bytes of a file beside the manifest, parts of which are files of the layers.
ghost use Rattle.std.specs.Prelude.{◌≡◌, ◌+◌, ◌≤◌, IfOk, drop, length, take};

use ov_base::FileBytes;
use std::alloc::{AllocError, Global};
use std::marker::Model;
use std::sync::Arc;

/// The most bytes of a part that is copied; one of more shares them with the blob.
const COPIED_MAX: usize = 4_096;

/// The bytes of a blob of a manifest. The files that are parts of it share them.
#[derive(Drop)]
pub struct Blob {
    bytes: Arc<Vec<u8>, Global>,
}

impl Model for Blob {
    ghost use Rattle.std.specs.Prelude.{List, ℕ};
    ghost use Rattle.std.specs.Arc.{arc_value};

    ghost Value = { List ℕ };

    ghost view = { λ b. (arc_value b.bytes).items };
}

impl Blob {
    /// These bytes, with no copy.
    pub fn from_vec(alloc: Global, bytes: Vec<u8>) -> Result<Blob, AllocError>
        ensures { IfOk result (λ b. b ≡ bytes.items) }
    {
        let bytes = Arc::new(alloc, bytes)?;
        Ok(Blob { bytes })
    }

    /// How many there are.
    pub fn len(&self) -> usize
        ensures { result ≡ length self.now }
    {
        self.bytes.len()
    }

    /// All of them.
    pub fn as_slice(&self) -> &[u8]
        ensures { result.now ≡ self.now }
    {
        self.bytes.as_slice()
    }

    /// So many of its bytes from a place on, for a file.
    pub fn part(&self, alloc: Global, at: usize, count: usize) -> Result<FileBytes, AllocError>
        requires { at + count ≤ length self.now }
        ensures { IfOk result (λ f. f ≡ take count (drop at self.now)) }
    {
        if count > COPIED_MAX {
            let shared = Arc::try_clone(&self.bytes)?;
            return Ok(FileBytes::from_blob(alloc, shared, at, count));
        }
        let all = self.as_slice();
        let own = Vec::from_slice(alloc, &all[at..at + count])?;
        FileBytes::from_vec(alloc, own)
    }
}
