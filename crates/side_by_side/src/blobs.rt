// The blobs of every manifest that is played here, for the engine.
use ov_wire::Blob;
use script_reference::{BLOBS, List};
use std::alloc::{AllocError, Global};

/// The blobs, whatever names a manifest gives them.
pub fn all_blobs(alloc: Global) -> Result<Vec<Blob>, AllocError> {
    let mut blobs = List::new(alloc);
    for bytes in BLOBS {
        blobs.put(blob_of(alloc, bytes));
    }
    blobs.end()
}

// A blob of these bytes.
fn blob_of(alloc: Global, bytes: &[u8]) -> Result<Blob, AllocError> {
    Blob::from_vec(alloc, Vec::from_slice(alloc, bytes)?)
}
