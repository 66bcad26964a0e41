// The keys by which directories hash their names, where the embedder gives them.
use std::hash::RandomState;
use std::io;
use std::random::RandomSource;

// Bytes in the place of the system's randomness.
#[derive(Drop)]
struct Given<'a> {
    bytes: &'a [u8; 16],
}

impl RandomSource for Given<'_> {
    fn fill_bytes(&self, buf: &mut [u8]) -> io::Result<()> {
        let bytes = self.bytes;
        for (place, byte) in buf.iter_mut().zip(bytes.iter()) {
            *place = *byte;
        }
        Ok(())
    }
}

/// The keys that these bytes are.
pub(crate) fn keys_of(bytes: &[u8; 16]) -> io::Result<RandomState> {
    RandomState::new(&Given { bytes })
}
