// How much a step copies, and how many steps a call makes.
ghost use Rattle.std.specs.Prelude.{◌≡◌};
ghost use Rattle.work_dir.specs.Chunks as spec;

/// The bytes that one step copies, of a file of at most so many chunks of them.
pub const CHUNK: usize = 4096;

/// The most steps that copy one file.
pub const CHUNKS_MAX: usize = 256;

/// The most bytes of a file that is copied in steps of `CHUNK`.
pub const SMALL_MAX: usize = CHUNK * CHUNKS_MAX;

/// The most steps of a call that place a parent.
pub const PLACINGS_MAX: usize = 256;

/// The most steps of a call that begin a copy.
pub const BEGINS_MAX: usize = 256;

/// The most steps of a call: placings, begins each with its chunks, and the one that finishes it.
pub const STEPS_MAX: usize = PLACINGS_MAX + BEGINS_MAX * (1 + CHUNKS_MAX) + 1;

/// The bytes that one step copies of a file of so many: 4,096, or the 256th part of a file of more
/// than 1 MiB.
pub fn chunk_of(size: usize) -> usize
    ensures { result ≡ spec.chunk_of size }
{
    if size <= SMALL_MAX {
        CHUNK
    } else {
        (size - 1) / CHUNKS_MAX + 1
    }
}
