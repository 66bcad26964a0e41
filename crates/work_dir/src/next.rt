// What a call still lacks in the upper, and the step that comes next.
ghost use Rattle.std.specs.Prelude.{◌≡◌, None, option_copied};
ghost use Rattle.work_dir.specs.NextSteps.{next_of, next_of_file, IsDue};

use crate::limits::{BEGINS_MAX, PLACINGS_MAX};
use crate::temp::Temp;
use ov_base::Place;

/// What a call still lacks in the upper.
#[derive(Clone, Copy, Debug, PartialEq, Eq)]
pub enum Lack {
    Nothing,
    /// The directory that the first `count` names of its path lead to, or of its second path.
    Parent { second: bool, count: usize },
    /// A lower file's bytes.
    File(Place),
}

/// The next step of a call.
#[derive(Clone, Copy, Debug, PartialEq, Eq)]
pub enum Next {
    /// Makes the call, with a temp that is whole where it lacks a file.
    Finish,
    /// Places the directory that the first `count` names of its path lead to, or of its second
    /// path.
    Place { second: bool, count: usize },
    /// Begins a temp of a lower file.
    Begin(Place),
    /// Copies a chunk.
    Copy,
    /// Makes the call with all that it lacks, since it made as many steps as it may.
    AtOnce,
}

/// The next step of a call that isn't refused and lacks this, after so many placings and begins,
/// with its temp. A file that it lacks has so many bytes.
pub fn next_after(
    lack: Lack,
    placings: usize,
    begins: usize,
    temp: Option<&Temp>,
    size: usize,
) -> Next
    ensures step { result ≡ next_of None lack placings begins (option_copied temp.entry) size }
    ensures due { IsDue result None lack placings begins (option_copied temp.entry) size }
{
    match lack {
        Lack::Nothing => Next::Finish,
        Lack::Parent { second, count } if placings < PLACINGS_MAX => Next::Place { second, count },
        Lack::Parent { .. } => Next::AtOnce,
        Lack::File(source) => next_of_file(source, begins, temp, size),
    }
}

// The next step of a call that lacks a file of so many bytes.
fn next_of_file(source: Place, begins: usize, temp: Option<&Temp>, size: usize) -> Next
    ensures { result ≡ next_of_file source begins (option_copied temp.entry) size }
{
    match temp {
        Some(temp) if temp.source() == source && temp.is_whole(size) => Next::Finish,
        Some(temp) if temp.source() == source => Next::Copy,
        _ if begins < BEGINS_MAX => Next::Begin(source),
        _ => Next::AtOnce,
    }
}
