// What a rename holds beforehand.

/// The number of a directory, and how often a rename that is under way holds it: once for each handle that gets a way in it.
#[derive(Clone, Copy)]
pub struct Pin {
    pub number: u64,
    pub count: usize,
}
