// What stands at a path, as far as watches need it.

/// What stands at a path: a directory, a file or link of a lower layer, a file of the upper by its key, or nothing that is tracked (nothing
/// at all, or a link of the upper). `last` says whether the file has no other name.
#[derive(Clone, Copy)]
pub enum Object {
    Other,
    Directory,
    Lower,
    Upper { key: usize, last: bool },
}
