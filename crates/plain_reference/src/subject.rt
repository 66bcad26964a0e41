// Whom a change tells.
use crate::id::Id;
use ov_base::Name;

/// Whom a subject is for: the watches on a node, or a client's watch of a number alone.
#[derive(Clone, Copy)]
pub enum Aim<'a> {
    On(&'a Id),
    Only(u32, i32),
}

/// What a call tells: whom, which bits, the cookie of a rename, and the name in the directory that is told.
#[derive(Clone, Copy)]
pub struct Subject<'a> {
    pub aim: Aim<'a>,
    pub bits: u32,
    pub cookie: u32,
    pub name: Option<&'a Name>,
}
