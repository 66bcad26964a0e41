// What clients did, as a history has it.
ghost use Rattle.std.specs.Prelude.{◌≡◌, IfOk, map};

use ov_base::{Call, Reply};
use std::alloc::{AllocError, Global};
use watch_table::{Callback, Hook, Rule};

/// What a client did: it attached hooks of these tags, made a call and had this reply, or detached.
#[derive(Drop)]
pub enum Deed {
    Attached(Vec<u32>),
    Called(Call, Reply),
    Detached,
}

/// One place of the history. A client's entries are numbered from 1.
#[derive(Drop)]
pub struct Entry {
    pub client: u64,
    pub number: u64,
    pub deed: Deed,
}

/// The tags of hooks, as the entry of an attach has them.
pub fn tags_of<F: Callback, R: Rule>(
    alloc: Global,
    hooks: &[Hook<F, R>],
) -> Result<Vec<u32>, AllocError>
    ensures { IfOk result (λ tags. tags.items ≡ map (λ h. h.tag) hooks.now) }
{
    let mut tags = Vec::with_capacity(alloc, hooks.len())?;
    for hook in hooks {
        tags.push(hook.tag())?;
    }
    Ok(tags)
}
