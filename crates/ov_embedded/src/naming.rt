// The names of the files whose bytes are a manifest's blobs.
ghost use Rattle.std.specs.Prelude.{◌≡◌, IfErr, IfOk, map};
ghost use Rattle.ov_embedded.specs.Naming.{AreNames, IsNameless, TellsNames, names_text};

use crate::copying::copy_into;
use crate::manifest::Unmountable;
use crate::outcome::Outcome;
use crate::through::told;
use ov_wire::{blobs_of, table_of};
use std::alloc::{AllocError, Global};

#[tactic(auto, using(crate::proofs::Names::names_more, crate::proofs::Names::names_all))]
// Names one behind the other, each with a zero byte behind it.
fn joined(alloc: Global, names: &[&str]) -> Result<Vec<u8>, AllocError>
    ensures { IfOk result (λ text. text.items ≡ names_text (map (λ name. name.now) names.now)) }
{
    let mut text = Vec::new(alloc);
    for name in names {
        text.extend_from_slice(name.as_bytes())?;
        text.push(0)?;
    }
    Ok(text)
}

#[tactic(auto, using(crate::proofs::Names::are_names))]
// The names of the blobs of a manifest, and how many they are.
fn names_in(alloc: Global, manifest: &[u8]) -> Result<(Vec<u8>, usize), Unmountable>
    ensures names { IfOk result (λ names. AreNames manifest.now names.0.items names.1) }
    ensures none { IfErr result (IsNameless manifest.now) }
{
    let table = table_of(alloc, manifest)?;
    let names = blobs_of(alloc, &table)?;
    let text = joined(alloc, names.as_slice())?;
    Ok((text, names.len()))
}

#[tactic(auto, using(crate::proofs::Names::tells_none))]
/// Tells the names of a manifest's blobs, one behind the other and each with a zero byte behind it,
/// and how many they are; or why there are none. The text goes into some room, as far as that goes,
/// and its length is told.
pub fn blob_names(alloc: Global, manifest: &[u8], room: &mut [u8]) -> (Outcome, usize, usize)
    ensures { TellsNames manifest.now room.old room.new result.0 result.1 result.2 }
{
    match names_in(alloc, manifest) {
        Ok((text, count)) => (Outcome::Done, copy_into(text.as_slice(), room), count),
        Err(why) => {
            let (outcome, length) = told(alloc, &why, room);
            (outcome, length, 0)
        }
    }
}
