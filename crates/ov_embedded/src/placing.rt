// Where the object lies that a path shows.
ghost use Rattle.ov_embedded.specs.Placing.{IsPlaced};

use crate::mounted::Mounted;
use crate::outcome::Outcome;
use ov_base::{Path, Place};
use std::alloc::Global;

impl Mounted {
    #[tactic(auto, using(crate::proofs::Places::placed, crate::proofs::Places::refused_by_walk, crate::proofs::Places::refused_by_text))]
    /// The layer and the key of what the path of a text shows.
    pub(crate) fn place(&self, alloc: Global, text: &[u8]) -> Result<Place, Outcome>
        ensures { IsPlaced text.now self.now result }
    {
        let Ok(parsed) = Path::parse(alloc, text) else {
            return Err(Outcome::NoMemory);
        };
        let path = match parsed {
            Ok(path) => path,
            Err(errno) => return Err(Outcome::Refused(errno)),
        };
        match self.core.layers().walk_topmost(&path) {
            Ok(shown) => Ok(shown.place()),
            Err(errno) => Err(Outcome::Refused(errno)),
        }
    }
}
