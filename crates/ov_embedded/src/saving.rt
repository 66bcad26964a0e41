// The upper as a manifest of one layer, and a layer as the program prints it.
ghost use Rattle.ov_embedded.specs.Saving.{IsPieceOf, ListsLayer, Saves};

use crate::copying::copy_into;
use crate::mounted::Mounted;
use crate::outcome::Outcome;
use ov_devices::CountedWriter;
use ov_server::{Output, has_layer, save_upper, write_layer};
use std::alloc::Global;

/// What is told of an upper that was saved: how long its text is, and how many objects no manifest
/// can say, which are left out.
#[derive(Clone, Copy, Debug, PartialEq, Eq)]
pub struct Saved {
    pub length: usize,
    pub left_out: u64,
}

impl Mounted {
    /// Keeps the text of the upper, which the program's own code makes.
    pub(crate) fn save(&mut self, alloc: Global) -> Result<Saved, Outcome>
        ensures { Saves self.old self.new result }
    {
        if !self.core.has_upper() {
            return Err(Outcome::NoUpper);
        }
        let mut text = Vec::new(alloc);
        let mut output = Output::new(alloc, CountedWriter::new(&mut text));
        let saved = save_upper(alloc, self.core.layers(), &mut output);
        drop(output);
        let Ok(left_out) = saved else {
            return Err(Outcome::NoMemory);
        };
        let length = text.len();
        self.saved = text;
        Ok(Saved {
            length,
            left_out: left_out.objects,
        })
    }

    /// Keeps the lines of the layer of a number, as the program's own code makes them, in the place
    /// of the text that was saved last, and gives how long they are.
    pub(crate) fn list_layer(&mut self, alloc: Global, index: u32) -> Result<usize, Outcome>
        ensures { ListsLayer index self.old self.new result }
    {
        if !has_layer(&self.core, index) {
            return Err(Outcome::NoLayer);
        }
        let mut text = Vec::new(alloc);
        let mut output = Output::new(alloc, CountedWriter::new(&mut text));
        let written = write_layer(alloc, self.core.layers(), index as usize, &mut output);
        let flushed = output.flush();
        drop(output);
        let Ok(()) = written else {
            return Err(Outcome::NoMemory);
        };
        let Ok(()) = flushed else {
            return Err(Outcome::NoMemory);
        };
        let length = text.len();
        self.saved = text;
        Ok(length)
    }

    #[tactic(auto, using(crate::proofs::Copies::no_piece))]
    /// Copies a piece of the text that was saved last into some room, and tells how many bytes are
    /// there.
    pub(crate) fn piece(&self, at: usize, room: &mut [u8]) -> usize
        ensures { IsPieceOf self.now.saved.items at room.old room.new result }
    {
        if at >= self.saved.len() {
            return 0;
        }
        let most = room.len();
        let left = copy_into(&self.saved.as_slice()[at..], room);
        left.min(most)
    }
}
