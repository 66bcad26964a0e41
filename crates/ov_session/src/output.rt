// What a session writes.
ghost use Rattle.std.specs.Prelude.{◌≡◌, ◌<◌, ◌≤◌, [], drop, length, IfErr, OnOk};
ghost use Rattle.ov_frames.specs.Lending.{answer_of};
ghost use Rattle.ov_session.specs.Devices.{Gains, IsOutputEnd, IsPut, OutputAfter};

use crate::ending::Ending;
use ov_devices::{Fault, Sink};
use ov_frames::{LentAnswer, append_reply};
use std::alloc::Global;

/// How many bytes of answers are held at most before they are handed on.
const HELD_MOST: usize = 65_536;

/// A sink, and the bytes that it is still to get.
#[derive(Drop)]
pub struct SessionOutput<K> {
    sink: K,
    pub(crate) held: Vec<u8>,
}

impl<K> SessionOutput<K> {
    /// A sink with nothing to get.
    pub fn new(alloc: Global, sink: K) -> SessionOutput<K>
        ensures sink { result.sink ≡ sink }
        ensures held { result.held.items ≡ [] }
    {
        SessionOutput {
            sink,
            held: Vec::new(alloc),
        }
    }
}

impl<K: Sink> SessionOutput<K> {
    /// Puts the frame of an answer behind what is held, and hands it on where that is much.
    pub(crate) fn put(&mut self, answer: LentAnswer<'_>) -> Result<(), Ending>
        ensures put { IsPut (K.contents self.old.sink) (K.contents self.new.sink)
            self.old.held.items self.new.held.items (answer_of answer.entry) result }
        ensures failures { OutputAfter (K.failures self.old.sink) (K.failures self.new.sink) result }
    {
        if let Err(_) = append_reply(answer, &mut self.held) {
            return Err(Ending::Memory);
        }
        if self.held.len() < HELD_MOST {
            Ok(())
        } else {
            self.hand_on()
        }
    }

    /// Hands on what is held, and has the sink do so.
    pub(crate) fn flush(&mut self) -> Result<(), Ending>
        ensures bytes { Gains (K.contents self.old.sink) (K.contents self.new.sink)
            self.old.held.items self.new.held.items [] }
        ensures held { OnOk result (self.new.held.items ≡ []) }
        ensures end { IfErr result IsOutputEnd }
        ensures failures { OutputAfter (K.failures self.old.sink) (K.failures self.new.sink) result }
    {
        self.hand_on()?;
        match self.sink.flush() {
            Ok(()) => Ok(()),
            Err(Fault::Memory) => Err(Ending::Memory),
            Err(Fault::Failed) => Err(Ending::Write),
        }
    }

    fn hand_on(&mut self) -> Result<(), Ending>
        ensures bytes { Gains (K.contents self.old.sink) (K.contents self.new.sink)
            self.old.held.items self.new.held.items [] }
        ensures held { OnOk result (self.new.held.items ≡ []) }
        ensures end { IfErr result IsOutputEnd }
        ensures failures { OutputAfter (K.failures self.old.sink) (K.failures self.new.sink) result }
    {
        'parts: while !self.held.is_empty() {
            match self.sink.write(self.held.as_slice()) {
                Ok(count) => drop_front(&mut self.held, count),
                Err(Fault::Memory) => return Err(Ending::Memory),
                Err(Fault::Failed) => return Err(Ending::Write),
            }
        }
        Ok(())
    }
}

fn drop_front(bytes: &mut Vec<u8>, count: usize)
    requires { count ≤ length bytes.old.items }
    ensures { bytes.new.items ≡ drop count bytes.old.items }
{
    if count == bytes.len() {
        bytes.clear();
    } else {
        bytes.drain(..count);
    }
}
