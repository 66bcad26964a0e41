// The input of a script and the output of answers.
ghost use Rattle.std.specs.Prelude.{◌≡◌, ◌+◌, ◌<◌, false, [], length, IfErr, IfOk, OnOk, string_bytes};
ghost use Rattle.std.specs.Io.KnownBytes.{Appends};
ghost use Rattle.ov_devices.specs.Devices.{Gives};
ghost use Rattle.ov_server.specs.Devices.{IsInputFault, Marks};

use crate::fault::DeviceFault;
use ov_devices::{Fault, Sink, Source, write_all};
use std::alloc::{AllocError, Global};
use std::{fmt, mem};

/// How many bytes of text are held at most before they are handed on.
const HELD_MOST: usize = 65_536;

/// How many bytes one read gives, 0 at the end; none where it was interrupted.
pub(crate) fn read_some<S: Source>(
    input: &mut S,
    piece: &mut [u8],
) -> Result<Option<usize>, DeviceFault>
    requires { 0 < length piece.old }
    ensures ok { IfOk result (λ read. Gives (S.remaining input.old) (S.remaining input.new) read piece.new) }
    ensures reads { OnOk result (S.reads input.new ≡ S.reads input.old + 1) }
    ensures most { S.most input.new ≡ S.most input.old }
    ensures well { OnOk result (S.failures input.new ≡ S.failures input.old) }
    ensures err { IfErr result (IsInputFault (S.failures input.new) (S.reads input.new) (S.most input.new)) }
{
    if input.reads_left() == 0 {
        return Err(DeviceFault::Stream);
    }
    match input.read(piece) {
        Ok(read) => Ok(read),
        Err(Fault::Memory) => Err(DeviceFault::Memory),
        Err(Fault::Failed) => Err(DeviceFault::Stream),
    }
}

/// A sink, and the text that it is still to get.
#[derive(Drop)]
pub struct Output<K> {
    sink: K,
    pub(crate) text: String,
    echoes: bool,
    pub(crate) refused: Vec<u8>,
}

impl<K> Output<K> {
    /// A sink that is to get nothing yet.
    pub fn new(alloc: Global, sink: K) -> Output<K>
        ensures sink { result.sink ≡ sink }
        ensures text { string_bytes result.text ≡ [] }
        ensures echoes { result.echoes ≡ false }
        ensures refused { result.refused.items ≡ [] }
    {
        Output {
            sink,
            text: String::new(alloc),
            echoes: false,
            refused: Vec::new(alloc),
        }
    }

    /// The same, which has each command before what it answers where that is asked for.
    pub fn echoing(self, echoes: bool) -> Output<K>
        ensures echoes { result.echoes ≡ echoes }
        ensures sink { result.sink ≡ self.sink }
        ensures text { result.text ≡ self.text }
        ensures refused { result.refused ≡ self.refused }
    {
        let Output {
            sink,
            text,
            echoes: _,
            refused,
        } = self;
        Output {
            sink,
            text,
            echoes,
            refused,
        }
    }

    /// The line at which a play ended, as it was no command; empty where there was none.
    pub fn refused(&self) -> &[u8]
        ensures { result.now ≡ self.now.refused.items }
    {
        self.refused.as_slice()
    }

    /// Adds a command, if that is asked for.
    pub(crate) fn echo(&mut self, command: &[u8]) -> Result<(), AllocError>
        ensures silent { self.old.echoes ≡ false → self.new ≡ self.old }
        ensures sink { self.new.sink ≡ self.old.sink }
        ensures refused { self.new.refused ≡ self.old.refused }
    {
        if !self.echoes {
            return Ok(());
        }
        let command = Shown(command);
        writeln!(self.text, "> {command}")
    }

    /// Keeps a line that is no command, in whose place it leaves what was kept before.
    pub(crate) fn keep(&mut self, line: &mut Vec<u8>)
        ensures kept { self.new.refused ≡ line.old }
        ensures sink { self.new.sink ≡ self.old.sink }
        ensures text { self.new.text ≡ self.old.text }
    {
        mem::swap(&mut self.refused, line);
    }
}

// A line as it was written, but for bytes that a terminal might not print.
#[derive(Clone, Copy)]
struct Shown<'a>(&'a [u8]);

impl fmt::Display for Shown<'_> {
    fn fmt<W: fmt::Write>(&self, f: &mut fmt::Formatter<W>) -> fmt::Result {
        for byte in self.0 {
            let byte = *byte;
            if byte >= b' ' && byte < 0x7f {
                let plain = byte as char;
                write!(f, "{plain}")?;
            } else {
                write!(f, "\\x{byte:02x}")?;
            }
        }
        Ok(())
    }
}

impl<K: Sink> Output<K> {
    /// Hands the text on where there is much of it.
    pub fn relieve(&mut self) -> Result<(), DeviceFault>
        ensures mark { Marks (K.failures self.old.sink) (K.failures self.new.sink) result }
        ensures little { OnOk result (length (string_bytes self.new.text) < 65536) }
    {
        if self.text.len() < HELD_MOST {
            Ok(())
        } else {
            self.hand_on()
        }
    }

    /// Hands the text on, and has the sink do so.
    pub fn flush(&mut self) -> Result<(), DeviceFault>
        ensures mark { Marks (K.failures self.old.sink) (K.failures self.new.sink) result }
        ensures text { OnOk result (string_bytes self.new.text ≡ []) }
    {
        self.hand_on()?;
        match self.sink.flush() {
            Ok(()) => Ok(()),
            Err(Fault::Memory) => Err(DeviceFault::Memory),
            Err(Fault::Failed) => Err(DeviceFault::Stream),
        }
    }

    fn hand_on(&mut self) -> Result<(), DeviceFault>
        ensures mark { Marks (K.failures self.old.sink) (K.failures self.new.sink) result }
        ensures written { OnOk result (Appends (K.contents self.old.sink) (K.contents self.new.sink) (string_bytes self.old.text)) }
        ensures text { string_bytes self.new.text ≡ [] }
    {
        let outcome = write_all(&mut self.sink, self.text.as_bytes());
        self.text.clear();
        match outcome {
            Ok(()) => Ok(()),
            Err(Fault::Memory) => Err(DeviceFault::Memory),
            Err(Fault::Failed) => Err(DeviceFault::Stream),
        }
    }
}
