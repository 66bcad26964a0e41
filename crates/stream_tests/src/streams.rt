// Streams that fail, in the middle too, or are interrupted.
use ov_devices::{CountedReader, CountedWriter};
use ov_server::{Fault, Output, hooks_by_slot, play_run, show_run};
use ov_wire::table_of;
use std::alloc::Global;
use std::hash::RandomState;
use std::io;
use std::io::{Read, Write};
use std::process::Abort;
use std::random::RandomSource;

// An empty upper over an empty lower layer.
const EMPTY: &str = "layer = [{}, {}]";

const SCRIPT: &str = "attach\n0 stat /\n0 detach";

const ANSWERS: &str = "client 0\n0 ok d 0755 0 0 0 1\n0 detached\n";

// Ends the test, and tells this, unless a check came out so.
fn holds(rt: &impl Abort, check: bool, told: &str) {
    assert!(rt; check, "{told}");
}

// Keys for the tables of a test.
fn keys_of<H: RandomSource + Abort>(rt: &H) -> RandomState {
    RandomState::new(rt).expect(rt, "keys")
}

/// How a run ended: with which status, and whether by a device that failed.
#[derive(Clone, Copy)]
struct End {
    status: u8,
    is_of_stream: bool,
}

fn end_of(outcome: Result<(), Fault>) -> End {
    let end = End {
        status: match &outcome {
            Ok(()) => 0,
            Err(fault) => fault.status(),
        },
        is_of_stream: matches!(&outcome, Err(Fault::Stream)),
    };
    drop(outcome);
    end
}

fn play<R: Read, W: Write>(
    rt: &impl Abort,
    alloc: Global,
    keys: RandomState,
    script: &mut R,
    writer: &mut W,
) -> End {
    let hooks = hooks_by_slot(alloc).expect(rt, "memory");
    let Ok(table) = table_of(alloc, EMPTY.as_bytes()) else {
        panic!(rt; "no manifest");
    };
    let mut input = CountedReader::new(script);
    let mut output = Output::new(alloc, CountedWriter::new(writer));
    let played = play_run(
        alloc,
        keys,
        table,
        Vec::new(alloc),
        hooks.as_slice(),
        &mut input,
        &mut output,
    );
    end_of(played)
}

fn show<W: Write>(rt: &impl Abort, alloc: Global, keys: RandomState, writer: &mut W) -> End {
    let Ok(table) = table_of(alloc, EMPTY.as_bytes()) else {
        panic!(rt; "no manifest");
    };
    let mut output = Output::new(alloc, CountedWriter::new(writer));
    let shown = show_run(alloc, keys, table, Vec::new(alloc), &mut output);
    end_of(shown)
}

// Gives or takes at most five bytes at a time, and after its bytes fails as it's told. It's interrupted before each time.
#[derive(Drop)]
struct Broken<'a> {
    left: &'a [u8],
    taken: Vec<u8>,
    takes: usize,
    end: Option<io::ErrorKind>,
    interrupts: bool,
}

impl Broken<'_> {
    fn is_interrupted(&mut self) -> bool {
        self.interrupts = !self.interrupts;
        self.interrupts
    }
}

impl Read for Broken<'_> {
    fn read(&mut self, buf: &mut [u8]) -> io::Result<usize> {
        if self.is_interrupted() {
            return Err(io::Error::from(io::ErrorKind::Interrupted));
        }
        match self.end {
            Some(kind) if self.left.is_empty() => Err(io::Error::from(kind)),
            _ => {
                let most = buf.len().min(5);
                self.left.read(&mut buf[..most])
            }
        }
    }
}

impl Write for Broken<'_> {
    fn write(&mut self, buf: &[u8]) -> io::Result<usize> {
        if self.is_interrupted() {
            return Err(io::Error::from(io::ErrorKind::Interrupted));
        }
        if self.taken.len() >= self.takes {
            return Err(io::Error::from(io::ErrorKind::BrokenPipe));
        }
        let most = buf.len().min(5);
        self.taken.extend_from_slice(&buf[..most])?;
        Ok(most)
    }

    fn flush(&mut self) -> io::Result<()> {
        Ok(())
    }
}

fn stream<'a>(
    alloc: Global,
    bytes: &'a [u8],
    end: Option<io::ErrorKind>,
    takes: usize,
) -> Broken<'a> {
    Broken {
        left: bytes,
        taken: Vec::new(alloc),
        takes,
        end,
        interrupts: false,
    }
}

// The last line has no line break.
#[test]
fn goes_on_where_it_is_interrupted(rt: HostRuntime) {
    let alloc = rt.alloc();
    let mut reader = stream(alloc, SCRIPT.as_bytes(), None, 0);
    let mut writer = stream(alloc, b"", None, 1000);
    let keys = keys_of(&rt);
    let end = play(&rt, alloc, keys, &mut reader, &mut writer);
    holds(&rt, end.status == 0, "a whole run");
    holds(
        &rt,
        writer.taken.as_slice() == ANSWERS.as_bytes(),
        "all answers",
    );
}

fn assert_reader(
    rt: &impl Abort,
    alloc: Global,
    keys: RandomState,
    end: io::ErrorKind,
    status: u8,
) {
    let mut output = Vec::new(alloc);
    let mut reader = stream(alloc, b"attach\n0 stat /", Some(end), 0);
    let end = play(rt, alloc, keys, &mut reader, &mut output);
    holds(rt, end.status == status, "the status");
    holds(
        rt,
        output.as_slice() == b"client 0\n".as_slice(),
        "one answer",
    );
}

// The begun line isn't played, and running out of memory is no failing device.
#[test]
fn tells_failing_readers(rt: HostRuntime) {
    let keys = keys_of(&rt);
    assert_reader(&rt, rt.alloc(), keys, io::ErrorKind::Other, 1);
    assert_reader(&rt, rt.alloc(), keys, io::ErrorKind::OutOfMemory, 3);
}

#[test]
fn tells_failing_writers(rt: HostRuntime) {
    let alloc = rt.alloc();
    let keys = keys_of(&rt);
    for takes in [0, 5, 15] {
        let mut reader = SCRIPT.as_bytes();
        let mut writer = stream(alloc, b"", None, takes);
        let played = play(&rt, alloc, keys, &mut reader, &mut writer);
        holds(&rt, played.is_of_stream, "a play that ends by its writer");
        let mut writer = stream(alloc, b"", None, takes);
        let shown = show(&rt, alloc, keys, &mut writer);
        holds(&rt, shown.is_of_stream, "a show that ends by its writer");
    }
}
