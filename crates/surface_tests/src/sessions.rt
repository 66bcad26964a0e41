// Sessions of the first client of a mount: the worked examples of the wire protocol, cut everywhere, streams that fail, and random
// streams beside a slow reference.
mod cuts;
mod devices;
pub mod dice;
mod failures;
mod faults;
mod frame_reference;
mod generated;
mod interruptions;
mod read_streams;
mod rows;
mod served_streams;
mod shaky;
mod told;

use crate::cores::{DEEDS_MAX, attached, mounted, unmount};
use crate::fixtures::EMPTY;
use doors::owned::{CoreSession, run_session};
use ov_devices::{CountedReader, CountedWriter};
use ov_session::{Ending, SessionOutput};
use overlay_core::Core;
use program_hooks::{ByTag, ProgramRule};
use std::alloc::Global;
use std::hash::RandomState;
use std::io::{Read, Write};
use std::process::Abort;
use watch_table::{Callback, Rule};

/// A session on a new mount of two empty layers ends so; if not, the number is told. Its client is
/// attached no more.
pub fn ends<I: Read, O: Write>(
    rt: &impl Abort,
    alloc: Global,
    keys: RandomState,
    (reader, writer): (&mut I, &mut O),
    wanted: Ending,
    number: usize,
) {
    let (end, session) = served(rt, alloc, keys, reader, writer);
    drop(session);
    assert!(rt; end == wanted, "another end: {number}");
}

/// These bytes were written; if not, the number is told.
pub fn wrote(rt: &impl Abort, taken: &[u8], wanted: &[u8], number: usize) {
    assert!(rt; taken == wanted, "other replies: {number}");
}

/// How such a session ends, and what was asked and answered.
pub fn served<I: Read, O: Write>(
    rt: &impl Abort,
    alloc: Global,
    keys: RandomState,
    reader: &mut I,
    writer: &mut O,
) -> (Ending, CoreSession) {
    served_with::<ByTag, ProgramRule, I, O>(rt, alloc, keys, reader, writer)
}

fn served_with<F: Callback + Copy, H: Rule, I: Read, O: Write>(
    rt: &impl Abort,
    alloc: Global,
    keys: RandomState,
    reader: &mut I,
    writer: &mut O,
) -> (Ending, CoreSession) {
    let mut core: Core<F, H> = mounted(rt, alloc, keys, EMPTY);
    let client = attached(rt, &mut core, Vec::new(alloc));
    let (end, session, core) = serve(rt, alloc, core, client, reader, writer);
    unmount(core);
    (end, session)
}

// How a session of a client ends, and what was asked and answered; the core goes back.
fn serve<F: Callback + Copy, H: Rule, I: Read, O: Write>(
    rt: &impl Abort,
    alloc: Global,
    core: Core<F, H>,
    client: u64,
    reader: &mut I,
    writer: &mut O,
) -> (Ending, CoreSession, Core<F, H>) {
    assert!(rt; core.finished() < DEEDS_MAX);
    assert!(rt; core.is_attached(client));
    let session = CoreSession::new(alloc).expect(rt, "memory");
    let mut input = CountedReader::new(reader);
    let mut output = SessionOutput::new(alloc, CountedWriter::new(writer));
    let (end, session, core) = run_session(alloc, core, client, session, &mut input, &mut output);
    assert!(rt; !core.is_attached(client));
    (end, session, core)
}
