// The clients' end of a socket.
use crate::checks::{counts, holds};
use std::env::Env;
use std::io::{Read, Write};
use std::net::Net;
use std::os::unix::net::UnixStream;
use std::process::Abort;
use std::time::Duration;
use std::{env, io};

/// `stat /`, and its reply at place 1.
pub const STAT_ROOT: &[u8] = b"\x00\x00\x00\x04\x01\x00\x01\x2f";

pub const SHOWN_FIRST: &[u8] =
    b"\x00\x00\x00\x22\x00\x00\x00\x00\x00\x00\x00\x00\x01\x01\x00\x00\x01\xed\x00\x00\x00\x00\x00\x00\x00\x00\x00\x00\x00\x00\x00\x00\x00\x00\x00\x00\x00\x01";

pub const DETACH: &[u8] = b"\x00\x00\x00\x01\x1a";

/// The most bytes of a reply.
const REPLY_MOST: usize = 64;

/// Where a test's server listens: of this name, in the folder of files that don't last.
pub fn socket_path(rt: &HostRuntime, name: &str) -> io::Result<String> {
    let folder = env::temp_dir(rt)?;
    let number = std::process::id(rt.process());
    let path = format!(in rt.alloc(); "{}/overlayd-{name}-{number}.socket", folder.display())?;
    Ok(path)
}

/// Gives up on a server that says nothing for so long.
fn patient(rt: &impl Abort, stream: &UnixStream) {
    let limit = Some(Duration::from_secs(20));
    stream.set_read_timeout(limit).expect(rt, "a time limit");
}

/// A client of the server at this path.
pub fn connected<H: Net + Abort>(rt: &H, path: &str) -> UnixStream {
    let stream = UnixStream::connect(rt, path).expect(rt, "a connection");
    patient(rt, &stream);
    stream
}

/// Sends these bytes, and reads as many as the reply has.
pub fn ask(rt: &impl Abort, stream: &UnixStream, request: &[u8], reply: &[u8]) {
    let mut writer = stream;
    writer.write_all(request).expect(rt, "a request is sent");
    hear(rt, stream, reply);
}

/// Reads as many bytes as these are, which are the same.
pub fn hear(rt: &impl Abort, stream: &UnixStream, reply: &[u8]) {
    let mut stream = stream;
    let mut bytes = [0u8; REPLY_MOST];
    let count = reply.len().min(REPLY_MOST);
    stream.read_exact(&mut bytes[..count]).expect(rt, "a reply");
    holds(rt, &bytes[..count] == reply, "another reply");
}

/// The server has closed the stream, and sent nothing more.
pub fn assert_closed(rt: &impl Abort, stream: &UnixStream) {
    let mut stream = stream;
    let mut bytes = [0u8; 1];
    let count = stream.read(&mut bytes).expect(rt, "an end");
    counts(rt, count, 0, "bytes behind the end");
}
