// The socket on which connections are waited for.
use command_line::Serving;
use manifest_files::Failure;
use ov_server::Fault;
use socket_server::Acceptor;
use std::alloc::Global;
use std::fs::Files;
use std::io::{Eprint, ErrorKind};
use std::net::Net;
use std::os::fd::{AsRawFd, IntoRawFd, RawFd};
use std::os::unix::fs::FileTypeExt;
use std::os::unix::net::{UnixListener, UnixStream};
use std::{fmt, fs, io};

/// The descriptor of standard error. Those of standard input and output are before it.
const STANDARD_ERROR: RawFd = 2;

/// Listens on the socket that is served. Where that can't be made, it is told why if it is to be told
/// what is served.
pub fn listen<R: Files + Net + Eprint + AllocGlobal>(
    rt: &R,
    serving: &Serving<'_>,
) -> Result<UnixListener, Failure> {
    match bind(rt, serving) {
        Ok(listener) => Ok(listener),
        Err(fault) => Err(no_socket(rt, serving, &fault)),
    }
}

/// Who turns away the connections for which no worker is free, if that is asked for.
pub fn acceptor_of(
    alloc: Global,
    listener: &UnixListener,
    serving: &Serving<'_>,
) -> Result<Option<Acceptor>, Fault> {
    if !serving.refuse {
        return Ok(None);
    }
    match Acceptor::new(alloc, listener) {
        Ok(acceptor) => Ok(Some(acceptor)),
        Err(fault) if fault.kind() == ErrorKind::OutOfMemory => Err(Fault::Memory),
        Err(_) => Err(Fault::Socket),
    }
}

/// Takes those descriptors that the program was started without, for good: what is told must never
/// get into a file or a connection, which would else be given the number of standard error.
pub fn hold_standard<R: Net + Eprint + AllocGlobal>(
    rt: &R,
    serving: &Serving<'_>,
) -> Result<(), Failure> {
    match hold(rt) {
        Ok(()) => Ok(()),
        Err(fault) => Err(no_socket(rt, serving, &fault)),
    }
}

fn hold<R: Net>(rt: &R) -> io::Result<()> {
    for _ in 0..=STANDARD_ERROR {
        let held = rt.unix_socket()?;
        if held.as_raw_fd() > STANDARD_ERROR {
            return Ok(());
        }
        held.into_raw_fd();
    }
    Ok(())
}

// The failure of a socket that can't be made. It is told why at once if it is to be told what is served.
fn no_socket<R: Eprint + AllocGlobal>(rt: &R, serving: &Serving<'_>, error: &io::Error) -> Failure {
    if error.kind() == ErrorKind::OutOfMemory {
        return Failure::from(Fault::Memory);
    }
    let path = serving.socket;
    let reason = Reason { path, error };
    // A line that can't be written is lost.
    if serving.verbose {
        let _ = eprintln!(rt; "overlayd: {reason}");
    }
    let way_on = match error.kind() {
        ErrorKind::AddrInUse if serving.unlink => "; a server listens there, or it is no socket",
        ErrorKind::AddrInUse => "; --unlink takes the place of a socket on which nobody listens",
        _ => "",
    };
    Failure::because(rt.alloc(), Fault::Socket, format_args!("{reason}{way_on}"))
}

// Makes the socket; what is left of another one is removed first if that is asked for. An empty path
// would be given a name by the system.
fn bind<R: Files + Net>(rt: &R, serving: &Serving<'_>) -> io::Result<UnixListener> {
    let path = serving.socket;
    if path.is_empty() {
        return Err(io::Error::from(ErrorKind::NotFound));
    }
    match UnixListener::bind(rt, path) {
        Err(fault)
            if serving.unlink
                && fault.kind() == ErrorKind::AddrInUse
                && is_left_behind(rt, path)? => {
            fs::remove_file(rt, path)?;
            UnixListener::bind(rt, path)
        }
        outcome => outcome,
    }
}

// Whether a path is a socket on which nobody listens.
fn is_left_behind<R: Files + Net>(rt: &R, path: &str) -> io::Result<bool> {
    if !fs::symlink_metadata(rt, path)?.file_type().is_socket() {
        return Ok(false);
    }
    match UnixStream::connect(rt, path) {
        Err(fault) => Ok(fault.kind() == ErrorKind::ConnectionRefused),
        Ok(_) => Ok(false),
    }
}

// Why there is no socket at a path.
#[derive(Clone, Copy)]
struct Reason<'a> {
    path: &'a str,
    error: &'a io::Error,
}

impl fmt::Display for Reason<'_> {
    fn fmt<W: fmt::Write>(&self, f: &mut fmt::Formatter<W>) -> fmt::Result {
        let (path, error) = (self.path, self.error);
        match error.kind() {
            ErrorKind::AddrInUse => write!(f, "{path}: is there already"),
            ErrorKind::NotFound if path.is_empty() => write!(f, "the path is empty"),
            ErrorKind::NotFound => write!(f, "{path}: no such directory"),
            ErrorKind::InvalidInput => write!(f, "{path}: longer than 107 bytes"),
            _ => write!(f, "{path}: {error}"),
        }
    }
}
