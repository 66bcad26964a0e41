// A bare echo on a socket, built as a server is: worker threads, each of which answers one
// connection at a time, and one lock that is taken for each request.
use std::alloc::Global;
use std::fs::Files;
use std::io::{Read, Write};
use std::net::Net;
use std::os::unix::net::UnixListener;
use std::sync::{Mutex, Wait};
use std::thread::Threads;
use std::{io, thread};

/// How many bytes the request of a `stat` has whose path has 52.
const REQUEST: usize = 59;

/// How many bytes its reply has, whose first four count the others.
const REPLY: [u8; 38] = [
    0, 0, 0, 34, 0, 0, 0, 0, 0, 0, 0, 0, 0, 2, 0, 0, 1, 0o244, 0, 0, 0, 0, 0, 0, 0, 0, 0, 0, 0, 0,
    0, 0, 16, 0, 0, 0, 0, 1,
];

/// How many bytes are read at a time.
const PIECE: usize = 65_536;

/// Answers whoever connects, with so many workers, until all have failed.
pub fn echo_on<H: Files + Net + Threads + Wait + Sync>(
    rt: &H,
    alloc: Global,
    socket: &str,
    workers: u32,
) -> io::Result<()> {
    let listener = UnixListener::bind(rt, socket)?;
    let turns = Mutex::new(0u64);
    let _ = thread::map_indices(
        rt,
        alloc,
        workers as usize,
        &|_| { work(rt, alloc, &listener, &turns) },
    )?;
    Ok(())
}

// Answers one connection after the other; how many there were.
fn work<H: Wait>(rt: &H, alloc: Global, listener: &UnixListener, turns: &Mutex<u64>) -> u64 {
    let mut served = 0u64;
    for _ in rt.forever() {
        let Ok((stream, _)) = listener.accept() else {
            break;
        };
        let _ = answer_all(rt, alloc, &stream, &stream, turns);
        served = served.saturating_add(1);
    }
    served
}

// Answers the requests of a connection until it ends: so many replies for so many bytes.
fn answer_all<H: Wait, I: Read + Drop, O: Write + Drop>(
    rt: &H,
    alloc: Global,
    reader: I,
    writer: O,
    turns: &Mutex<u64>,
) -> io::Result<()> {
    let mut reader = reader;
    let mut writer = writer;
    let mut room = Vec::new(alloc);
    room.resize(PIECE, 0u8)?;
    let mut held = Vec::new(alloc);
    let mut begun = 0usize;
    for _ in 0..u64::MAX {
        let count = reader.read(room.as_mut_slice())?;
        if count == 0 {
            break;
        }
        begun = begun.saturating_add(count);
        for _ in 0..begun / REQUEST {
            take_turn(rt, turns);
            held.extend_from_slice(&REPLY)?;
        }
        begun %= REQUEST;
        writer.write_all(held.as_slice())?;
        held.clear();
    }
    Ok(())
}

// What is done under the lock.
fn take_turn<H: Wait>(rt: &H, turns: &Mutex<u64>) {
    let mut number = turns.lock(rt);
    *number = number.wrapping_add(1);
}
