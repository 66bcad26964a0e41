//! Measures whole calls, in nanoseconds an operation.
#![tactic(auto)]

mod deeds;
mod echo;
mod loads;
mod manifests;
mod mounts;
mod operations;
mod texts;
mod trees;
mod watchers;

use crate::echo::echo_on;
use crate::loads::{Load, measure};
use crate::mounts::echoing_hook;
use std::alloc::Global;
use std::fs::Files;
use std::hash::RandomState;
use std::net::Net;
use std::rt::{Clock, Env};
use std::sync::Wait;
use std::thread::Threads;
use std::{env, io};

const USAGE: &str = "usage: overlay_bench LOAD COUNT [LOWERS]
calls of a client over LOWERS lower layers, 16 if not given: stat stat_read (its path is read) stat_many absent absent_new list list_10k symlink mkdir whiteout rename setattr
several calls an operation, over as many: open_read (open, read, close) create (open, close, unlink) copy_64k copy_1m copy_64m copy_64m_hole (open, close) copy_64k_again copy_1m_again (open, close, unlink) touch_1m (open, write of 4,096 bytes, close) touch_1m_again (and unlink) read_64k write_64k write_4k (seek, read or write) link (link, unlink)
each of these with _steps behind its word: every call is made step by step, not at once
a mode changed of a lower file, for which no bytes are copied or all are: chmod_empty chmod_1m chmod_1m_copied; what is done with a file whose mode was changed so: stat_marked open_read_marked, stat_copied open_read_copied
notify_1 notify_64: COUNT files made and removed in a directory that so many clients watch; an operation is a notice that was read
usage: overlay_bench echo WORKERS SOCKET, a bare echo that serve is compared with";

/// The most lower layers of a mount, and as many as a call has where the command line says nothing of them.
const LOWERS: u32 = 16;

// What the command line asks for.
fn asked<R: Env + AllocGlobal>(rt: &R) -> io::Result<Option<(Load, u32, u32)>> {
    let mut words = env::args(rt)?;
    let _program = words.next();
    let Some(load) = words.next() else {
        return Ok(None);
    };
    let Some(count) = words.next() else {
        return Ok(None);
    };
    let lowers = match words.next() {
        Some(lowers) => lowers.as_str().parse::<u32>().unwrap_or(0),
        None => LOWERS,
    };
    if lowers == 0 || lowers > LOWERS {
        return Ok(None);
    }
    match count.as_str().parse::<u32>() {
        Ok(count) if count > 0 => Ok(Load::named(load.as_str()).map(|load| (load, lowers, count))),
        _ => Ok(None),
    }
}

// The workers and the socket of a bare echo, where the command line asks for one.
fn asked_echo<R: Env + AllocGlobal>(rt: &R) -> io::Result<Option<(u32, String)>> {
    let mut words = env::args(rt)?;
    let _program = words.next();
    let Some(load) = words.next() else {
        return Ok(None);
    };
    let Some(workers) = words.next() else {
        return Ok(None);
    };
    let Some(socket) = words.next() else {
        return Ok(None);
    };
    if load.as_str() != "echo" {
        return Ok(None);
    }
    let workers = workers.as_str().parse::<u32>().unwrap_or(0);
    Ok(Some((workers, socket)))
}

fn run<R>(rt: &R, keys: RandomState) -> io::Result<()>
where
    R: Env + AllocGlobal + Clock + Print + Files + Net + Threads + Wait + Sync,
{
    if let Some((workers, socket)) = asked_echo(rt)? {
        return echo_on(rt, rt.alloc(), socket.as_str(), workers);
    }
    let Some((load, lowers, count)) = asked(rt)? else {
        return println!(rt; "{USAGE}");
    };
    let alloc: Global = rt.alloc();
    let hook = echoing_hook();
    let (nanos, operations) = measure(rt, alloc, keys, &hook, load, lowers, count)?;
    let each = nanos / u64::from(operations.max(1));
    println!(rt; "{each} ns an operation, {operations} operations")
}

fn main(rt: HostRuntime) -> io::Result<()> {
    run(&rt, RandomState::new(&rt)?)
}
