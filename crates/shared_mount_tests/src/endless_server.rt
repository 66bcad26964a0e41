// Two workers serve a mount that keeps no history: each frame is that of a mount which does.
use crate::checks::{holds, keys_of};
use crate::mounts::{Silent, core_of};
use crate::peers::socket_path;
use crate::two_workers::{EMPTY, by_two, two_clients};
use endless_mount::Blank;
use overlay_core::Core;
use socket_server::{Keeper, ServeOptions, Served, serve_endless_on};
use std::alloc::Global;
use std::fs;
use std::fs::Files;
use std::hash::RandomState;
use std::io::Eprint;
use std::net::Net;
use std::os::unix::net::UnixListener;
use std::process::Abort;
use std::sync::Wait;
use std::thread::{Threads, join};
use std::time::Clock;
use watch_table::{AnyAnswer, Callback, Hook, Rule};

/// How much was done on a core: 2 attaches, 4 answered calls and 2 detaches.
const DONE: u64 = 8;

/// How much was done on the core of a mount that has ended.
#[derive(Drop)]
struct Deeds {
    finished: Option<u64>,
}

impl Keeper for Deeds {
    ghost use Rattle.std.specs.Prelude.{IsSome};

    ghost takes = { λ deeds mounted. Unit {0} };

    ghost kept = { λ deeds mounted entries. IsSome deeds.finished };

    fn keep<F: Callback, R: Rule>(&mut self, core: &Core<F, R>) {
        self.finished = Some(core.finished());
    }
}

// How the server of two clients ends.
fn served<F, R, H>(
    rt: &H,
    alloc: Global,
    options: &ServeOptions<'_>,
    listener: &UnixListener,
    blank: Blank<F, R>,
    deeds: &mut Deeds,
) -> Served
where
    F: Callback + Copy + Send + Sync,
    R: Rule + Send + Sync,
    H: Net + Threads + Wait + Eprint + Clock + Abort + Sync,
{
    let hooks: Vec<Hook<F, R>> = Vec::new(alloc);
    let (hooks, path) = (hooks.as_slice(), options.socket);
    let (end, ()) = join(
        rt,
        move || serve_endless_on(rt, alloc, listener, blank, hooks, options, deeds),
        || two_clients(rt, path),
    );
    end.expect(rt, "memory")
}

// All replies are read, the workers end, and the core has seen each deed once.
fn served_by_two<F, R, H>(rt: &H, alloc: Global, keys: RandomState, path: &str)
where
    F: Callback + Copy + Send + Sync,
    R: Rule + Send + Sync,
    H: Files + Net + Threads + Wait + Eprint + Clock + Abort + Sync,
{
    let listener = UnixListener::bind(rt, path).expect(rt, "a socket");
    let blank = Blank::new(alloc, core_of::<F, R>(rt, alloc, keys, EMPTY));
    let mut deeds = Deeds { finished: None };
    let end = served(rt, alloc, &by_two(path), &listener, blank, &mut deeds);
    fs::remove_file(rt, path).expect(rt, "no socket is left");
    holds(rt, end == Served::Done, "how the server ends");
    holds(
        rt,
        deeds.finished == Some(DONE),
        "what was done on the core",
    );
}

#[test]
fn two_workers_serve_an_endless_mount(rt: HostRuntime) {
    let path = socket_path(&rt, "endless").expect(&rt, "a path");
    let keys = keys_of(&rt);
    served_by_two::<Silent, AnyAnswer, HostRuntime>(&rt, rt.alloc(), keys, path.as_str());
}
