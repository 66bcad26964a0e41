// How many threads the system gives.
use std::sync::{Mutex, Wait};
use std::thread;
use std::thread::Threads;

/// How many threads can be had beside this one, up to so many. Those that it makes to find it out
/// have ended when it returns.
pub(crate) fn threads_to_be_had<H: Threads + Wait + Sync>(rt: &H, most: usize) -> usize {
    let until_all = Mutex::new(());
    let held = &until_all;
    thread::scope(thread::scope_env(), rt, |scope| {
        let _all = held.lock(rt);
        for made in 0..most {
            if scope.spawn(move || wait_for(rt, held)).is_err() {
                return made;
            }
        }
        most
    })
}

// Waits until a lock is free.
fn wait_for(rt: &impl Wait, held: &Mutex<()>) {
    let _free = held.lock(rt);
}
