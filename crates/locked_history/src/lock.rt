// How the lock of a mount is taken.
use std::hint::spin_loop;
use std::sync::{Mutex, MutexGuard, Wait};

// How often a lock that is held is asked for before it is slept for.
const TRIES: u32 = 128;

/// Takes a lock that others hold for one step at a time. One that is held is asked for again for a
/// while, since it is free between any two steps of a copy-up: to sleep and be woken takes longer
/// than many steps.
pub fn lock_soon<'m, T, H: Wait>(rt: &H, lock: &'m Mutex<T>) -> MutexGuard<'m, T> {
    for _ in 0..TRIES {
        if let Some(guard) = lock.try_lock() {
            return guard;
        }
        spin_loop();
    }
    lock.lock(rt)
}
