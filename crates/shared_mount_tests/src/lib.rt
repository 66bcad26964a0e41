//! Tests of a mount that threads share, and of its server: full histories, stale sessions, gates
//! that stop and hold calls, threads whose calls race, and clients of a Unix socket.
#![tactic(auto)]

#[cfg(test)]
mod checks;
#[cfg(test)]
mod devices;
#[cfg(test)]
mod door_sessions;
#[cfg(test)]
mod endless;
#[cfg(test)]
mod endless_server;
#[cfg(test)]
mod gates;
#[cfg(test)]
mod mounts;
#[cfg(test)]
mod one_worker;
#[cfg(test)]
mod opened;
#[cfg(test)]
mod peers;
#[cfg(test)]
mod racing;
#[cfg(test)]
mod refusals;
#[cfg(test)]
mod two_workers;
