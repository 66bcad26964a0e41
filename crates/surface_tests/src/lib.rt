//! Tests of what no script reaches: sessions on a core, options, schedules of jobs, callbacks that are
//! asked, hooks that are too many, marks and long files that no manifest makes, places that are freed, and public functions that no command
//! calls. Scripts and manifests with what they come to are rows of `side_by_side`.
#![tactic(auto)]

#[cfg(test)]
mod checks;
#[cfg(test)]
mod cores;
#[cfg(test)]
mod fixtures;
#[cfg(test)]
mod freed_places;
#[cfg(test)]
mod hooks;
#[cfg(test)]
mod interleaved;
#[cfg(test)]
mod long_files;
#[cfg(test)]
mod look_ups;
#[cfg(test)]
mod manifests;
#[cfg(test)]
mod marked_files;
#[cfg(test)]
mod marks;
#[cfg(test)]
mod parents;
#[cfg(test)]
mod refused_mounts;
#[cfg(test)]
mod schedules;
#[cfg(test)]
mod sessions;
#[cfg(test)]
mod shared_bytes;
#[cfg(test)]
mod whole_runs;
