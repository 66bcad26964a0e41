//! The definitions that the contracts of the engine cite, in `specs/`, and the laws that are proved of them.
#![tactic(auto)]

mod laws;
mod watch_laws;

pub use laws::{
    law_of_bounds, law_of_look_up, law_of_merge, law_of_mount, law_of_moves, law_of_names,
    law_of_parents, law_of_paths, law_of_queues, law_of_settled_opening, law_of_settled_runs,
    law_of_settling, law_of_steps,
};
pub use watch_laws::{
    AnswerRule, IdentityMap, law_of_alike_hearing, law_of_alike_instances, law_of_events,
    law_of_instances, law_of_instances_of_runs, law_of_other_identities, law_of_subjects,
};

/// The most lower layers of a mount.
pub const LOWERS_MAX: usize = 16;
