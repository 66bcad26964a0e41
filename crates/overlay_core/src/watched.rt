// A mount and what it keeps for watches.
use mount_calls::Mount;
use notifier::Notifier;
use watch_table::{Callback, Rule};

/// A mount and what it keeps for watches.
#[derive(Drop)]
pub struct Watched<F: Callback, R: Rule> {
    pub(crate) mount: Mount,
    pub(crate) notifier: Notifier<F, R>,
}
