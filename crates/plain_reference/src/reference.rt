// The state of the reference.

use crate::instances::Instances;
use crate::unwatched::Unwatched;

/// The plain machine: what it is without its watches, and the clients' inotify instances.
#[derive(Drop)]
pub struct Reference {
    pub(crate) unwatched: Unwatched,
    pub(crate) instances: Instances,
}
