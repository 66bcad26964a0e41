// A fault, and what a person needs to know beside its line.
use ov_server::Fault;
use ov_wire::{EntryFault, ManifestFault};
use std::alloc::{AllocError, AllocFailed, Global};
use std::fmt::Display;

/// Why a run ended, and a text for a person of what was at fault, where there is more to say.
#[derive(Drop)]
pub struct Failure {
    /// The fault, which has the line and the exit status.
    pub fault: Fault,
    /// What was at fault, in words.
    pub why: Option<String>,
}

impl Failure {
    /// A fault, and why; where memory runs out for the text, without it.
    pub fn because<T: Display + Drop>(alloc: Global, fault: Fault, why: T) -> Failure {
        Failure {
            fault,
            why: why.to_string(alloc).ok(),
        }
    }

    /// A fault of a mount. Where a saved upper stands above so many layers more than a manifest has, an
    /// entry's is told of the file that has it, with the number of its layer there.
    pub fn of_mount(fault: Fault, above: Option<usize>) -> Failure {
        let Some(above) = above else {
            return Failure::from(fault);
        };
        match fault {
            Fault::Manifest(
                ManifestFault::Entry {
                    layer,
                    entry,
                    fault,
                },
            ) => Failure::from(of_entry(layer, entry, fault, above)),
            fault => Failure::from(fault),
        }
    }
}

fn of_entry(layer: usize, entry: usize, fault: EntryFault, above: usize) -> Fault {
    if layer == 0 {
        return Fault::Upper(ManifestFault::Entry {
            layer,
            entry,
            fault,
        });
    }
    Fault::Manifest(ManifestFault::Entry {
        layer: layer.saturating_sub(above),
        entry,
        fault,
    })
}

impl From<Fault> for Failure {
    fn from(fault: Fault) -> Failure {
        Failure { fault, why: None }
    }
}

impl From<AllocError> for Failure {
    fn from(_fault: AllocError) -> Failure {
        Failure::from(Fault::Memory)
    }
}

impl<T: Drop> From<AllocFailed<T>> for Failure {
    fn from(_fault: AllocFailed<T>) -> Failure {
        Failure::from(Fault::Memory)
    }
}
