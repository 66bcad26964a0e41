// The open whose file is copied, kept from step to step as long as nothing else is done: what it
// lacks needs no look then.
ghost use Rattle.std.specs.Prelude.{◌≡◌, true, option_copied, IfSome};
ghost use Rattle.std.specs.Option.{ForSome};
ghost use Rattle.plain_model.specs.Machine.{State};
ghost use Rattle.plain_model.specs.Refusals.{refusal};
ghost use Rattle.work_dir.specs.declared.next.Next.TheVariants as next;
ghost use Rattle.mount_calls.specs.declared.mount.Mount.{Mount as Held};
ghost use Rattle.mount_calls.specs.Lacks.{may_lack};
ghost use Rattle.mount_calls.specs.States.{IsStateOf};
ghost use Rattle.overlay_core.specs.Steps.{next_by, IsNext};
ghost use Rattle.overlay_core.specs.Waits.{IsFor, WaitsFor};

use crate::job::Job;
use ov_base::{Call, Name, OpenFlags, Place, copy_names};
use std::alloc::Global;
use work_dir::{Lack, Next, Temp, next_after};

/// An open of a client that lacks the bytes of a file of a lower layer, so many, and nothing else.
#[derive(Drop)]
pub(crate) struct Waiting {
    client: u64,
    // The names of its path.
    names: Vec<Name>,
    flags: OpenFlags,
    mode: u32,
    source: Place,
    size: usize,
}

impl Waiting {
    // The open of a job that lacks this file of so many bytes; none where the call is no open, or
    // when out of memory.
    pub(crate) fn of(alloc: Global, job: &Job, source: Place, size: usize) -> Option<Waiting>
        ensures { IfSome result (λ w. IsFor job.now w × (w.source ≡ source) × (w.size ≡ size)) }
    {
        let Call::Open { path, flags, mode } = job.call() else {
            return None;
        };
        let Ok(names) = copy_names(alloc, path.names()) else {
            return None;
        };
        Some(Waiting {
            client: job.client(),
            names,
            flags: *flags,
            mode: *mode,
            source,
            size,
        })
    }

    // Whether this is the call of a job.
    fn is_of(&self, job: &Job) -> bool
        ensures { result ≡ true → IsFor job.now self.now }
    {
        let Call::Open { path, flags, mode } = job.call() else {
            return false;
        };
        if self.client != job.client() {
            return false;
        }
        if self.flags != *flags {
            return false;
        }
        if self.mode != *mode {
            return false;
        }
        self.names.as_slice() == path.names()
    }

    // Whether the next step of a job that holds this temp copies a chunk into it.
    fn copies(&self, job: &Job, temp: Option<&Temp>) -> bool
        ensures next { result ≡ true → (m : Held) → WaitsFor m self.now → (s : State) →
            IsStateOf m s → next_by m job.now (option_copied temp.entry)
            (refusal s job.now.client job.now.call) ≡ next.Copy }
        ensures due { result ≡ true → (m : Held) → WaitsFor m self.now →
            IsNext m job.now (option_copied temp.entry) next.Copy }
        ensures may { result ≡ true → may_lack job.now.call ≡ true }
    {
        if !self.is_of(job) {
            return false;
        }
        let lack = Lack::File(self.source);
        let next = next_after(lack, job.placings(), job.begins(), temp, self.size);
        match next {
            Next::Copy => true,
            _ => false,
        }
    }
}

// Whether the next step of a job that holds this temp copies a chunk into it, by what waits.
pub(crate) fn copies_on(waiting: Option<&Waiting>, job: &Job, temp: Option<&Temp>) -> bool
    ensures next { result ≡ true → (m : Held) → ForSome (option_copied waiting.entry) (WaitsFor m) →
        (s : State) → IsStateOf m s → next_by m job.now (option_copied temp.entry)
        (refusal s job.now.client job.now.call) ≡ next.Copy }
    ensures due { result ≡ true → (m : Held) → ForSome (option_copied waiting.entry) (WaitsFor m) →
        IsNext m job.now (option_copied temp.entry) next.Copy }
    ensures may { result ≡ true → may_lack job.now.call ≡ true }
{
    match waiting {
        Some(waiting) => waiting.copies(job, temp),
        None => false,
    }
}
