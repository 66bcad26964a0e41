// Mounts of the layers that manifests spell, and their clients.

ghost use Rattle.std.specs.Prelude.{◌≡◌, ◌+◌, ◌<◌, ◌^◌, true};
ghost use Rattle.overlay_core.specs.Views.{core_finished, has_client};

use crate::manifests::{ManifestText, child};
use ov_base::{Call, Event, Notice, Path, Reply};
use ov_wire::{layers_of, table_of};
use overlay_core::{Core, Job, Standing, Turn};
use std::alloc::{AllocError, Global};
use std::hash::RandomState;
use watch_table::{AnyAnswer, Callback, Hook, Rule};
use work_dir::STEPS_MAX;

/// More attaches, calls and detaches than are ever measured.
const DEEDS_MAX: u64 = 1 << 62;

/// A callback that answers each event as it is.
#[derive(Clone, Copy)]
pub struct Echo;

impl Callback for Echo {
    ghost use Rattle.plain_model.specs.Watching.{IsEvent};

    ghost may = { λ c event. IsEvent event.now };

    ghost gives = { λ c event answer. Unit {0} };

    fn answer(&self, event: &Event) -> Option<Notice> {
        Some(Notice {
            watch: event.watch as i32,
            mask: event.bits,
            cookie: event.cookie,
            name: event.name,
        })
    }
}

/// The hook of each client that watches: its answers may be any.
pub fn echoing_hook() -> Hook<Echo, AnyAnswer> {
    Hook::new(0, Echo)
}

/// The mount of a manifest without a client; what is no mount is answered as an allocation failure
/// is.
pub fn mounted_alone<F: Callback + Copy, R: Rule>(
    alloc: Global,
    keys: RandomState,
    manifest: &ManifestText,
) -> Result<Core<F, R>, AllocError> {
    let Ok(table) = table_of(alloc, manifest.as_bytes()) else {
        return Err(AllocError);
    };
    let blobs = [manifest.blob(alloc)?];
    let Ok((upper, lowers, options)) = layers_of(alloc, keys, &table, &blobs) else {
        return Err(AllocError);
    };
    Core::mount(alloc, keys, upper, lowers, options).map_err(|_| AllocError)
}

/// Lets a mount go. It is let go nowhere else, since each place where a core is dropped costs much
/// of a proof.
pub fn unmount<F: Callback + Copy, R: Rule>(_core: Core<F, R>) {}

/// The number of a client that comes with these hooks; that it is refused is answered as an
/// allocation failure is.
pub fn attached<F: Callback + Copy, R: Rule>(
    core: &mut Core<F, R>,
    hooks: Vec<Hook<F, R>>,
) -> Result<u64, AllocError> {
    if core.finished() >= DEEDS_MAX {
        return Err(AllocError);
    }
    match core.attach(hooks) {
        Ok(client) => Ok(client),
        Err(_) => Err(AllocError),
    }
}

/// How a call is made.
#[derive(Clone, Copy)]
pub enum Pace {
    /// At once.
    AtOnce,
    /// Step by step.
    InSteps,
}

/// The reply to a call of a client; that it isn't attached, or was too often, is answered as an
/// allocation failure is.
pub fn made<F: Callback, R: Rule>(
    core: &mut Core<F, R>,
    client: u64,
    call: Call,
    pace: Pace,
) -> Result<Reply, AllocError> {
    if core.finished() >= DEEDS_MAX || !core.is_attached(client) {
        drop(call);
        return Err(AllocError);
    }
    let mut job = Job::new(client, call);
    let turn = match pace {
        Pace::AtOnce => completed(core, &mut job),
        Pace::InSteps => stepped(core, &mut job),
    };
    drop(core.drop_job(job));
    match turn {
        Turn::Done(reply) => Ok(reply),
        Turn::More | Turn::NoMemory => Err(AllocError),
    }
}

// A job's call made at once; a caller of this has fewer clauses to carry than of `Core::complete`.
fn completed<F: Callback, R: Rule>(core: &mut Core<F, R>, job: &mut Job) -> Turn
    requires open { job.old.standing ≡ Standing.Open }
    requires attached { has_client core.old job.old.client ≡ true }
    requires bound { core_finished core.old + 1 < 2 ^ 63 }
{
    core.complete(job)
}

// The steps of a job, one after the other.
fn stepped<F: Callback, R: Rule>(core: &mut Core<F, R>, job: &mut Job) -> Turn
    requires open { job.old.standing ≡ Standing.Open }
    requires attached { has_client core.old job.old.client ≡ true }
    requires bound { core_finished core.old + 1 < 2 ^ 63 }
{
    for _ in 0..STEPS_MAX {
        match advanced(core, job) {
            Turn::More => {}
            over => return over,
        }
    }
    Turn::More
}

// One step of a job; a loop of this has fewer clauses to carry than of `Core::advance`.
fn advanced<F: Callback, R: Rule>(core: &mut Core<F, R>, job: &mut Job) -> Turn
    requires open { job.old.standing ≡ Standing.Open }
    requires attached { has_client core.old job.old.client ≡ true }
    requires bound { core_finished core.old + 1 < 2 ^ 63 }
    ensures open { result ≡ Turn.More → job.new.standing ≡ Standing.Open }
    ensures attached { result ≡ Turn.More → has_client core.new job.new.client ≡ true }
    ensures bound { result ≡ Turn.More → core_finished core.new + 1 < 2 ^ 63 }
{
    core.advance(job)
}

/// The path of a text; what is no path is answered as an allocation failure is.
pub fn path_of(alloc: Global, text: &str) -> Result<Path, AllocError> {
    match Path::parse(alloc, text.as_bytes())? {
        Ok(path) => Ok(path),
        Err(_) => Err(AllocError),
    }
}

/// The path of a name of 12 bytes in a directory: these first five bytes and a number.
pub fn path_to(alloc: Global, parent: &str, first: &str, number: u32) -> Result<Path, AllocError> {
    let text = child(alloc, parent, first, number)?;
    path_of(alloc, text.as_str())
}
