// Mounts, their clients, and the replies to their calls.
ghost use Rattle.std.specs.Prelude.{◌∷◌, map};
ghost use Rattle.plain_model.specs.Layers.{AreLayers};
ghost use Rattle.layer_tree.specs.Tree.{layer_of};

use crate::fixtures::read;
use layer_tree::Layer;
use ov_base::{Call, Errno, Options, Reply, Stat};
use overlay_core::{Core, Job, Turn, Unmounted};
use std::alloc::Global;
use std::hash::RandomState;
use std::process::Abort;
use watch_table::{Callback, Hook, Rule};

/// More attaches, calls and detaches than a test makes.
pub const DEEDS_MAX: u64 = 1 << 32;

// What comes of mounting these layers.
fn mounting<F: Callback + Copy, H: Rule>(
    alloc: Global,
    keys: RandomState,
    upper: Layer,
    lowers: Vec<Layer>,
    options: Options,
) -> Result<Core<F, H>, Unmounted>
    requires layers { AreLayers (layer_of upper ∷ map layer_of lowers.items) }
{
    Core::mount(alloc, keys, Some(upper), lowers, options)
}

// A mount of these layers.
pub fn mounted_on<F: Callback + Copy, H: Rule>(
    rt: &impl Abort,
    alloc: Global,
    keys: RandomState,
    upper: Layer,
    lowers: Vec<Layer>,
    options: Options,
) -> Core<F, H>
    requires layers { AreLayers (layer_of upper ∷ map layer_of lowers.items) }
{
    match mounting(alloc, keys, upper, lowers, options) {
        Ok(core) => core,
        Err(_) => panic!(rt; "no mount"),
    }
}

// A mount of a manifest.
pub fn mounted<F: Callback + Copy, H: Rule>(
    rt: &impl Abort,
    alloc: Global,
    keys: RandomState,
    manifest: &str,
) -> Core<F, H> {
    let (upper, lowers, options) = read(rt, alloc, keys, manifest);
    mounted_on(rt, alloc, keys, upper, lowers, options)
}

/// Lets a mount go. What owns one calls this, since each place where a core is let go is taken apart
/// by the proof.
pub fn unmount<F: Callback + Copy, H: Rule>(_core: Core<F, H>) {}

// Why these layers are no mount, and the layers, handed back.
pub fn refused<F: Callback + Copy, H: Rule>(
    rt: &impl Abort,
    alloc: Global,
    keys: RandomState,
    upper: Layer,
    lowers: Vec<Layer>,
    options: Options,
) -> Unmounted
    requires layers { AreLayers (layer_of upper ∷ map layer_of lowers.items) }
{
    match mounting::<F, H>(alloc, keys, upper, lowers, options) {
        Ok(_) => panic!(rt; "a mount"),
        Err(unmounted) => unmounted,
    }
}

// Attaches a client with its hooks.
pub fn attached<F: Callback + Copy, H: Rule>(
    rt: &impl Abort,
    core: &mut Core<F, H>,
    hooks: Vec<Hook<F, H>>,
) -> u64 {
    assert!(rt; core.finished() < DEEDS_MAX);
    match core.attach(hooks) {
        Ok(client) => client,
        Err(_) => panic!(rt; "no client"),
    }
}

// Detaches a client.
pub fn detach<F: Callback + Copy, H: Rule>(rt: &impl Abort, core: &mut Core<F, H>, client: u64) {
    assert!(rt; core.finished() < DEEDS_MAX);
    assert!(rt; core.is_attached(client));
    drop(core.detach(client));
}

// The reply to a call of a client.
pub fn reply<F: Callback + Copy, H: Rule>(
    rt: &impl Abort,
    core: &mut Core<F, H>,
    client: u64,
    call: Call,
) -> Reply {
    assert!(rt; core.finished() < DEEDS_MAX);
    assert!(rt; core.is_attached(client));
    let mut job = Job::new(client, call);
    let turn = core.complete(&mut job);
    drop(job.into_call());
    match turn {
        Turn::Done(reply) => reply,
        Turn::More | Turn::NoMemory => panic!(rt; "no reply"),
    }
}

/// What a reply says that has no bytes, names or notices.
#[derive(Clone, Copy, PartialEq, Eq)]
pub enum Answer {
    Done,
    Refused(Errno),
    Descriptor(u32),
    Status(Stat),
    Written(u32),
    Watch(i32),
    /// Any other reply.
    Other,
}

/// What a reply says.
pub fn answer_of(reply: &Reply) -> Answer {
    match reply {
        Reply::Done => Answer::Done,
        Reply::Refused(errno) => Answer::Refused(*errno),
        Reply::Descriptor(descriptor) => Answer::Descriptor(*descriptor),
        Reply::Status(status) => Answer::Status(*status),
        Reply::Written(count) => Answer::Written(*count),
        Reply::Watch(watch) => Answer::Watch(*watch),
        _ => Answer::Other,
    }
}

/// What the reply to a call of a client says. The reply is let go here, as a core is by `unmount`.
pub fn answer_to<F: Callback + Copy, H: Rule>(
    rt: &impl Abort,
    core: &mut Core<F, H>,
    client: u64,
    call: Call,
) -> Answer {
    let reply = reply(rt, core, client, call);
    let answer = answer_of(&reply);
    drop(reply);
    answer
}

/// A call of a client is answered so. What calls this has no end of its own behind the call.
pub fn answers<F: Callback + Copy, H: Rule>(
    rt: &impl Abort,
    core: &mut Core<F, H>,
    client: u64,
    call: Call,
    wanted: Answer,
) {
    assert!(rt; answer_to(rt, core, client, call) == wanted);
}
