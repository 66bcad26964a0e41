//! An embedder's first program: two layers are mounted, and a client watches a file of the lower
//! one that it changes. `tools/check-docs` compares what is between the marks with LIBRARY.
#![tactic(auto)]

ghost use Rattle.std.specs.Prelude.{◌≡◌, IfOk};
ghost use Rattle.std.specs.Borrow.{Bor};
ghost use Rattle.ov_base.specs.declared.notice.Event.{Event};
ghost use Rattle.plain_model.specs.Watching.{IsEvent};

use anyhow::{Context, Result};
use ov_base::{Call, Event, Notice, Path, Reply};
use ov_wire::manifest_of;
use overlay_core::{Core, Job, Turn};
use std::alloc::Global;
use std::hash::RandomState;
use watch_table::{AnyAnswer, Asked, Callback, Hook};

/// More than a history ever has.
const FINISHED_MAX: u64 = 1 << 32;

/// The event of changed attributes: `IN_ATTRIB`.
const ATTRIB: u32 = 0x4;

fn path_of(alloc: Global, text: &str) -> Result<Path> {
    let path = Path::parse(alloc, text.as_bytes())?;
    path.ok().context("not a path")
}

fn report(rt: &HostRuntime, reply: Reply) -> Result<()> {
    if let Reply::Unread(notices) = reply {
        for notice in notices.as_slice() {
            println!(rt; "watch {} heard {:x}", notice.watch, notice.mask)?;
        }
    }
    Ok(())
}

// README: begin
// A mount whose clients have one hook each, and whose calls are made at once.
#[derive(Drop)]
struct Mounted<F: Callback> {
    core: Core<F, AnyAnswer>,
}

impl<F: Callback + Copy> Mounted<F> {
    // The mount of a manifest.
    fn of(alloc: Global, keys: RandomState, manifest: &str) -> Result<Self> {
        let (upper, lowers, options) = manifest_of(alloc, keys, manifest.as_bytes())?;
        let mounted = Core::mount(alloc, keys, upper, lowers, options);
        let core = mounted.ok().context("no mount")?;
        Ok(Mounted { core })
    }

    // Attaches a client whose events the callback answers, and gives its number.
    fn attach(&mut self, alloc: Global, callback: F) -> Result<u64>
        requires { (e : Bor Event) → IsEvent e.now → F.may callback e }
    {
        if self.core.finished() >= FINISHED_MAX {
            return None.context("too many calls");
        }
        let mut hooks: Vec<Hook<F, AnyAnswer>> = Vec::new(alloc);
        hooks.push(Hook::new(0, callback))?;
        self.core.attach(hooks).ok().context("not attached")
    }

    // Makes a call of a client at once.
    fn call(&mut self, client: u64, call: Call) -> Result<Reply> {
        if self.core.finished() >= FINISHED_MAX || !self.core.is_attached(client) {
            return None.context("not attached");
        }
        let mut job = Job::new(client, call);
        let turn = self.core.complete(&mut job);
        let _ = job.into_call();
        match turn {
            Turn::Done(reply) => Ok(reply),
            Turn::More | Turn::NoMemory => None.context("out of memory"),
        }
    }
}

// An empty upper layer over a lower one with a file.
const LAYERS: &str = r#"layer = [{}, { entry = [{ path = "/motd", kind = "file" }] }]"#;

fn main(rt: HostRuntime) -> Result<()> {
    let forward = |event: &Event| -> Option<Notice> {
        Some(Notice {
            watch: i32::try_from(event.watch).ok()?,
            mask: event.bits,
            cookie: event.cookie,
            name: event.name,
        })
    };
    session(&rt, Asked { function: forward })
}

fn session<F: Callback + Copy>(rt: &HostRuntime, callback: F) -> Result<()>
    requires { (e : Bor Event) → IsEvent e.now → F.may callback e }
{
    let mut mounted = Mounted::of(rt.alloc(), RandomState::new(rt)?, LAYERS)?;
    let heard = edit(rt.alloc(), &mut mounted, callback);
    drop(mounted);
    report(rt, heard?)
}

fn edit<F: Callback + Copy>(alloc: Global, mounted: &mut Mounted<F>, callback: F) -> Result<Reply>
    requires { (e : Bor Event) → IsEvent e.now → F.may callback e }
{
    let client = mounted.attach(alloc, callback)?;
    let (slot, path, mask) = (0, path_of(alloc, "/motd")?, ATTRIB);
    mounted.call(client, Call::Arm { slot, path, mask })?;
    let (path, mode) = (path_of(alloc, "/motd")?, 0o600);
    mounted.call(client, Call::Chmod { path, mode })?;
    mounted.call(client, Call::TakeNotices { count: 65 })
}
// README: end
