// What is mounted before it is served.
ghost use Rattle.std.specs.Prelude.{◌≡◌, IfOk};
ghost use Rattle.toml.specs.View.{table_view};
ghost use Rattle.ov_server.specs.Mounts.{IsMountOf};
ghost use Rattle.overlay_core.specs.Views.{core_options};
ghost use Rattle.overlayd.specs.Mounting.{core_in, is_endless};

use command_line::Serving;
use manifest_files::Described;
use ov_server::{Fault, core_of};
use overlay_core::Core;
use std::alloc::Global;
use std::hash::RandomState;
use watch_table::{Callback, Rule};

/// A mount on which nothing was done, whose history will be kept, or nowhere.
#[derive(Drop)]
pub(crate) enum Mounting<F: Callback, H: Rule> {
    Kept(locked_history::Blank<F, H>),
    Endless(endless_mount::Blank<F, H>),
}

/// The mount of a manifest, and how many places its history has: as many as are told, or else as the
/// manifest says. It has an upper where that is to be saved.
pub(crate) fn mounting_of<F: Callback + Drop, H: Rule>(
    alloc: Global,
    keys: RandomState,
    manifest: Described,
    serving: &Serving<'_>,
) -> Result<(Mounting<F, H>, u32), Fault>
    ensures mount { IfOk result (λ r. IsMountOf manifest.blobs.items (table_view manifest.table)
        serving.now.history (core_in r.0)) }
    ensures places { IfOk result (λ r. r.1 ≡ (core_options (core_in r.0)).history) }
    ensures endless { IfOk result (λ r. is_endless r.0 ≡ serving.now.no_history) }
{
    let Described {
        table,
        blobs,
        above: _,
    } = manifest;
    let core: Result<Core<F, H>, Fault> = core_of(
        alloc,
        keys,
        &table,
        blobs.as_slice(),
        serving.history,
    );
    drop((table, blobs));
    let core = core?;
    if serving.save.is_some() && !core.has_upper() {
        drop(core);
        return Err(Fault::NoUpper);
    }
    let places = core.history();
    if serving.no_history {
        let blank = endless_mount::Blank::new(alloc, core);
        return Ok((Mounting::Endless(blank), places));
    }
    match locked_history::Blank::new(alloc, core) {
        Ok(blank) => Ok((Mounting::Kept(blank), places)),
        Err(_) => Err(Fault::Memory),
    }
}
