// The file to which the upper of a served mount is written at the end.
use crate::replacing::{Part, What, part_of, put_in_place};
use command_line::Serving;
use manifest_files::Failure;
use merged_lookup::Layers;
use ov_devices::CountedWriter;
use ov_script::Escaped;
use ov_server::{DeviceFault, Fault, LeftOut, Output, save_upper};
use overlay_core::Core;
use socket_server::Keeper;
use std::fs;
use std::fs::{Files, OpenFile};
use std::io::Eprint;
use watch_table::{Callback, Rule};

/// Saves the upper, if that is asked for, and keeps what came of it.
#[derive(Drop)]
pub struct Saver<'r, 's, R: Files> {
    rt: &'r R,
    /// The file that has no upper yet.
    pub target: Option<&'s str>,
    /// What came of it.
    pub outcome: Result<(), Failure>,
}

impl<'r, 's, R: Files + AllocGlobal + Eprint> Saver<'r, 's, R> {
    /// Tries whether the upper can be written to its file, so that what can't be is told before
    /// anything is served. Nothing is left of that.
    pub fn new(rt: &'r R, serving: &Serving<'s>) -> Result<Saver<'r, 's, R>, Failure> {
        if let Some(path) = serving.save {
            let part = part_of(rt, What::Upper, path)?;
            let _ = fs::remove_file(rt, part.name.as_str());
        }
        Ok(Saver {
            rt,
            target: serving.save,
            outcome: Ok(()),
        })
    }
}

impl<R: Files + AllocGlobal + Eprint> Keeper for Saver<'_, '_, R> {
    ghost use Rattle.std.specs.Prelude.{◌≡◌, None};

    // It saves the upper of any mount, and nothing is left to be saved then.
    ghost takes = { λ saver mounted. Unit {0} };

    ghost kept = { λ saver mounted entries. saver.target ≡ None };

    fn keep<F: Callback, H: Rule>(&mut self, core: &Core<F, H>) {
        if let Some(target) = self.target.take() {
            self.outcome = save(self.rt, target, core.layers());
        }
    }
}

// Writes the upper to a new file, which takes the place then. Where that fails it is removed.
fn save<R: Files + AllocGlobal + Eprint>(
    rt: &R,
    path: &str,
    layers: &Layers,
) -> Result<(), Failure> {
    let Part { name, mut file } = part_of(rt, What::Upper, path)?;
    let written = match write(rt, &mut file, layers) {
        Ok(left_out) => keep_for_good(rt, &file, name.as_str(), path, left_out),
        Err(fault) => Err(failed(rt, name.as_str(), fault)),
    };
    drop(file);
    match written {
        Ok(left_out) => told(rt, &left_out),
        Err(failure) => {
            let _ = fs::remove_file(rt, name.as_str());
            Err(failure)
        }
    }
}

fn write<R: Files + AllocGlobal>(
    rt: &R,
    file: &mut R::File,
    layers: &Layers,
) -> Result<LeftOut, DeviceFault> {
    let mut output = Output::new(rt.alloc(), CountedWriter::new(file));
    save_upper(rt.alloc(), layers, &mut output)
}

// Gives a whole file its name, when its bytes are kept for good.
fn keep_for_good<R: Files + AllocGlobal>(
    rt: &R,
    file: &R::File,
    name: &str,
    path: &str,
    left_out: LeftOut,
) -> Result<LeftOut, Failure> {
    if let Err(error) = file.sync_all() {
        return Err(What::Upper.unwritten(rt, name, &error));
    }
    put_in_place(rt, What::Upper, name, path)?;
    Ok(left_out)
}

fn failed<R: AllocGlobal>(rt: &R, name: &str, fault: DeviceFault) -> Failure {
    match fault {
        DeviceFault::Memory => Failure::from(Fault::Memory),
        DeviceFault::Stream => {
            let why = format_args!("{name}: it can't be written, as where a disk is full");
            Failure::because(rt.alloc(), Fault::CannotSave, why)
        }
    }
}

// Tells the first object that was left out. A line that can't be written is lost.
fn told<R: Eprint>(rt: &R, left_out: &LeftOut) -> Result<(), Failure> {
    let Some(path) = &left_out.first else {
        return Ok(());
    };
    let path = Escaped(path.as_slice());
    let _ = eprintln!(rt; "overlayd: not saved: {path}");
    Err(Failure::from(Fault::LeftOut {
        objects: left_out.objects,
    }))
}
