// What is told of a fault: one line, and where that is asked for a second one for a person.
use crate::bad_manifest::place_of;
use crate::failure::Failure;
use command_line::Source;
use ov_server::Fault;
use ov_wire::{EntryFault, ManifestFault};
use std::fs::Files;
use std::io::Eprint;
use std::random::RandomSource;
use std::{fmt, io};

/// Tells a fault. One of a saved upper is told with the name of its file.
pub fn tell<R: Files + RandomSource + Eprint + AllocGlobal>(
    rt: &R,
    source: &Source<'_>,
    explain: bool,
    failure: &Failure,
) -> io::Result<()> {
    let fault = &failure.fault;
    let upper = upper_at_fault(source, fault);
    match upper {
        Some(upper) => eprintln!(rt; "overlayd: {upper}: {fault}")?,
        None => eprintln!(rt; "overlayd: {fault}")?,
    }
    if explain {
        explained(rt, source, upper.unwrap_or(source.manifest), failure)?;
    }
    Ok(())
}

// The file of the saved upper, where a fault is of that.
fn upper_at_fault<'a>(source: &Source<'a>, fault: &Fault) -> Option<&'a str> {
    match fault {
        Fault::CannotReadUpper | Fault::Upper(_) => source.upper,
        _ => None,
    }
}

// Tells what a person needs to know beside the fault, where there is something.
fn explained<R: Files + RandomSource + Eprint + AllocGlobal>(
    rt: &R,
    source: &Source<'_>,
    file: &str,
    failure: &Failure,
) -> io::Result<()> {
    let check = Check { file };
    match (&failure.why, &failure.fault) {
        (Some(why), Fault::Manifest(_) | Fault::Upper(_)) => {
            eprintln!(rt; "overlayd: {why}; {check}")
        }
        (Some(why), _) => eprintln!(rt; "overlayd: {why}"),
        (None, Fault::Upper(ManifestFault::Layers)) => {
            let what = "it has one layer and nothing else, as --save leaves it";
            eprintln!(rt; "overlayd: {file}: {what}")
        }
        (None, Fault::Manifest(fault) | Fault::Upper(fault)) => {
            let allowed = allowed(fault);
            match place_of(rt, source, file, fault) {
                Ok(place) => eprintln!(rt; "overlayd: {place}: {allowed}; {check}"),
                Err(_) => eprintln!(rt; "overlayd: {file}: {allowed}; {check}"),
            }
        }
        (None, fault) => told_of(rt, hint(fault)),
    }
}

// The command that tells all faults of a manifest.
#[derive(Clone, Copy)]
struct Check<'a> {
    file: &'a str,
}

impl fmt::Display for Check<'_> {
    fn fmt<W: fmt::Write>(&self, f: &mut fmt::Formatter<W>) -> fmt::Result {
        let file = self.file;
        write!(f, "overlayd-import --check {file} tells all that is wrong")
    }
}

fn told_of<R: Eprint>(rt: &R, hint: &str) -> io::Result<()> {
    if hint.is_empty() {
        Ok(())
    } else {
        eprintln!(rt; "overlayd: {hint}")
    }
}

// What a person can do about other faults; nothing where the fault says it.
fn hint(fault: &Fault) -> &'static str {
    match fault {
        Fault::Stream => "standard input or output, or the system's randomness, failed",
        Fault::Socket =>
            "a connection, a thread or a descriptor that the server needs can't be had",
        Fault::NoUpper => "the manifest says upper = false; --upper FILE puts one over its layers",
        Fault::InputTwice => "name a file: the script's by --script, or the manifest's",
        Fault::LeftOut { .. } => "all else was saved",
        _ => "",
    }
}

// What is allowed where a manifest is at fault.
fn allowed(fault: &ManifestFault) -> &'static str {
    match fault {
        ManifestFault::NotToml => "it is a text of TOML 1.1, in UTF-8",
        ManifestFault::Key => {
            "the keys at the top are layer, upper, redirect_dir, metacopy, history, file_limit and \
             blobs, each with a value of its type, and a layer's is entry, an array of tables"
        }
        ManifestFault::RedirectDir => "redirect_dir is \"on\" or \"off\"",
        ManifestFault::Metacopy => {
            "metacopy is \"on\" or \"off\", and with an upper on only where redirect_dir is"
        }
        ManifestFault::History => "history is from 2 to 1000000",
        ManifestFault::FileLimit => "file_limit is from 1 to 1099511627776",
        ManifestFault::Blobs => "blobs is an array of texts",
        ManifestFault::Layers => "there are 2 to 17 layers, and without an upper 2 to 16",
        ManifestFault::Entry { fault, .. } => allowed_in_entry(*fault),
        ManifestFault::Memory(_) => "",
    }
}

// What is allowed where an entry is at fault.
fn allowed_in_entry(fault: EntryFault) -> &'static str {
    match fault {
        EntryFault::Kind => { "kind is \"dir\", \"file\", \"symlink\", \"whiteout\" or \"link\"" }
        EntryFault::Path => {
            "path begins with / and has names of 1 to 255 bytes, none . or .., and \
             4,095 bytes at most"
        }
        EntryFault::Key => {
            "a key is unknown, of another type, or not for this kind; or one is \
             missing: target of a symlink, to of a link"
        }
        EntryFault::Value => {
            "a number is out of its range (mode is decimal, or 0o755), bytes are too \
             many or in no blob, or an attribute, a target or a redirect is of another form"
        }
        EntryFault::Parent => "no entry of kind dir before it has the parent's path",
        EntryFault::Exists => "an entry before it has the same path",
        EntryFault::Link => "to is the path of a file or symlink before it",
    }
}
