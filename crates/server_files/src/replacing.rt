// Files that take the place of others when they are whole.
use manifest_files::Failure;
use ov_server::Fault;
use std::fs::{File, Files};
use std::io::ErrorKind;
use std::{fs, io};

/// How many names are tried for the file that takes the place of another.
const NAMES_MOST: u32 = 100;

/// What is written to a file.
#[derive(Clone, Copy)]
pub(crate) enum What {
    Upper,
    Status,
}

impl What {
    // The fault where it can't be written.
    fn fault(self) -> Fault {
        match self {
            What::Upper => Fault::CannotSave,
            What::Status => Fault::CannotWriteStatus,
        }
    }

    /// It can't be written to a file.
    pub(crate) fn unwritten<R: AllocGlobal>(
        self,
        rt: &R,
        path: &str,
        error: &io::Error,
    ) -> Failure {
        Failure::because(rt.alloc(), self.fault(), format_args!("{path}: {error}"))
    }
}

/// A file that is to take another's place.
#[derive(Drop)]
pub(crate) struct Part<F> {
    pub(crate) name: String,
    pub(crate) file: F,
}

/// A new file beside a path, which is to take its place; nothing but a regular file may stand there.
/// What has the name of the new one is left, whatever it is, and another name is tried.
pub(crate) fn part_of<R: Files + AllocGlobal>(
    rt: &R,
    what: What,
    path: &str,
) -> Result<Part<R::File>, Failure> {
    check_place(rt, what, path)?;
    for number in 0..NAMES_MOST {
        let name = if number == 0 {
            format!(in rt.alloc(); "{path}.part")?
        } else {
            format!(in rt.alloc(); "{path}.part{number}")?
        };
        match File::create_new(rt, name.as_str()) {
            Ok(file) => return Ok(Part { name, file }),
            Err(error) if error.kind() == ErrorKind::AlreadyExists => (),
            Err(error) => return Err(what.unwritten(rt, name.as_str(), &error)),
        }
    }
    let why = format_args!("{NAMES_MOST} names are taken, from {path}.part on");
    Err(Failure::because(rt.alloc(), what.fault(), why))
}

/// Has a new file take its place.
pub(crate) fn put_in_place<R: Files + AllocGlobal>(
    rt: &R,
    what: What,
    name: &str,
    path: &str,
) -> Result<(), Failure> {
    check_place(rt, what, path)?;
    match fs::rename(rt, name, path) {
        Ok(()) => Ok(()),
        Err(error) => Err(what.unwritten(rt, path, &error)),
    }
}

// Whether a regular file stands at a path, or nothing.
fn check_place<R: Files + AllocGlobal>(rt: &R, what: What, path: &str) -> Result<(), Failure> {
    match fs::symlink_metadata(rt, path) {
        Ok(found) if found.is_file() => Ok(()),
        Ok(_) => {
            let why = format_args!("{path}: is there and no regular file");
            Err(Failure::because(rt.alloc(), what.fault(), why))
        }
        Err(error) if error.kind() == ErrorKind::NotFound => Ok(()),
        Err(error) => Err(what.unwritten(rt, path, &error)),
    }
}
