// The file to which it is written while a server serves what it counts.
use crate::replacing::{Part, What, part_of, put_in_place};
use command_line::Serving;
use manifest_files::Failure;
use socket_server::{Counted, Counts};
use std::alloc::Global;
use std::fs::Files;
use std::io::Write;
use std::sync::{Arc, Condvar, Mutex, Wait};
use std::time::{Clock, Duration};
use std::{fmt, fs};

/// The file, what is counted, and whether the server has ended.
#[derive(Drop)]
pub struct Status {
    path: String,
    workers: u64,
    // How many places the history has, if it is kept.
    places: Option<u64>,
    /// What is counted.
    pub counts: Counts,
    ended: Mutex<bool>,
    changed: Condvar,
}

impl Status {
    /// The status of a server, if it is to be written. The file is written once, so that what can't be
    /// is told before anything is served.
    pub fn new<R: Files + AllocGlobal>(
        rt: &R,
        serving: &Serving<'_>,
        places: u32,
    ) -> Result<Option<Arc<Status, Global>>, Failure> {
        let Some(path) = serving.status else {
            return Ok(None);
        };
        let status = Status {
            path: format!(in rt.alloc(); "{path}")?,
            workers: serving.workers,
            places: if serving.no_history {
                None
            } else {
                Some(places as u64)
            },
            counts: Counts::new(),
            ended: Mutex::new(false),
            changed: Condvar::new(),
        };
        status.write(rt, "begins")?;
        Ok(Some(Arc::new(rt.alloc(), status)?))
    }

    /// Writes every second until the server has ended. What can't be written is tried again in the
    /// next second.
    pub fn write_all<R: Files + Wait + Clock + AllocGlobal>(&self, rt: &R) {
        for _ in rt.forever() {
            let second = Duration::from_secs(1);
            let ended = self.ended.lock(rt);
            let (ended, _) = self
                .changed
                .wait_timeout_while(rt, ended, second, |ended| !*ended);
            if *ended {
                break;
            }
            let _ = self.write(rt, "serves");
        }
    }

    /// The server has ended, which is written last.
    pub fn end<R: Files + Wait + AllocGlobal>(&self, rt: &R) {
        let mut ended = self.ended.lock(rt);
        *ended = true;
        let _ = self.write(rt, "ended");
        self.changed.notify_one();
    }

    // Writes a new file, which takes the place of the one before.
    fn write<R: Files + AllocGlobal>(&self, rt: &R, state: &str) -> Result<(), Failure> {
        let Part { name, mut file } = part_of(rt, What::Status, self.path.as_str())?;
        let name = name.as_str();
        let lines = Lines {
            state,
            workers: self.workers,
            places: self.places,
            counted: self.counts.now(),
        };
        let text = format!(in rt.alloc(); "{lines}")?;
        let written = match file.write_all(text.as_bytes()) {
            Ok(()) => put_in_place(rt, What::Status, name, self.path.as_str()),
            Err(error) => Err(What::Status.unwritten(rt, name, &error)),
        };
        if written.is_err() {
            let _ = fs::remove_file(rt, name);
        }
        written
    }
}

// The lines of a status.
#[derive(Clone, Copy)]
struct Lines<'a> {
    state: &'a str,
    workers: u64,
    places: Option<u64>,
    counted: Counted,
}

impl fmt::Display for Lines<'_> {
    fn fmt<W: fmt::Write>(&self, f: &mut fmt::Formatter<W>) -> fmt::Result {
        let Lines {
            state,
            workers,
            places,
            counted,
        } = *self;
        let Counted {
            sessions,
            clients,
            unattached,
            turned_away,
            calls,
            temps,
            places: used,
        } = counted;
        write!(f, "state {state}\nworkers {workers}\nclients {clients}\n")?;
        write!(f, "sessions {sessions}\nunattached {unattached}\n")?;
        write!(
            f,
            "turned_away {turned_away}\ncalls {calls}\ntemps {temps}\n"
        )?;
        match places {
            None => write!(f, "places none\n"),
            Some(places) => {
                let room = places.saturating_sub(used).saturating_sub(clients);
                write!(f, "places {places}\nplaces_used {used}\nroom {room}\n")
            }
        }
    }
}
