// The clients of a mount that threads share, as the lines of a script name them.
use crate::shared_mount::SharedMount;
use locked_history::{Refused, Session};
use ov_base::{Call, Errno};
use ov_script::{CallText, Command, command_of};
use script_reference::{attached_line, detached_line, not_attached_line, not_taken_line};
use std::alloc::{AllocError, Global};
use std::sync::Wait;

/// What a mount answers to a line.
#[derive(Drop)]
pub enum Answer {
    /// These lines.
    Lines(String),
    /// These lines, since its history has no place for what the line asks for.
    NoPlace(String),
    /// What is only seen once the mount has ended.
    Asks,
    BadCommand,
}

/// Whether a line of a script says nothing.
pub fn is_silent(line: &[u8]) -> bool {
    matches!(line, [] | [b'#', ..])
}

/// The session of each client, by its number, until it is detached.
#[derive(Drop)]
pub struct Clients {
    sessions: Vec<Option<Session>>,
}

impl Clients {
    /// No client.
    pub fn new(alloc: Global) -> Clients {
        Clients {
            sessions: Vec::new(alloc),
        }
    }

    /// What the mount answers to a line.
    pub fn answer<M: SharedMount, H: Wait>(
        &mut self,
        rt: &H,
        alloc: Global,
        mount: &mut M,
        line: &[u8],
    ) -> Result<Answer, AllocError> {
        if is_silent(line) {
            return Ok(Answer::Lines(String::new(alloc)));
        }
        let Ok(command) = command_of(line) else {
            return Ok(Answer::BadCommand);
        };
        match command {
            Command::Attach => self.attach(rt, alloc, mount),
            Command::Detach { client } => self.detach(rt, alloc, mount, client),
            Command::Call { client, call } => self.call(rt, alloc, mount, client, call),
            Command::Layer { .. } | Command::Merge => Ok(Answer::Asks),
            Command::Start { .. } | Command::Step { .. } | Command::Drop { .. } | Command::Work => {
                Ok(Answer::BadCommand)
            }
        }
    }

    fn attach<M: SharedMount, H: Wait>(
        &mut self,
        rt: &H,
        alloc: Global,
        mount: &mut M,
    ) -> Result<Answer, AllocError> {
        match mount.attach(rt) {
            Ok(session) => {
                self.sessions.push(Some(session))?;
                Ok(Answer::Lines(attached_line(alloc, session.client)?))
            }
            Err(errno) => {
                let line = not_attached_line(alloc, errno)?;
                Ok(match errno {
                    Errno::ENOSPC => Answer::NoPlace(line),
                    _ => Answer::Lines(line),
                })
            }
        }
    }

    // Who isn't attached has no session.
    fn detach<M: SharedMount, H: Wait>(
        &mut self,
        rt: &H,
        alloc: Global,
        mount: &mut M,
        client: u32,
    ) -> Result<Answer, AllocError> {
        let Some(session) = self.session(client) else {
            return Ok(Answer::BadCommand);
        };
        if !mount.detach(rt, session) {
            return Ok(Answer::BadCommand);
        }
        self.keep(client, None);
        Ok(Answer::Lines(detached_line(alloc, client)?))
    }

    fn call<M: SharedMount, H: Wait>(
        &mut self,
        rt: &H,
        alloc: Global,
        mount: &mut M,
        client: u32,
        call: CallText<'_>,
    ) -> Result<Answer, AllocError> {
        let Some(session) = self.session(client) else {
            return Ok(Answer::BadCommand);
        };
        match call.read(alloc)? {
            Ok(call) => self.make(rt, alloc, mount, (client, session), call),
            Err(errno) => Ok(Answer::Lines(not_taken_line(alloc, client, errno)?)),
        }
    }

    fn make<M: SharedMount, H: Wait>(
        &mut self,
        rt: &H,
        alloc: Global,
        mount: &mut M,
        (client, session): (u32, Session),
        call: Call,
    ) -> Result<Answer, AllocError> {
        let mut session = session;
        match mount.call(rt, &mut session, client, call) {
            Ok(line) => {
                self.keep(client, Some(session));
                Ok(Answer::Lines(line))
            }
            Err(why) => refused(alloc, client, why),
        }
    }

    fn session(&self, client: u32) -> Option<Session> {
        match self.sessions.get(client as usize) {
            Some(session) => *session,
            None => None,
        }
    }

    fn keep(&mut self, client: u32, session: Option<Session>) {
        if let Some(kept) = self.sessions.get_mut(client as usize) {
            *kept = session;
        }
    }
}

// A session that is not judged right, and a gate that stops, have no line of a script.
fn refused(alloc: Global, client: u32, why: Refused) -> Result<Answer, AllocError> {
    match why {
        Refused::Full => {
            let line = not_taken_line(alloc, client, Errno::ENOSPC)?;
            Ok(Answer::NoPlace(line))
        }
        Refused::Memory => {
            let line = not_taken_line(alloc, client, Errno::ENOMEM)?;
            Ok(Answer::Lines(line))
        }
        Refused::Session | Refused::Stopped => Ok(Answer::BadCommand),
    }
}
