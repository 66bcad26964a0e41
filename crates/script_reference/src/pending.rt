// Calls in steps on the reference, which has none: it keeps a call that was begun, and makes it at
// once where its last step is wanted, or where no call has as many steps. Without an upper each
// call has one.
use crate::answers::{dropped_line, more_line, not_taken_line, work_line};
use crate::mount::PlainMount;
use ov_base::Call;
use ov_script::{CallText, Command, command_of};
use std::alloc::{AllocError, Global};

/// The most steps that a call takes.
const STEPS_MOST: u64 = 66_049;

/// A call that was begun, and how many steps of it were made.
#[derive(Drop)]
pub struct Begun {
    call: Call,
    steps: u64,
}

/// Whether a line of a script is of a call in steps.
pub fn has_steps(script: &[u8]) -> bool {
    script.split(|byte| *byte == b'\n').any(is_of_steps)
}

fn is_of_steps(line: &[u8]) -> bool {
    matches!(
        command_of(line),
        Ok(Command::Start { .. } | Command::Step { .. } | Command::Drop { .. } | Command::Work)
    )
}

/// Begins a call, which makes nothing of it. None where the client can't begin one.
pub fn started(
    alloc: Global,
    mount: &mut PlainMount,
    client: u32,
    text: CallText<'_>,
) -> Result<Option<String>, AllocError> {
    if !mount.may_call(client) {
        return Ok(None);
    }
    match text.read(alloc)? {
        Err(errno) => Ok(Some(not_taken_line(alloc, client, errno)?)),
        Ok(call) => {
            match mount.begun.insert(client, Begun { call, steps: 0 }) {
                Ok(before) => {
                    drop(before);
                    Ok(Some(String::new(alloc)))
                }
                Err(fault) => {
                    drop(fault);
                    Err(AllocError)
                }
            }
        }
    }
}

/// The line of so many steps. The call goes on where it may and the wanted lines begin with that;
/// else it is made. None where the client has begun none.
pub fn stepped(
    alloc: Global,
    mount: &mut PlainMount,
    client: u32,
    steps: u64,
    wanted: &[u8],
) -> Result<Option<String>, AllocError> {
    let most = steps_most(mount);
    let has_place = mount.history.room() > 0;
    let Some(begun) = mount.begun.get_mut(&client) else {
        return Ok(None);
    };
    begun.steps = begun.steps.saturating_add(steps);
    let may_go_on = begun.steps < most && may_copy_up(&begun.call) && has_place;
    let more = more_line(alloc, client)?;
    if may_go_on && wanted.starts_with(more.as_bytes()) {
        return Ok(Some(more));
    }
    ended(alloc, mount, client)
}

// The line of a call that is made now. None where the client has begun none.
fn ended(alloc: Global, mount: &mut PlainMount, client: u32) -> Result<Option<String>, AllocError> {
    let Some(begun) = mount.begun.remove(&client) else {
        return Ok(None);
    };
    let line = mount.make(alloc, client, &begun.call);
    drop(begun);
    Ok(Some(line?))
}

// The most steps that a call takes on a mount.
fn steps_most(mount: &PlainMount) -> u64 {
    if mount.has_upper() { STEPS_MOST } else { 1 }
}

// Whether a call may want something in the upper layer that isn't there. One on a descriptor
// doesn't: what is open for writing is there.
fn may_copy_up(call: &Call) -> bool {
    match call {
        Call::Open { flags, .. } => flags.writes || flags.create,
        Call::Chmod { .. }
        | Call::Chown { .. }
        | Call::SetAttribute { .. }
        | Call::DeleteAttribute { .. }
        | Call::Mkdir { .. }
        | Call::Symlink { .. }
        | Call::Hardlink { .. }
        | Call::Rename { .. }
        | Call::Unlink { .. }
        | Call::Rmdir { .. } => true,
        _ => false,
    }
}

/// Gives a call up. None where the client has begun none.
pub fn dropped(
    alloc: Global,
    mount: &mut PlainMount,
    client: u32,
) -> Result<Option<String>, AllocError> {
    let begun = mount.begun.remove(&client);
    let is_dropped = begun.is_some();
    drop(begun);
    if is_dropped {
        Ok(Some(dropped_line(alloc, client)?))
    } else {
        Ok(None)
    }
}

/// The line of how many temps there are, which is wanted: at most one for each call that was begun, and none without an upper.
pub fn counted(alloc: Global, mount: &PlainMount, wanted: &[u8]) -> Result<String, AllocError> {
    let most = if mount.has_upper() {
        mount.begun.len()
    } else {
        0
    };
    for temps in 0..most {
        let line = work_line(alloc, temps)?;
        if wanted.starts_with(line.as_bytes()) {
            return Ok(line);
        }
    }
    work_line(alloc, most)
}
