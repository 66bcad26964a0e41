// A script over a manifest on the slow reference.
use crate::answers::{attached_line, detached_line, not_attached_line, not_taken_line};
use crate::mount::{PlainMount, mount_of};
use crate::pending::{counted, dropped, started, stepped};
use crate::told_layers::layer_difference;
use ov_base::Errno;
use ov_script::{CallText, Command, command_of};
use std::alloc::{AllocError, Global};

/// What the reference answers to a line.
#[derive(Drop)]
enum Answer {
    /// These lines.
    Lines(String),
    /// The lines of a layer.
    Layer(usize),
    BadCommand,
}

/// How the answers of the reference differ from those that are wanted.
pub fn reference_difference(
    alloc: Global,
    manifest: &[u8],
    script: Option<&[u8]>,
    wanted: &[u8],
) -> Result<Option<String>, AllocError> {
    let Some(mut mount) = mount_of(alloc, manifest)? else {
        return Ok(Some(String::from_str(alloc, "the reference has no mount")?));
    };
    let found = match script {
        Some(script) => played_difference(alloc, &mut mount, script, wanted),
        None => tree_difference(alloc, &mount, wanted),
    };
    // It is let go here alone, since each place where one is is taken apart by the proof.
    drop(mount);
    found
}

fn tree_difference(
    alloc: Global,
    mount: &PlainMount,
    wanted: &[u8],
) -> Result<Option<String>, AllocError> {
    let tree = mount.merge_lines(alloc)?;
    if tree.as_bytes() == wanted {
        Ok(None)
    } else {
        differs(alloc, 0, tree.as_str())
    }
}

fn differs(alloc: Global, line: u64, found: &str) -> Result<Option<String>, AllocError> {
    Ok(Some(format!(in alloc; "the reference answers to line {line}\n{found}")?))
}

fn at_line(alloc: Global, line: u64, found: String) -> Result<Option<String>, AllocError> {
    Ok(Some(format!(in alloc; "line {line}: {found}")?))
}

// Takes the answers to the lines of the script one by one from those that are wanted.
fn played_difference(
    alloc: Global,
    mount: &mut PlainMount,
    script: &[u8],
    wanted: &[u8],
) -> Result<Option<String>, AllocError> {
    let mut left = wanted;
    let mut number = 0u64;
    for line in script.split(|byte| *byte == b'\n') {
        number = number.saturating_add(1);
        match answer_of(alloc, mount, line, left)? {
            Answer::Layer(index) => {
                let rest = after_layer(left);
                let told = left.strip_suffix(rest).unwrap_or(left);
                if let Some(found) = layer_difference(alloc, mount, index, told)? {
                    return at_line(alloc, number, found);
                }
                left = rest;
            }
            Answer::Lines(lines) => match left.strip_prefix(lines.as_bytes()) {
                Some(rest) => left = rest,
                None => return differs(alloc, number, lines.as_str()),
            },
            Answer::BadCommand => return bad_line_difference(alloc, number, left),
        }
    }
    if left.is_empty() {
        Ok(None)
    } else {
        differs(alloc, number, "nothing more")
    }
}

fn bad_line_difference(
    alloc: Global,
    number: u64,
    left: &[u8],
) -> Result<Option<String>, AllocError> {
    let fault = format!(in alloc; "line {number}: bad command\n")?;
    if left == fault.as_bytes() {
        Ok(None)
    } else {
        differs(alloc, number, fault.as_str())
    }
}

// What follows the lines of a layer: that of its root, and those of other objects after it.
fn after_layer(lines: &[u8]) -> &[u8] {
    let mut left = after_line(lines);
    for _ in 0..lines.len() {
        if !is_object_below_root(left) {
            break;
        }
        left = after_line(left);
    }
    left
}

fn after_line(lines: &[u8]) -> &[u8] {
    match lines.iter().position(|byte| *byte == b'\n') {
        Some(end) => lines.get(end.saturating_add(1)..).unwrap_or(&[]),
        None => &[],
    }
}

fn first_line(lines: &[u8]) -> &[u8] {
    match lines.iter().position(|byte| *byte == b'\n') {
        Some(end) => lines.get(..end).unwrap_or(&[]),
        None => lines,
    }
}

// An object line begins with the letter of a kind, and the root's line is a directory's that ends with a lone slash.
fn is_object_below_root(lines: &[u8]) -> bool {
    let line = first_line(lines);
    match line {
        [b'd', b' ', ..] => !line.ends_with(b" /"),
        [b'f' | b'l' | b'c', b' ', ..] => true,
        _ => false,
    }
}

// What the reference answers to a line, where these are the lines that are wanted.
fn answer_of(
    alloc: Global,
    mount: &mut PlainMount,
    line: &[u8],
    wanted: &[u8],
) -> Result<Answer, AllocError> {
    if matches!(line, [] | [b'#', ..]) {
        return Ok(Answer::Lines(String::new(alloc)));
    }
    let Ok(command) = command_of(line) else {
        return Ok(Answer::BadCommand);
    };
    let lines = match command {
        Command::Attach => told(attached(alloc, mount)),
        Command::Detach { client } => detached(alloc, mount, client),
        Command::Call { client, call } => called(alloc, mount, client, call),
        Command::Start { client, call } => started(alloc, mount, client, call),
        Command::Step { client, steps } => stepped(alloc, mount, client, steps, wanted),
        Command::Drop { client } => dropped(alloc, mount, client),
        Command::Layer { index } => return Ok(layer_answer(mount, index as usize)),
        Command::Merge => told(mount.merge_lines(alloc)),
        Command::Work => told(counted(alloc, mount, wanted)),
    };
    match lines? {
        Some(lines) => Ok(Answer::Lines(lines)),
        None => Ok(Answer::BadCommand),
    }
}

fn told(lines: Result<String, AllocError>) -> Result<Option<String>, AllocError> {
    Ok(Some(lines?))
}

fn layer_answer(mount: &PlainMount, index: usize) -> Answer {
    if mount.has_layer(index) {
        Answer::Layer(index)
    } else {
        Answer::BadCommand
    }
}

fn attached(alloc: Global, mount: &mut PlainMount) -> Result<String, AllocError> {
    if mount.history.refuses_attach() {
        return not_attached_line(alloc, Errno::ENOSPC);
    }
    match mount.reference.attach(program_tags(alloc)?)? {
        Some(client) => {
            mount.history.attach();
            attached_line(alloc, u64::from(client))
        }
        None => not_attached_line(alloc, Errno::ENFILE),
    }
}

// The tags of the program's hooks by slot: every event as it is, those of directories, the others, and events without their name.
fn program_tags(alloc: Global) -> Result<Vec<u32>, AllocError> {
    let mut tags = Vec::with_capacity(alloc, 16)?;
    for slot in 0..16u32 {
        tags.push(slot.saturating_sub(8) / 2)?;
    }
    Ok(tags)
}

// Detaches a client, which gives up the call that it has begun. None where it isn't attached.
fn detached(
    alloc: Global,
    mount: &mut PlainMount,
    client: u32,
) -> Result<Option<String>, AllocError> {
    if !mount.reference.detach(client) {
        return Ok(None);
    }
    drop(mount.begun.remove(&client));
    mount.history.detach();
    Ok(Some(detached_line(alloc, client)?))
}

// None where the client can't make a call.
fn called(
    alloc: Global,
    mount: &mut PlainMount,
    client: u32,
    call: CallText<'_>,
) -> Result<Option<String>, AllocError> {
    if !mount.may_call(client) {
        return Ok(None);
    }
    match call.read(alloc)? {
        Err(errno) => Ok(Some(not_taken_line(alloc, client, errno)?)),
        Ok(call) => {
            let line = mount.make(alloc, client, &call);
            drop(call);
            Ok(Some(line?))
        }
    }
}
