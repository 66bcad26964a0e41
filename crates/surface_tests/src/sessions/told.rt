// What requests and calls ask, as the reference of frames says it.
use super::frame_reference::Asked;
use crate::checks::add;
use ov_base::{Bytes, CallOf, OpenFlags, Path};
use ov_frames::Request;
use std::alloc::Global;
use std::process::Abort;

/// A text that is asked with.
pub trait AskedText {
    /// Adds the bytes that spell it.
    fn spell<A: Abort>(&self, rt: &A, text: &mut Vec<u8>);
}

impl AskedText for Bytes {
    fn spell<A: Abort>(&self, rt: &A, text: &mut Vec<u8>) {
        add(rt, text, self.as_slice());
    }
}

impl AskedText for Path {
    fn spell<A: Abort>(&self, rt: &A, text: &mut Vec<u8>) {
        for name in self.names() {
            add(rt, text, b"/");
            add(rt, text, name.as_slice());
        }
        if self.names().is_empty() {
            add(rt, text, b"/");
        }
    }
}

impl Asked {
    /// Nothing is asked.
    pub fn nothing(alloc: Global) -> Asked {
        Asked {
            op: 0,
            numbers: Vec::new(alloc),
            texts: Vec::new(alloc),
        }
    }

    /// An op is asked with these numbers.
    pub fn take(&mut self, rt: &impl Abort, op: u8, numbers: &[i128]) {
        self.op = op;
        for number in numbers {
            self.numbers.push(*number).expect(rt, "memory");
        }
    }

    /// A text is asked with, too.
    pub fn take_text<T: AskedText>(&mut self, rt: &impl Abort, alloc: Global, text: &T) {
        let mut bytes = Vec::new(alloc);
        text.spell(rt, &mut bytes);
        self.texts.push(bytes).expect(rt, "memory");
    }
}

/// What a request asks.
pub fn asked_by(rt: &impl Abort, alloc: Global, request: &Request) -> Asked {
    match request {
        Request::Call(call) => asked_of(rt, alloc, call),
        Request::Detach => {
            let mut asked = Asked::nothing(alloc);
            asked.take(rt, 26, &[]);
            asked
        }
    }
}

/// What a call asks.
pub fn asked_of<P: AskedText, T: AskedText>(
    rt: &impl Abort,
    alloc: Global,
    call: &CallOf<P, T>,
) -> Asked {
    let mut asked = Asked::nothing(alloc);
    ask_numbers(rt, call, &mut asked);
    ask_of_file(rt, call, &mut asked);
    ask_texts(rt, alloc, call, &mut asked);
    asked
}

// The op and the numbers of a call with texts.
fn ask_numbers<P, T>(rt: &impl Abort, call: &CallOf<P, T>, asked: &mut Asked) {
    match call {
        CallOf::Stat { .. } => asked.take(rt, 1, &[]),
        CallOf::Readlink { .. } => asked.take(rt, 2, &[]),
        CallOf::Chmod { mode, .. } => asked.take(rt, 3, &[*mode as i128]),
        CallOf::Chown { uid, gid, .. } => asked.take(rt, 4, &[*uid as i128, *gid as i128]),
        CallOf::SetAttribute { .. } => asked.take(rt, 5, &[]),
        CallOf::GetAttribute { .. } => asked.take(rt, 6, &[]),
        CallOf::DeleteAttribute { .. } => asked.take(rt, 7, &[]),
        CallOf::ListAttributes { .. } => asked.take(rt, 8, &[]),
        CallOf::Mkdir { mode, .. } => asked.take(rt, 9, &[*mode as i128]),
        CallOf::Symlink { .. } => asked.take(rt, 10, &[]),
        CallOf::Open { flags, mode, .. } => {
            asked.take(rt, 11, &[byte_of(*flags), *mode as i128]);
        }
        CallOf::Unlink { .. } => asked.take(rt, 12, &[]),
        CallOf::Rmdir { .. } => asked.take(rt, 13, &[]),
        CallOf::Hardlink { .. } => asked.take(rt, 14, &[]),
        CallOf::Rename { .. } => asked.take(rt, 15, &[]),
        CallOf::Arm { slot, mask, .. } => asked.take(rt, 23, &[*slot as i128, *mask as i128]),
        _ => {}
    }
}

// The op and the numbers of any other call.
fn ask_of_file<P, T>(rt: &impl Abort, call: &CallOf<P, T>, asked: &mut Asked) {
    match call {
        CallOf::Read { descriptor, count } => {
            asked.take(rt, 16, &[*descriptor as i128, *count as i128]);
        }
        CallOf::Write { descriptor, .. } => asked.take(rt, 17, &[*descriptor as i128]),
        CallOf::Seek {
            descriptor,
            offset,
            whence,
        } => {
            let numbers = [*descriptor as i128, *offset as i128, *whence as i128];
            asked.take(rt, 18, &numbers);
        }
        CallOf::Truncate { descriptor, size } => {
            asked.take(rt, 19, &[*descriptor as i128, *size as i128]);
        }
        CallOf::Fstat { descriptor } => asked.take(rt, 20, &[*descriptor as i128]),
        CallOf::ListNames { descriptor, count } => {
            asked.take(rt, 21, &[*descriptor as i128, *count as i128]);
        }
        CallOf::Close { descriptor } => asked.take(rt, 22, &[*descriptor as i128]),
        CallOf::Disarm { watch } => asked.take(rt, 24, &[*watch as i128]),
        CallOf::TakeNotices { count } => asked.take(rt, 25, &[*count as i128]),
        _ => {}
    }
}

// The texts of a call, in the order of its fields.
fn ask_texts<P: AskedText, T: AskedText>(
    rt: &impl Abort,
    alloc: Global,
    call: &CallOf<P, T>,
    asked: &mut Asked,
) {
    match call {
        CallOf::Stat { path }
        | CallOf::Readlink { path }
        | CallOf::Chmod { path, .. }
        | CallOf::Chown { path, .. }
        | CallOf::ListAttributes { path }
        | CallOf::Mkdir { path, .. }
        | CallOf::Open { path, .. }
        | CallOf::Unlink { path }
        | CallOf::Rmdir { path }
        | CallOf::Arm { path, .. } => asked.take_text(rt, alloc, path),
        CallOf::SetAttribute { path, name, value } => {
            asked.take_text(rt, alloc, path);
            asked.take_text(rt, alloc, name);
            asked.take_text(rt, alloc, value);
        }
        CallOf::GetAttribute { path, name } | CallOf::DeleteAttribute { path, name } => {
            asked.take_text(rt, alloc, path);
            asked.take_text(rt, alloc, name);
        }
        CallOf::Symlink { target, path } => {
            asked.take_text(rt, alloc, target);
            asked.take_text(rt, alloc, path);
        }
        CallOf::Hardlink { old, new } | CallOf::Rename { old, new } => {
            asked.take_text(rt, alloc, old);
            asked.take_text(rt, alloc, new);
        }
        CallOf::Write { bytes, .. } => asked.take_text(rt, alloc, bytes),
        _ => {}
    }
}

// The byte of the flags of an open.
fn byte_of(flags: OpenFlags) -> i128 {
    let access = match (flags.reads, flags.writes) {
        (true, false) => 0,
        (false, true) => 1,
        (true, true) => 2,
        (false, false) => 3,
    };
    let others = [
        (flags.create, 4),
        (flags.exclusive, 8),
        (flags.truncate, 16),
        (flags.append, 32),
        (flags.directory, 64),
        (flags.unknown, 128),
    ];
    let mut byte = access;
    for (is_set, bit) in others {
        if is_set {
            byte |= bit;
        }
    }
    byte
}
