// What a script comes to on mounts that threads share. Such a mount lends its core to nobody before
// it has ended, so where the script asks for a layer or the tree a play ends, and the next one
// begins on a new mount.
use crate::shared_clients::{Answer, Clients, is_silent};
use crate::shared_mount::SharedMount;
use crate::sights::sight_of;
use overlay_core::Core;
use script_reference::Text;
use std::alloc::{AllocError, Global};
use std::sync::Wait;
use watch_table::{Callback, Rule};

/// What a script's lines came to, up to one of them.
#[derive(Drop)]
pub struct Told {
    text: Text,
    /// Whether the history had no place for what one of them asks for.
    pub is_full: bool,
    lines: u64,
}

/// Where a play on one mount ends.
#[derive(Clone, Copy)]
pub enum Stop {
    End,
    /// At a line that asks for a layer or the tree.
    Asks,
    BadCommand,
    NoMemory,
}

impl Told {
    /// Nothing is told yet.
    pub fn new(alloc: Global) -> Told {
        Told {
            text: Text::new(alloc),
            is_full: false,
            lines: 0,
        }
    }

    /// Plays the lines from the first one on, and tells what those answer that are not told yet, up
    /// to one that asks for a layer or the tree.
    pub fn play<M: SharedMount, H: Wait>(
        &mut self,
        rt: &H,
        alloc: Global,
        mount: &mut M,
        script: &[u8],
    ) -> Stop {
        let mut clients = Clients::new(alloc);
        let mut number = 0u64;
        for line in script.split(|byte| *byte == b'\n') {
            number = number.saturating_add(1);
            let Ok(answer) = clients.answer(rt, alloc, mount, line) else {
                return Stop::NoMemory;
            };
            if number <= self.lines {
                continue;
            }
            if let Some(stop) = self.tell(answer) {
                return stop;
            }
            self.lines = number;
        }
        Stop::End
    }

    // Tells what a line answers, or why the play ends there.
    fn tell(&mut self, answer: Answer) -> Option<Stop> {
        match answer {
            Answer::Lines(lines) => self.text.add(lines.as_str()),
            Answer::NoPlace(lines) => {
                self.is_full = true;
                self.text.add(lines.as_str());
            }
            Answer::Asks => return Some(Stop::Asks),
            Answer::BadCommand => return Some(Stop::BadCommand),
        }
        None
    }

    /// Tells what the mount came to where its play ended; false where nothing is left to tell.
    pub fn end<F: Callback, R: Rule>(
        &mut self,
        alloc: Global,
        core: &Core<F, R>,
        script: &[u8],
        stop: Stop,
        is_whole: bool,
    ) -> bool {
        if !is_whole {
            self.text.add("the history has not what was done\n");
            return false;
        }
        match stop {
            Stop::End => false,
            Stop::Asks => self.tell_sights(alloc, core, script),
            Stop::BadCommand => self.tell_fault(alloc),
            Stop::NoMemory => self.end_without_memory(),
        }
    }

    // Tells what the lines that are not told yet ask for, up to one that asks for something else;
    // false where there is none.
    fn tell_sights<F: Callback, R: Rule>(
        &mut self,
        alloc: Global,
        core: &Core<F, R>,
        script: &[u8],
    ) -> bool {
        let mut number = 0u64;
        for line in script.split(|byte| *byte == b'\n') {
            number = number.saturating_add(1);
            if number <= self.lines {
                continue;
            }
            if !is_silent(line) {
                let Some(sight) = sight_of(line) else {
                    return true;
                };
                if !sight.push_lines(alloc, core, &mut self.text) {
                    return self.tell_fault(alloc);
                }
            }
            self.lines = number;
        }
        false
    }

    // The next line is at fault, and nothing is told behind it.
    fn tell_fault(&mut self, alloc: Global) -> bool {
        let line = self.lines.saturating_add(1);
        self.text
            .put(format!(in alloc; "line {line}: bad command\n"));
        false
    }

    /// Tells that there is no mount.
    pub fn end_without_mount(&mut self) -> bool {
        self.text.add("no mount\n");
        false
    }

    /// Notes that there was no memory for the rest.
    pub fn end_without_memory(&mut self) -> bool {
        self.text.note(Err(AllocError));
        false
    }

    /// All that was told, if there was memory for it.
    pub fn into_text(self) -> Result<String, AllocError> {
        let Told {
            text,
            is_full: _,
            lines: _,
        } = self;
        text.end()
    }
}
