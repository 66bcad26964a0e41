//! The hooks with which the program attaches each client, and so does the engine in a process of
//! another.
#![tactic(auto)]

ghost use Rattle.std.specs.Prelude.{◌≡◌, ◌<◌, ◌^◌, IfOk, map};
ghost use Rattle.program_hooks.specs.Answering as rule;
ghost use Rattle.program_hooks.specs.Answering.{program_tags};

use ov_base::{Event, Notice};
use std::alloc::{AllocError, Global};
use watch_table::{Callback, Hook, Rule};

/// The bit of events of directories.
const ISDIR: u32 = 0x4000_0000;

/// The tags of the program's hooks, by slot.
const TAGS: [u32; 16] = [0, 0, 0, 0, 0, 0, 0, 0, 0, 0, 1, 1, 2, 2, 3, 3];

/// The callback of a tag: 0 answers each event as it is, 1 those of directories alone, 2 all others,
/// 3 each without its name, any other none.
#[derive(Clone, Copy)]
pub struct ByTag {
    tag: u32,
}

impl Callback for ByTag {
    ghost use Rattle.plain_model.specs.Watching.{IsEvent};
    ghost use Rattle.program_hooks.specs.Answering.{answer_of};

    ghost may = { λ c event. IsEvent event.now };

    ghost gives = { λ c event answer. answer ≡ answer_of c.tag event.now };

    fn answer(&self, event: &Event) -> Option<Notice> {
        answer(self.tag, event)
    }
}

/// The rule of the program's hooks: each answers what its tag says.
#[derive(Clone, Copy)]
pub struct ProgramRule;

impl Rule for ProgramRule {
    ghost use Rattle.program_hooks.specs.Answering.{answer_of};

    ghost shows = { λ tag event answer. answer ≡ answer_of tag event };
}

fn as_it_is(event: &Event) -> Notice
    requires { event.now.watch < 2 ^ 31 }
    ensures { result ≡ rule.as_it_is event.now }
{
    Notice {
        watch: event.watch as i32,
        mask: event.bits,
        cookie: event.cookie,
        name: event.name,
    }
}

fn answer(tag: u32, event: &Event) -> Option<Notice>
    requires { event.now.watch < 2 ^ 31 }
    ensures { result ≡ rule.answer_of tag event.now }
{
    let is_directory = event.bits & ISDIR != 0;
    let notice = as_it_is(event);
    match tag {
        0 => Some(notice),
        1 if is_directory => Some(notice),
        2 if !is_directory => Some(notice),
        3 => Some(Notice {
            name: None,
            ..notice
        }),
        _ => None,
    }
}

/// The program's 16 hooks by slot: ten of tag 0, and two each of tags 1, 2 and 3.
pub fn hooks_by_slot(alloc: Global) -> Result<Vec<Hook<ByTag, ProgramRule>>, AllocError>
    ensures { IfOk result (λ hooks. map (λ h. h.tag) hooks.items ≡ program_tags) }
{
    let tags = TAGS;
    let mut hooks = Vec::with_capacity(alloc, tags.len())?;
    for tag in &tags {
        hooks.push(Hook::new(*tag, ByTag { tag: *tag }))?;
    }
    Ok(hooks)
}
