// What callbacks are asked, what comes of their answers, and hooks that are too many.
ghost use Rattle.std.specs.Borrow.{Bor};
ghost use Rattle.ov_base.specs.declared.notice.Event.{Event};
ghost use Rattle.plain_model.specs.Watching.{IsEvent};

use crate::checks::{counts, holds, keys_of};
use crate::cores::{Answer, DEEDS_MAX, answers, attached, mounted, reply, unmount};
use crate::fixtures::{EMPTY, path};
use ov_base::{Call, Errno, Event, Notice, Reply, cookie_of};
use overlay_core::Core;
use std::alloc::Global;
use std::cell::Cell;
use std::hash::RandomState;
use std::process::Abort;
use watch_table::{AnyAnswer, Asked, Callback, Hook};

/// The bit that asks for names that come.
const CREATE: u32 = 0x100;

// How many notices a client has that watches the root by this callback, after two directories are made in it and one is removed.
fn unread_by<F: Callback + Copy>(
    rt: &impl Abort,
    alloc: Global,
    keys: RandomState,
    callback: F,
) -> usize
    requires { (e : Bor Event) → IsEvent e.now → F.may callback e }
{
    let mut hooks = Vec::new(alloc);
    hooks.push(Hook::new(0, callback)).expect(rt, "memory");
    let mut core: Core<F, AnyAnswer> = mounted(rt, alloc, keys, EMPTY);
    let unread = unread_on(rt, alloc, &mut core, hooks);
    unmount(core);
    unread
}

fn unread_on<F: Callback + Copy>(
    rt: &impl Abort,
    alloc: Global,
    core: &mut Core<F, AnyAnswer>,
    hooks: Vec<Hook<F, AnyAnswer>>,
) -> usize {
    let client = attached(rt, core, hooks);
    let root = Call::Arm {
        slot: 0,
        path: path(rt, alloc, "/"),
        mask: CREATE,
    };
    answers(rt, core, client, root, Answer::Watch(1));
    for name in ["/d", "/e"] {
        let making = Call::Mkdir {
            path: path(rt, alloc, name),
            mode: 0o755,
        };
        answers(rt, core, client, making, Answer::Done);
    }
    let removing = Call::Rmdir {
        path: path(rt, alloc, "/d"),
    };
    answers(rt, core, client, removing, Answer::Done);
    match reply(rt, core, client, Call::TakeNotices { count: 9 }) {
        Reply::Unread(notices) => notices.as_slice().len(),
        _ => panic!(rt; "another reply"),
    }
}

#[test]
fn a_callback_that_answers_none_leaves_the_queue_empty(rt: HostRuntime) {
    let silent = |_: &Event| -> Option<Notice> { None };
    let callback = Asked { function: silent };
    let unread = unread_by(&rt, rt.alloc(), keys_of(&rt), callback);
    counts(&rt, unread, 0, "notices");
}

#[test]
fn a_callback_is_asked_once_an_event(rt: HostRuntime) {
    let asked = Cell::new(0u32);
    let counting = |event: &Event| -> Option<Notice> {
        let times = asked.get().wrapping_add(1);
        asked.set(times);
        Some(Notice {
            watch: 1,
            mask: event.bits,
            cookie: times,
            name: event.name,
        })
    };
    let callback = Asked { function: counting };
    let unread = unread_by(&rt, rt.alloc(), keys_of(&rt), callback);
    holds(&rt, asked.get() == 2, "asked twice");
    counts(&rt, unread, 2, "notices");
}

// Attaches a client with 17 hooks.
fn attach_too_many<F: Callback + Copy>(
    rt: &impl Abort,
    alloc: Global,
    core: &mut Core<F, AnyAnswer>,
    callback: F,
)
    requires { (e : Bor Event) → IsEvent e.now → F.may callback e }
{
    assert!(rt; core.finished() < DEEDS_MAX);
    let mut hooks = Vec::new(alloc);
    for tag in 0..17u32 {
        hooks.push(Hook::new(tag, callback)).expect(rt, "memory");
    }
    match core.attach(hooks) {
        Ok(_) => panic!(rt; "a client with 17 hooks"),
        Err(refused) => {
            holds(rt, refused.errno == Errno::EINVAL, "EINVAL");
            counts(rt, refused.hooks.len(), 17, "hooks");
        }
    }
    holds(rt, core.finished() == 0, "nothing was done");
}

fn refuses_hooks<F: Callback + Copy>(rt: &impl Abort, alloc: Global, keys: RandomState, callback: F)
    requires { (e : Bor Event) → IsEvent e.now → F.may callback e }
{
    let mut core: Core<F, AnyAnswer> = mounted(rt, alloc, keys, EMPTY);
    attach_too_many(rt, alloc, &mut core, callback);
    unmount(core);
}

#[test]
fn seventeen_hooks_are_handed_back(rt: HostRuntime) {
    let silent = |_: &Event| -> Option<Notice> { None };
    let callback = Asked { function: silent };
    refuses_hooks(&rt, rt.alloc(), keys_of(&rt), callback);
}

#[test]
fn cookies_begin_again_at_1(rt: HostRuntime) {
    holds(&rt, cookie_of(1) == 1, "the first cookie");
    holds(&rt, cookie_of(4294967295) == 4294967295, "the last cookie");
    holds(&rt, cookie_of(4294967296) == 1, "the first cookie again");
}
