// The program's hooks, which tests attach clients with.

use crate::bits::ISDIR;
use crate::watch::signed;
use ov_base::{Event, Notice};

fn as_it_is(event: &Event) -> Notice {
    Notice {
        watch: signed(event.watch),
        mask: event.bits,
        cookie: event.cookie,
        name: event.name,
    }
}

/// What the hook of a tag answers: 0 each event as it is, 1 those of directories alone, 2 all others, 3 each without its name, any other
/// none.
pub fn answer(tag: u32, event: &Event) -> Option<Notice> {
    let is_directory = event.bits & ISDIR != 0;
    let notice = as_it_is(event);
    match tag {
        0 => Some(notice),
        1 if is_directory => Some(notice),
        2 if !is_directory => Some(notice),
        3 => Some(Notice {
            name: None,
            ..notice
        }),
        _ => None,
    }
}
