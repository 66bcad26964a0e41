// The lines that answer commands.
ghost use Rattle.std.specs.Prelude.{◌≡◌, ◌∷◌, ◌++◌, [], Some, OnOk, string_bytes};
ghost use Rattle.ov_server.specs.Answers.{answer_line};

use ov_base::{Errno, Reply};
use ov_script::ReplyLine;
use std::alloc::AllocError;
use std::fmt;

/// What a command comes to, but for the trees that `layer` and `merge` print.
#[derive(Drop)]
pub enum Answer {
    Attached { client: u64 },
    NotAttached { errno: Errno },
    Detached { client: u32 },
    Replied { client: u32, reply: Reply },
    /// The call was not made, for its path text or because memory ran out.
    NotTaken { client: u32, errno: Errno },
    /// The call has steps left.
    More { client: u32 },
    /// The call was dropped.
    Dropped { client: u32 },
    /// How many temps there are.
    Work { temps: u64 },
}

/// The line of an answer, without its line break.
#[derive(Clone, Copy)]
pub struct AnswerLine<'a>(pub &'a Answer);

impl fmt::Display for AnswerLine<'_> {
    ghost output = { λ l. Some (answer_line l.0.now) };

    fn fmt<W: fmt::Write>(&self, f: &mut fmt::Formatter<W>) -> fmt::Result {
        match self.0 {
            Answer::Attached { client } => write!(f, "client {client}"),
            Answer::NotAttached { errno } => {
                let errno = errno.text();
                write!(f, "not attached {errno}")
            }
            Answer::Detached { client } => write!(f, "{client} detached"),
            Answer::Replied { client, reply } => {
                let client = *client;
                let line = ReplyLine { client, reply };
                write!(f, "{line}")
            }
            Answer::NotTaken { client, errno } => {
                let errno = errno.text();
                write!(f, "{client} not taken {errno}")
            }
            Answer::More { client } => write!(f, "{client} more"),
            Answer::Dropped { client } => write!(f, "{client} dropped"),
            Answer::Work { temps } => write!(f, "work {temps}"),
        }
    }
}

/// Adds the line of an answer to a text.
pub fn write_answer(answer: &Answer, text: &mut String) -> Result<(), AllocError>
    ensures { OnOk result (string_bytes text.new ≡ string_bytes text.old ++ answer_line answer.now ++ 10 ∷ []) }
{
    let line = AnswerLine(answer);
    writeln!(text, "{line}")
}
