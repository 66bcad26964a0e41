// The lines that answer calls.
ghost use Rattle.std.specs.Prelude.{◌≡◌, ◌∷◌, Some};
ghost use Rattle.std.specs.List.{flat_map};
ghost use Rattle.ov_script.specs.Lines as lines;
ghost use Rattle.ov_script.specs.Lines.{stat_words, word_after, notice_after, answer_words, outcome_words, reply_line};

use crate::escape::Escaped;
use ov_base::{Bytes, EventName, Name, Notice, ObjectKind, Reply, Stat};
use std::fmt;

/// The first six words of an object line: kind, mode, owner, group, size and links.
#[derive(Clone, Copy)]
pub struct StatWords(pub Stat);

impl fmt::Display for StatWords {
    ghost output = { λ s. Some (stat_words s.0) };

    fn fmt<W: fmt::Write>(&self, f: &mut fmt::Formatter<W>) -> fmt::Result {
        let kind = kind_letter(self.0.kind);
        let mode = self.0.mode;
        let uid = self.0.uid;
        let gid = self.0.gid;
        let size = self.0.size;
        let links = self.0.links;
        write!(f, "{kind} {mode:04o} {uid} {gid} {size} {links}")
    }
}

fn kind_letter(kind: ObjectKind) -> char
    ensures { result ≡ lines.kind_letter kind }
{
    match kind {
        ObjectKind::Directory => 'd',
        ObjectKind::File => 'f',
        ObjectKind::SymbolicLink => 'l',
    }
}

/// The line that answers a call of a client, without its line break.
#[derive(Clone, Copy)]
pub struct ReplyLine<'a> {
    pub client: u32,
    pub reply: &'a Reply,
}

impl fmt::Display for ReplyLine<'_> {
    ghost output = { λ l. Some (reply_line l.client l.reply.now) };

    fn fmt<W: fmt::Write>(&self, f: &mut fmt::Formatter<W>) -> fmt::Result {
        let client = self.client;
        match self.reply {
            Reply::Refused(errno) => {
                let errno = errno.text();
                write!(f, "{client} {errno}")
            }
            reply => {
                let answer = AnswerWords(reply);
                write!(f, "{client} ok{answer}")
            }
        }
    }
}

// The words of an answer, each after a space.
#[derive(Clone, Copy)]
struct AnswerWords<'a>(&'a Reply);

impl fmt::Display for AnswerWords<'_> {
    ghost output = { λ a. Some (answer_words a.0.now) };

    fn fmt<W: fmt::Write>(&self, f: &mut fmt::Formatter<W>) -> fmt::Result {
        match self.0 {
            Reply::Refused(_) | Reply::Done => Ok(()),
            Reply::Status(status) => {
                let status = StatWords(*status);
                write!(f, " {status}")
            }
            Reply::Target(bytes) | Reply::Value(bytes) | Reply::Read(bytes) => {
                let word = Escaped(bytes.as_slice());
                write!(f, " {word}")
            }
            Reply::Names(names) => {
                let names = NameWords(names.as_slice());
                write!(f, "{names}")
            }
            Reply::AttributeNames(names) => {
                let names = TextWords(names.as_slice());
                write!(f, "{names}")
            }
            Reply::Descriptor(number) => write!(f, " {number}"),
            Reply::Written(count) => write!(f, " {count}"),
            Reply::Place(place) => write!(f, " {place}"),
            Reply::Watch(number) => write!(f, " {number}"),
            Reply::Unread(notices) => {
                let notices = NoticeWords(notices.as_slice());
                write!(f, "{notices}")
            }
        }
    }
}

#[derive(Clone, Copy)]
struct NameWords<'a>(&'a [Name]);

impl fmt::Display for NameWords<'_> {
    ghost output = { λ w. Some (flat_map word_after w.0.now) };

    fn fmt<W: fmt::Write>(&self, f: &mut fmt::Formatter<W>) -> fmt::Result {
        for name in self.0 {
            let word = Escaped(name.as_slice());
            write!(f, " {word}")?;
        }
        Ok(())
    }
}

#[derive(Clone, Copy)]
struct TextWords<'a>(&'a [Bytes]);

impl fmt::Display for TextWords<'_> {
    ghost output = { λ w. Some (flat_map word_after w.0.now) };

    fn fmt<W: fmt::Write>(&self, f: &mut fmt::Formatter<W>) -> fmt::Result {
        for text in self.0 {
            let word = Escaped(text.as_slice());
            write!(f, " {word}")?;
        }
        Ok(())
    }
}

#[derive(Clone, Copy)]
struct NoticeWords<'a>(&'a [Notice]);

impl fmt::Display for NoticeWords<'_> {
    ghost output = { λ w. Some (flat_map notice_after w.0.now) };

    fn fmt<W: fmt::Write>(&self, f: &mut fmt::Formatter<W>) -> fmt::Result {
        for notice in self.0 {
            let word = NoticeWord(notice);
            write!(f, " {word}")?;
        }
        Ok(())
    }
}

// `WATCH:MASK:COOKIE:NAME`.
#[derive(Clone, Copy)]
struct NoticeWord<'a>(&'a Notice);

impl fmt::Display for NoticeWord<'_> {
    ghost output = { λ w. Some (lines.notice_word w.0.now) };

    fn fmt<W: fmt::Write>(&self, f: &mut fmt::Formatter<W>) -> fmt::Result {
        let watch = self.0.watch;
        let mask = self.0.mask;
        let cookie = self.0.cookie;
        let name = NoticeName(&self.0.name);
        write!(f, "{watch}:{mask:08x}:{cookie}:{name}")
    }
}

#[derive(Clone, Copy)]
struct NoticeName<'a>(&'a Option<EventName>);

impl fmt::Display for NoticeName<'_> {
    ghost output = { λ n. Some (lines.notice_name n.0.now) };

    fn fmt<W: fmt::Write>(&self, f: &mut fmt::Formatter<W>) -> fmt::Result {
        let word = match self.0 {
            Some(name) => Escaped(name.as_bytes()),
            None => Escaped(&[]),
        };
        write!(f, "{word}")
    }
}
