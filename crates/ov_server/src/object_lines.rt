// The lines of objects.
ghost use Rattle.std.specs.Prelude.{Some, option_map};
ghost use Rattle.ov_server.specs.Objects as objects;
ghost use Rattle.ov_server.specs.Objects.{path_text, object_line, whiteout_line, words_after, mark_words, metacopy_words, redirect_text, redirect_words};

use layer_tree::{Marks, Node};
use mount_calls::status_of;
use ov_base::{Content, Name, Path, Redirect, Stat};
use ov_script::{Escaped, StatWords};
use std::fmt;

/// The text of the path of these names from the root.
#[derive(Clone, Copy)]
pub struct PathText<'a>(pub &'a [Name]);

impl fmt::Display for PathText<'_> {
    ghost output = { λ p. Some (path_text p.0.now) };

    fn fmt<W: fmt::Write>(&self, f: &mut fmt::Formatter<W>) -> fmt::Result {
        if self.0.is_empty() {
            return write!(f, "/");
        }
        for name in self.0 {
            let name = Escaped(name.as_slice());
            write!(f, "/{name}")?;
        }
        Ok(())
    }
}

/// The line of an object of a layer at a path, without its line break, with the size that it shows; `with_marks` adds the marks of a
/// directory or a file.
#[derive(Clone, Copy)]
pub struct ObjectLine<'a> {
    pub node: &'a Node,
    pub size: u64,
    pub path: &'a [Name],
    pub with_marks: bool,
}

impl fmt::Display for ObjectLine<'_> {
    ghost output = { λ l. Some (object_line l.with_marks l.node.now l.size l.path.now) };

    fn fmt<W: fmt::Write>(&self, f: &mut fmt::Formatter<W>) -> fmt::Result {
        let status = StatWords(Stat {
            size: self.size,
            ..status_of(self.node)
        });
        let path = PathText(self.path);
        let words = WordsAfter {
            node: self.node,
            with_marks: self.with_marks,
        };
        write!(f, "{status} {path}{words}")
    }
}

/// The line of a whiteout at a path, without its line break.
#[derive(Clone, Copy)]
pub struct WhiteoutLine<'a>(pub &'a [Name]);

impl fmt::Display for WhiteoutLine<'_> {
    ghost output = { λ l. Some (whiteout_line l.0.now) };

    fn fmt<W: fmt::Write>(&self, f: &mut fmt::Formatter<W>) -> fmt::Result {
        let path = PathText(self.0);
        write!(f, "c 0000 0 0 0 1 {path}")
    }
}

// What follows the path: the target of a symbolic link, and the marks of a directory or a file.
#[derive(Clone, Copy)]
struct WordsAfter<'a> {
    node: &'a Node,
    with_marks: bool,
}

impl fmt::Display for WordsAfter<'_> {
    ghost output = { λ w. Some (words_after w.with_marks w.node.now) };

    fn fmt<W: fmt::Write>(&self, f: &mut fmt::Formatter<W>) -> fmt::Result {
        match self.node {
            Node::Directory(directory) => {
                if self.with_marks {
                    let marks = MarkWords(&directory.marks);
                    write!(f, "{marks}")
                } else {
                    Ok(())
                }
            }
            Node::Inode(inode) => {
                let target = TargetWords(&inode.content);
                if self.with_marks {
                    let mark = MetacopyWords(&inode.mark);
                    write!(f, "{target}{mark}")
                } else {
                    write!(f, "{target}")
                }
            }
        }
    }
}

#[derive(Clone, Copy)]
struct TargetWords<'a>(&'a Content);

impl fmt::Display for TargetWords<'_> {
    ghost output = { λ w. Some (objects.target_words w.0.now) };

    fn fmt<W: fmt::Write>(&self, f: &mut fmt::Formatter<W>) -> fmt::Result {
        match self.0 {
            Content::File(_) => Ok(()),
            Content::SymbolicLink(target) => {
                let target = Escaped(target.as_bytes().as_slice());
                write!(f, " -> {target}")
            }
        }
    }
}

#[derive(Clone, Copy)]
struct MetacopyWords<'a>(&'a Option<Box<Path>>);

impl fmt::Display for MetacopyWords<'_> {
    ghost output = { λ m. Some (metacopy_words (option_map (λ b. b.value) m.0.now)) };

    fn fmt<W: fmt::Write>(&self, f: &mut fmt::Formatter<W>) -> fmt::Result {
        match self.0 {
            None => Ok(()),
            Some(path) => {
                let path = PathText(path.names());
                write!(f, " metacopy {path}")
            }
        }
    }
}

#[derive(Clone, Copy)]
struct MarkWords<'a>(&'a Marks);

impl fmt::Display for MarkWords<'_> {
    ghost output = { λ m. Some (mark_words m.0.now) };

    fn fmt<W: fmt::Write>(&self, f: &mut fmt::Formatter<W>) -> fmt::Result {
        let opaque = if self.0.opaque { " opaque" } else { "" };
        let redirect = RedirectWords(&self.0.redirect);
        write!(f, "{opaque}{redirect}")
    }
}

#[derive(Clone, Copy)]
struct RedirectWords<'a>(&'a Option<Redirect>);

impl fmt::Display for RedirectWords<'_> {
    ghost output = { λ r. Some (redirect_words r.0.now) };

    fn fmt<W: fmt::Write>(&self, f: &mut fmt::Formatter<W>) -> fmt::Result {
        match self.0 {
            None => Ok(()),
            Some(redirect) => {
                let text = RedirectText(redirect);
                write!(f, " redirect {text}")
            }
        }
    }
}

#[derive(Clone, Copy)]
struct RedirectText<'a>(&'a Redirect);

impl fmt::Display for RedirectText<'_> {
    ghost output = { λ r. Some (redirect_text r.0.now) };

    fn fmt<W: fmt::Write>(&self, f: &mut fmt::Formatter<W>) -> fmt::Result {
        match self.0 {
            Redirect::Absolute(path) => {
                let path = PathText(path.names());
                write!(f, "{path}")
            }
            Redirect::Single(name) => {
                let name = Escaped(name.as_slice());
                write!(f, "{name}")
            }
        }
    }
}
