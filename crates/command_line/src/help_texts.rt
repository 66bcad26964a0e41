// The longer texts of the program's help.

/// What follows the help of `show`.
pub(crate) const LINES: &str = "\
A line is KIND MODE UID GID SIZE LINKS PATH, and of a symbolic link its target. KIND is d for a
directory, f for a file and l for a symbolic link.";

/// What follows the help of `serve`.
pub(crate) const ENDED: &str = "\
It ends by --sessions, with standard input by --until-eof, or by a signal, by which what was mounted
is lost. Its socket's file stays; the next server takes its place with --unlink.";

/// What `play` does.
pub(crate) const PLAYED: &str =
    "Plays a script on the mount of a manifest, and prints what each command answers";

/// The grammar of a script, which follows the help of `play`.
pub(crate) const GRAMMAR: &str = "\
A script has a command a line, with one space between its words:
  attach | C detach | C CALL | C start CALL | C step [N] | C drop | work | layer I | merge
A CALL is one of
  stat P | readlink P | chmod MODE P | chown UID GID P | mkdir MODE P | rmdir P | unlink P
  setattr P NAME VALUE | getattr P NAME | delattr P NAME | attrs P
  symlink TARGET P | link OLD NEW | rename OLD NEW | open FLAGS P [MODE]
  read FD N | write FD DATA | seek FD OFFSET set|cur|end | truncate FD SIZE
  fstat FD | list FD N | close FD | arm SLOT MASK P | disarm WD | notices N
C is a client's number, from 0 by each attach. FLAGS is r, w or b, then any of c (make), x (new),
t (empty it), a (append), d (directory). MODE is octal, MASK hexadecimal, all else decimal.
P and other texts have \\x and two digits for a space, a backslash and what is no plain ASCII.
Empty lines and those that begin with # do nothing.";
