// Texts of TOML.
use std::fmt;
use toml_writer::write_string;

/// A text as a value of TOML.
#[derive(Clone, Copy)]
pub struct Quoted<'a>(pub &'a str);

impl fmt::Display for Quoted<'_> {
    fn fmt<W: fmt::Write>(&self, f: &mut fmt::Formatter<W>) -> fmt::Result {
        write_string(f, self.0)
    }
}
