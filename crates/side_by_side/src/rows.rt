// Rows of a data file: a manifest, a script, and the lines that both have to answer.
use script_reference::push_line;
use std::alloc::{AllocError, Global};

/// A row. Without a script it is a `show` of the manifest.
#[derive(Drop)]
pub struct Row<'a> {
    pub name: &'a str,
    pub manifest: Vec<u8>,
    pub script: Option<Vec<u8>>,
    pub wanted: Vec<u8>,
}

#[derive(Clone, Copy)]
enum Section {
    Name,
    Manifest,
    Script,
    Wanted,
}

/// The rows of a text, each from its line `== NAME` to the next one, in sections `-- manifest`, `-- script` and `-- wanted`. Before the
/// first row, and among the wanted lines, empty lines and those that begin with `#` say nothing.
pub fn rows_in<'a>(alloc: Global, text: &'a str) -> Result<Vec<Row<'a>>, AllocError> {
    let mut rows: Vec<Row<'a>> = Vec::new(alloc);
    let mut section = Section::Name;
    for line in text.lines() {
        if let Some(name) = line.strip_prefix("== ") {
            rows.push(empty_row(alloc, name))?;
            section = Section::Name;
        } else if let Some(heading) = line.strip_prefix("-- ") {
            section = section_named(heading);
        } else if let Some(row) = rows.last_mut() {
            take_line(alloc, row, section, line)?;
        }
    }
    Ok(rows)
}

fn empty_row<'a>(alloc: Global, name: &'a str) -> Row<'a> {
    let manifest = Vec::new(alloc);
    let wanted = Vec::new(alloc);
    Row {
        name,
        manifest,
        script: None,
        wanted,
    }
}

fn section_named(heading: &str) -> Section {
    match heading {
        "manifest" => Section::Manifest,
        "script" => Section::Script,
        "wanted" => Section::Wanted,
        _ => Section::Name,
    }
}

// Adds a line to a section of a row.
fn take_line(
    alloc: Global,
    row: &mut Row<'_>,
    section: Section,
    line: &str,
) -> Result<(), AllocError> {
    match section {
        Section::Name => Ok(()),
        Section::Manifest => push_line(alloc, &mut row.manifest, line),
        Section::Script => take_script_line(alloc, &mut row.script, line),
        Section::Wanted => {
            if line.is_empty() || line.starts_with('#') {
                return Ok(());
            }
            push_line(alloc, &mut row.wanted, line)
        }
    }
}

fn take_script_line(
    alloc: Global,
    script: &mut Option<Vec<u8>>,
    line: &str,
) -> Result<(), AllocError> {
    if let Some(script) = script {
        return push_line(alloc, script, line);
    }
    let mut first = Vec::new(alloc);
    push_line(alloc, &mut first, line)?;
    *script = Some(first);
    Ok(())
}
