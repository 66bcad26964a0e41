// The object lines of trees, as that of the slow reference.
use crate::text::Text;
use ov_base::{Name, NameList, ObjectKind, Path, Reply, Stat};
use ov_script::{Escaped, StatWords};
use plain_reference::Reference;
use std::alloc::{AllocError, Global};

/// The most objects of a tree that are printed.
const OBJECTS_MOST: u32 = 1_000_000;

/// A tree that can be told, object by object.
pub trait Tree {
    /// Appends the line of what stands at a path, if anything does.
    fn push_object(&self, alloc: Global, path: &Path, lines: &mut Text);

    /// The names in the directory at a path, in the order of their bytes; elsewhere none.
    fn names_at(&self, alloc: Global, path: &Path) -> Result<NameList, AllocError>;
}

impl Tree for Reference {
    fn push_object(&self, alloc: Global, path: &Path, lines: &mut Text) {
        match status_at(self, path) {
            Ok(Some(stat)) => {
                push_words(alloc, stat, lines);
                push_path(alloc, path, lines);
                if stat.kind == ObjectKind::SymbolicLink {
                    push_link(alloc, self, path, lines);
                }
                lines.add("\n");
            }
            Ok(None) => {}
            Err(fault) => lines.note(Err(fault)),
        }
    }

    fn names_at(&self, _alloc: Global, path: &Path) -> Result<NameList, AllocError> {
        self.names(path)
    }
}

// The status of what the reference has at a path, if anything.
fn status_at(reference: &Reference, path: &Path) -> Result<Option<Stat>, AllocError> {
    let reply = reference.status(path)?;
    let status = match &reply {
        Reply::Status(stat) => Some(*stat),
        _ => None,
    };
    drop(reply);
    Ok(status)
}

// Appends the target of the symbolic link at a path.
fn push_link(alloc: Global, reference: &Reference, path: &Path, lines: &mut Text) {
    match reference.content(path) {
        Ok(target) => push_target(alloc, target.as_slice(), lines),
        Err(fault) => lines.note(Err(fault)),
    }
}

/// Appends the lines of the tree, depth first, each directory before what is in it, names in the order of their bytes.
pub fn push_tree<T: Tree>(alloc: Global, tree: &T, lines: &mut Text) {
    let mut left = Vec::new(alloc);
    lines.note(push_child(Path::root(alloc), &mut left));
    for _ in 0..OBJECTS_MOST {
        let Some(path) = left.pop() else {
            break;
        };
        tree.push_object(alloc, &path, lines);
        lines.note(push_children(alloc, tree, &path, &mut left));
    }
}

// Puts the paths of the names in a directory on the pile, the first name on top.
fn push_children<T: Tree>(
    alloc: Global,
    tree: &T,
    directory: &Path,
    left: &mut Vec<Path>,
) -> Result<(), AllocError> {
    let names = tree.names_at(alloc, directory)?;
    for name in names.as_slice().iter().rev() {
        push_child(child_of(alloc, directory, name)?, left)?;
    }
    Ok(())
}

fn push_child(path: Path, left: &mut Vec<Path>) -> Result<(), AllocError> {
    left.push(path)?;
    Ok(())
}

// The path of a name in a directory.
fn child_of(alloc: Global, directory: &Path, last: &Name) -> Result<Path, AllocError> {
    let mut path = Path::root(alloc);
    for name in directory.names() {
        path.push(name.clone()?)?;
    }
    path.push(last.clone()?)?;
    Ok(path)
}

/// Appends the words of an object line before its path, and a space.
pub fn push_words(alloc: Global, stat: Stat, lines: &mut Text) {
    let words = StatWords(stat);
    lines.put(format!(in alloc; "{words} "));
}

/// Appends a path as lines have it.
pub fn push_path(alloc: Global, path: &Path, lines: &mut Text) {
    if path.names().is_empty() {
        lines.add("/");
    }
    for name in path.names() {
        push_escaped(alloc, "/", name.as_slice(), lines);
    }
}

/// Appends the target of a symbolic link.
pub fn push_target(alloc: Global, target: &[u8], lines: &mut Text) {
    push_escaped(alloc, " -> ", target, lines);
}

/// Appends bytes as lines have them, behind a mark.
pub fn push_escaped(alloc: Global, mark: &str, bytes: &[u8], lines: &mut Text) {
    let escaped = Escaped(bytes);
    lines.add(mark);
    lines.put(format!(in alloc; "{escaped}"));
}
