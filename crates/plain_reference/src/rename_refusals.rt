// Which renames are refused, and by which number: the first line that applies.

use crate::node::{Node, has_names, is_base, is_folder};
use crate::refusals::{is_found, is_root, there, walked, when};
use crate::tree::Tree;
use crate::unwatched::Unwatched;
use crate::walk::{Look, same_found};
use ov_base::{Errno, Path};
use std::alloc::AllocError;

// Whether a path is below another.
fn is_below(above: &Path, path: &Path) -> bool {
    let (above, names) = (above.names(), path.names());
    names.len() > above.len() && names.starts_with(above)
}

// The lines on what is moved and what it replaces.
fn replace_line(
    node: Option<&Node>,
    look: &Look,
    replaced: Option<&Node>,
    redirects: bool,
) -> Option<Errno> {
    if is_folder(node) && is_found(look) && !is_folder(replaced) {
        return Some(Errno::ENOTDIR);
    }
    if !is_folder(node) && is_folder(replaced) {
        return Some(Errno::EISDIR);
    }
    if is_base(node) && !redirects {
        return Some(Errno::EXDEV);
    }
    when(is_folder(node) && has_names(replaced), Errno::ENOTEMPTY)
}

impl Tree {
    // The lines of a rename, from the walks of its paths.
    fn rename_line(
        &self,
        redirects: bool,
        old: &Path,
        new: &Path,
        look: &Look,
        target: &Look,
    ) -> Option<Errno> {
        if is_root(old) || is_root(new) {
            return Some(Errno::EBUSY);
        }
        if let Some(errno) = there(look) {
            return Some(errno);
        }
        if let Some(errno) = walked(target) {
            return Some(errno);
        }
        if same_found(look, target) {
            return None;
        }
        if is_below(old, new) {
            return Some(Errno::EINVAL);
        }
        let node = self.node_found(look);
        let replaced = self.node_found(target);
        replace_line(node, target, replaced, redirects)
    }
}

impl Unwatched {
    pub(crate) fn rename_refusal(
        &self,
        old: &Path,
        new: &Path,
    ) -> Result<Option<Errno>, AllocError> {
        let look = self.look(old)?;
        let target = self.look(new)?;
        let lines = self
            .tree
            .rename_line(self.options.redirects, old, new, &look, &target);
        Ok(self.or_read_only(lines, !same_found(&look, &target)))
    }
}
