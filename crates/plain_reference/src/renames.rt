// The call `rename`.

use crate::id::Id;
use crate::tree::Tree;
use crate::unwatched::Unwatched;
use crate::walk::{found_in, same_found};
use ov_base::{Name, Path, Reply};
use std::alloc::AllocError;

impl Tree {
    // Lets a node have a new name for an old one. What the new name led to, if anything, loses it.
    fn rename(
        &mut self,
        metacopy: bool,
        node: &Id,
        old: &Option<(Id, Name)>,
        new: &Option<(Id, Name)>,
        replaced: &Option<Id>,
    ) -> Result<(), AllocError> {
        self.lead_way(new, node)?;
        if let Some(replaced) = replaced {
            self.lose_name(replaced);
        }
        self.copy_up(metacopy, node);
        self.unlead_way(old);
        Ok(())
    }
}

impl Unwatched {
    // Moves a node from one path to another. What is there loses the name, and the handles that were opened by the old way in follow.
    fn move_node(&mut self, node: &Id, old: &Path, new: &Path) -> Result<(), AllocError> {
        let replaced = self.tree.node_at(self.alloc, new.names())?;
        let from = self.tree.way_of(self.alloc, old.names())?;
        let to = self.tree.way_of(self.alloc, new.names())?;
        self.move_way(node, &from, &to, &replaced)
    }

    // The same, where these are the ways in, and what is replaced.
    fn move_way(
        &mut self,
        node: &Id,
        from: &Option<(Id, Name)>,
        to: &Option<(Id, Name)>,
        replaced: &Option<Id>,
    ) -> Result<(), AllocError> {
        let copies = self.clients.copies(self.alloc, node, from, to)?;
        self.tree
            .rename(self.options.metacopy, node, from, to, replaced)?;
        self.settle_any(replaced);
        self.clients.re_way(node, from, copies);
        Ok(())
    }

    /// The node that a rename moves; none where both paths lead to one.
    pub(crate) fn moved(&self, old: &Path, new: &Path) -> Result<Option<Id>, AllocError> {
        let look = self.look(old)?;
        let target = self.look(new)?;
        if same_found(&look, &target) {
            return Ok(None);
        }
        Ok(found_in(look))
    }

    /// Moves what is at a path to another one, in place of what is there; where both are names of one object, nothing happens. No move is
    /// offered when the moves can't be counted any further.
    pub(crate) fn rename(&mut self, old: &Path, new: &Path) -> Result<Option<Reply>, AllocError> {
        if let Some(errno) = self.rename_refusal(old, new)? {
            return Ok(Some(Reply::Refused(errno)));
        }
        let Some(node) = self.moved(old, new)? else {
            return Ok(Some(Reply::Done));
        };
        if self.renames == u64::MAX {
            return Ok(None);
        }
        self.move_node(&node, old, new)?;
        self.renames = self.renames.saturating_add(1);
        Ok(Some(Reply::Done))
    }
}
