// The listing of directories.

use crate::clients::Handle;
use crate::files::part;
use crate::handles::place_of;
use crate::node::names_in;
use crate::unwatched::Unwatched;
use ov_base::{NameList, Reply, copy_names};
use std::alloc::{AllocError, Global};

fn copied(alloc: Global, names: &NameList) -> Result<NameList, AllocError> {
    Ok(NameList::from_vec(copy_names(alloc, names.as_slice())?))
}

impl Unwatched {
    // The names that a handle lists.
    fn listing(&self, handle: Option<&Handle>) -> Result<NameList, AllocError> {
        let Some(handle) = handle else {
            return Ok(NameList::new(self.alloc));
        };
        match &handle.listed {
            Some(names) => copied(self.alloc, names),
            None => names_in(self.alloc, self.tree.node(&handle.node)),
        }
    }

    /// Lists the next names of a directory's handle, at most so many; the first call takes the listing, which stays.
    pub(crate) fn list(
        &mut self,
        client: u32,
        descriptor: u32,
        count: u32,
    ) -> Result<Reply, AllocError> {
        if let Some(errno) = self.list_refusal(client, descriptor, count) {
            return Ok(Reply::Refused(errno));
        }
        let handle = self.handle(client, descriptor);
        let names = self.listing(handle)?;
        let page = copy_names(self.alloc, part(names.as_slice(), place_of(handle), count))?;
        self.clients.keep(client, descriptor, names, count);
        Ok(Reply::Names(NameList::from_vec(page)))
    }
}
