// A list on its way.
use std::alloc::{AllocError, Global};

/// Items that are added one behind the other. Where memory runs out for one that is told in the end
/// alone, so that who adds items has no fault to hand on.
#[derive(Drop)]
pub struct List<T> {
    items: Vec<T>,
    lacks_memory: bool,
}

impl<T: Drop> List<T> {
    /// No item.
    pub fn new(alloc: Global) -> List<T> {
        List {
            items: Vec::new(alloc),
            lacks_memory: false,
        }
    }

    /// Adds an item.
    pub fn add(&mut self, item: T) {
        if self.items.push(item).is_err() {
            self.lacks_memory = true;
        }
    }

    /// Adds an item that was made, if there was memory for it.
    pub fn put(&mut self, item: Result<T, AllocError>) {
        match item {
            Ok(item) => self.add(item),
            Err(_) => self.lacks_memory = true,
        }
    }

    /// Adds an item before all others, if there was memory for it.
    pub fn put_first(&mut self, item: Result<T, AllocError>) {
        match item {
            Ok(item) => self.insert_first(item),
            Err(_) => self.lacks_memory = true,
        }
    }

    fn insert_first(&mut self, item: T) {
        if self.items.insert(0, item).is_err() {
            self.lacks_memory = true;
        }
    }

    /// Notes whether there was no memory for something that makes items.
    pub fn note(&mut self, lacks_memory: bool) {
        self.lacks_memory = self.lacks_memory || lacks_memory;
    }

    /// Whether memory ran out so far.
    pub fn lacks_memory(&self) -> bool {
        self.lacks_memory
    }

    /// What was added.
    pub fn as_slice(&self) -> &[T] {
        self.items.as_slice()
    }

    /// Takes the last item out.
    pub fn pop(&mut self) -> Option<T> {
        self.items.pop()
    }

    /// All items.
    pub fn end(self) -> Result<Vec<T>, AllocError> {
        let List {
            items,
            lacks_memory,
        } = self;
        if lacks_memory {
            drop(items);
            Err(AllocError)
        } else {
            Ok(items)
        }
    }
}
