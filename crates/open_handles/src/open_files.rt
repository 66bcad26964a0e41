// The files of the upper that are open.
ghost use Rattle.std.specs.Prelude.{◌≡◌, ℕ, ◌+◌, ◌-◌, ◌<◌, ◌≤◌, IsTrue, IsOk, OnOk, OnErr, ◌↔◌, nat_eq, nat_lt};
ghost use Rattle.open_handles.specs.FileHolders.{file_holders, room, HOLDERS_MAX, CountsFile, SameCounts};

use indexmap::IndexMap;
use std::alloc::{AllocError, Global};
use std::hash::RandomState;
use std::marker::Model;

/// How many handles hold each file of the upper, by its key. A file that loses its last name is
/// kept as long as a handle holds it (unlink(2)). Each call takes constant time.
#[derive(Drop)]
pub struct OpenFiles {
    table: IndexMap<usize, usize, RandomState>,
}

impl Model for OpenFiles {
    ghost use Rattle.open_handles.specs.FileHolders.{HeldFiles};

    ghost Value = { HeldFiles };

    ghost use Rattle.std.specs.Coded.{coded_ℕ};
    ghost use Rattle.indexmap.specs.Layout.{hash_map_code};
    ghost use Rattle.std.specs.contracts.random_state.RandomState as hasher;

    ghost coded = { hash_map_code coded_ℕ coded_ℕ hasher.the_row.coded };

    ghost use Rattle.open_handles.specs.FileHolders.{AreHeld};

    ghost view = { λ f. f.table };

    ghost invariant = { λ f. AreHeld f.table };
}

impl OpenFiles {
    /// No file is open. Keys of files are hashed with these keys.
    pub fn new(alloc: Global, keys: RandomState) -> OpenFiles
        ensures { (k : ℕ) → file_holders result k ≡ 0 }
    {
        OpenFiles {
            table: IndexMap::with_hasher(alloc, keys),
        }
    }

    // How many handles hold a file.
    fn holders(&self, key: usize) -> usize
        ensures { result ≡ file_holders self.now key }
    {
        match self.table.get(&key) {
            Some(holders) => *holders,
            None => 0,
        }
    }

    /// Whether a handle holds a file. Where none holds any, no key is hashed.
    pub fn is_held(&self, key: usize) -> bool
        ensures { result ≡ nat_lt 0 (file_holders self.now key) }
    {
        !self.table.is_empty() && self.holders(key) > 0
    }

    /// Whether one handle more on a file can be counted.
    pub fn is_countable(&self, key: usize) -> bool
        ensures { result ≡ nat_lt (file_holders self.now key) HOLDERS_MAX }
    {
        self.holders(key) < usize::MAX
    }

    /// Makes room for one file more, so that the next `hold` takes no memory.
    pub fn reserve(&mut self) -> Result<(), AllocError>
        ensures same { SameCounts self.old self.new }
        ensures room { OnOk result (0 < room self.new) }
        ensures kept { room self.old ≤ room self.new }
        ensures succeeds { 0 < room self.old → IsOk result }
    {
        self.table.reserve(1)
    }

    /// Counts one handle more on a file. It fails only where as many hold the file as can be
    /// counted, or when out of memory if none holds it, and changes nothing then.
    pub fn hold(&mut self, key: usize) -> Result<(), AllocError>
        ensures ok { OnOk result (CountsFile self.old self.new key (file_holders self.old key + 1)) }
        ensures countable { OnOk result (file_holders self.old key < HOLDERS_MAX) }
        ensures err { OnErr result (SameCounts self.old self.new) }
        ensures succeeds { 0 < room self.old → file_holders self.old key < HOLDERS_MAX → IsOk result }
        ensures held { 0 < file_holders self.old key → file_holders self.old key < HOLDERS_MAX → IsOk result }
        ensures room { room self.old ≤ room self.new + 1 }
    {
        match self.holders(key).checked_add(1) {
            Some(holders) => {
                self.table.insert(key, holders)?;
                Ok(())
            }
            None => Err(AllocError),
        }
    }

    /// Counts one handle less on a file, and returns whether that was the last one. It takes no
    /// memory.
    pub fn release(&mut self, key: usize) -> bool
        requires { 0 < file_holders self.old key }
        ensures counts { CountsFile self.old self.new key (file_holders self.old key - 1) }
        ensures last { result ≡ nat_eq (file_holders self.new key) 0 }
        ensures room { room self.old ≤ room self.new }
    {
        let left = self.holders(key) - 1;
        if left == 0 {
            let _ = self.table.swap_remove(&key);
        } else if let Some(holders) = self.table.get_mut(&key) {
            *holders = left;
        }
        left == 0
    }
}
