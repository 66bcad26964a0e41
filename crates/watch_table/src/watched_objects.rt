// The clients that watch each object.
ghost use Rattle.std.specs.Prelude.{◌≡◌, ℕ, ◌<◌, ◌∷◌, ◌++◌, [], OnOk, OnErr, filter, length, nat_eq};
ghost use Rattle.watch_table.specs.Clients.{watches};
ghost use Rattle.watch_table.specs.Watched.{watchers_of, SetsWatchers, SameWatchers};

use crate::hook::{Callback, Rule};
use crate::listeners::Listeners;
use std::alloc::{AllocError, Global};
use std::marker::Model;

// The clients that watch one object, by their numbers.
#[derive(Drop)]
struct Watchers {
    clients: Vec<u64>,
}

impl Model for Watchers {
    ghost use Rattle.std.specs.Prelude.{List, ℕ};
    ghost use Rattle.std.specs.Coded.{coded_ℕ, coded_list};

    ghost Value = { List ℕ };

    ghost coded = { coded_list coded_ℕ };

    ghost view = { λ w. w.clients.items };
}

impl Watchers {
    // Nobody.
    fn none(alloc: Global) -> Watchers
        ensures { result ≡ [] }
    {
        Watchers {
            clients: Vec::new(alloc),
        }
    }

    fn add(&mut self, client: u64) -> Result<(), AllocError>
        ensures ok { OnOk result (self.new ≡ self.old ++ client ∷ []) }
        ensures err { OnErr result (self.new ≡ self.old) }
    {
        self.clients.push(client)?;
        Ok(())
    }

    // Only those stay that still have a watch on the object; the memory of the others is given back.
    fn keep<F: Callback, R: Rule>(&mut self, listeners: &Listeners<F, R>, object: u64)
        ensures { self.new ≡ filter (watches listeners.now object) self.old }
    {
        self.clients
            .retain(|client| listeners.is_watching(*client, object));
        self.clients.shrink_to_fit();
    }

    fn as_slice(&self) -> &[u64]
        ensures { result.now ≡ self.now }
    {
        self.clients.as_slice()
    }
}

// The clients that watch each object, in a row by the objects' numbers, so that who is told of a change is found without a hash. A number
// is the place of its object in a table of the caller's, so the row is no longer than that table was at its longest.
#[derive(Drop)]
pub(crate) struct WatchedObjects {
    row: Vec<Watchers>,
}

impl Model for WatchedObjects {
    ghost use Rattle.watch_table.specs.Watched.{Watched};

    ghost Value = { Watched };

    ghost use Rattle.std.specs.Coded.{coded_ℕ, coded_list};

    ghost coded = { coded_list (coded_list coded_ℕ) };

    ghost view = { λ w. w.row.items };
}

impl WatchedObjects {
    // No object is watched.
    pub(crate) fn new(alloc: Global) -> WatchedObjects
        ensures { (n : ℕ) → watchers_of result n ≡ [] }
    {
        WatchedObjects {
            row: Vec::new(alloc),
        }
    }

    // The clients that watch an object.
    pub(crate) fn watchers(&self, object: u64) -> &[u64]
        ensures { result.now ≡ watchers_of self.now object }
    {
        match self.row.get(object as usize) {
            Some(watchers) => watchers.as_slice(),
            None => &[],
        }
    }

    // Makes the row so long that an object has a place in it. An allocation failure changes nothing.
    fn reach(&mut self, alloc: Global, object: u64) -> Result<(), AllocError>
        ensures same { SameWatchers self.old self.new }
        ensures ok { OnOk result (object < length self.new) }
    {
        let places = (object as usize).checked_add(1).ok_or(AllocError)?;
        if self.row.len() < places {
            self.row.resize_with(places, || Watchers::none(alloc))?;
        }
        Ok(())
    }

    // One client more watches an object. An allocation failure changes nothing that is seen.
    pub(crate) fn add(&mut self, alloc: Global, object: u64, client: u64) -> Result<(), AllocError>
        ensures ok { OnOk result (SetsWatchers self.old self.new object (watchers_of self.old object ++ client ∷ [])) }
        ensures err { OnErr result (SameWatchers self.old self.new) }
    {
        self.reach(alloc, object)?;
        self.row[object as usize].add(client)
    }

    // Of the clients that watched an object, those stay that still do. It takes no memory.
    pub(crate) fn refresh<F: Callback, R: Rule>(&mut self, listeners: &Listeners<F, R>, object: u64)
        ensures { SetsWatchers self.old self.new object (filter (watches listeners.now object) (watchers_of self.old object)) }
    {
        if let Some(watchers) = self.row.get_mut(object as usize) {
            watchers.keep(listeners, object);
        }
    }
}
