// The names of a path as one layer after the other spells them.
ghost use Rattle.std.specs.Prelude.{◌≡◌, ◌∷◌, ◌++◌, [], MatchOption};
ghost use Rattle.merged_lookup.specs.Passing.{holds_under, directory_key, passed};
ghost use Rattle.merged_lookup.specs.Cursors.{spelled};

use crate::onward::{Onward, onward_under};
use layer_tree::Layer;
use ov_base::Name;

// What one layer hands to those below: first names of its own, then those that come from above, each as this layer spells it.
#[derive(Clone, Copy)]
pub(crate) struct Cursor<'a> {
    pub(crate) layer: &'a Layer,
    // The directory that the layer has at the names so far that came from above, or none.
    pub(crate) dir: Option<usize>,
    // The names of its own that are left.
    pub(crate) names: &'a [Name],
}

impl<'a> Cursor<'a> {
    // The next of its own names.
    fn own(&mut self) -> Option<&'a Name>
        ensures names { MatchOption result ((self.old.names.now ≡ []) × (self.new.names.now ≡ [])) (λ name. self.old.names.now ≡ name.now ∷ self.new.names.now) }
        ensures layer { self.new.layer ≡ self.old.layer }
        ensures dir { self.new.dir ≡ self.old.dir }
    {
        let names = self.names;
        let (name, rest) = names.split_first()?;
        self.names = rest;
        Some(name)
    }

    // A name from above, as this layer spells it.
    fn pass(&mut self, name: &'a Name) -> &'a Name
        ensures name { result.now ≡ passed (holds_under self.old.layer.now self.old.dir name.now) name.now }
        ensures dir { self.new.dir ≡ directory_key (holds_under self.old.layer.now self.old.dir name.now) }
        ensures layer { self.new.layer ≡ self.old.layer }
        ensures names { self.new.names ≡ self.old.names }
    {
        let (dir, spelled) = match onward_under(self.layer, self.dir, name) {
            Onward::Through | Onward::Whiteout | Onward::Inode(_) => (None, name),
            Onward::Last(key) | Onward::From(key, _) => (Some(key), name),
            Onward::By(key, other) => (Some(key), other),
        };
        self.dir = dir;
        spelled
    }
}

// The next name that a row of cursors spells, the lowest layer's cursor first.
pub(crate) fn next_name<'a>(row: &mut [Cursor<'a>]) -> Option<&'a Name>
    ensures { MatchOption result (spelled row.old ≡ []) (λ name. spelled row.old ≡ name.now ∷ spelled row.new) }
{
    if row.is_empty() {
        return None;
    }
    if let Some(name) = row[0].own() {
        return Some(name);
    }
    let name = next_name(&mut row[1..])?;
    Some(row[0].pass(name))
}
