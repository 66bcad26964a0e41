// A path as a layer spells it, by the layers above.
ghost use Rattle.std.specs.Prelude.{◌≡◌, ◌+◌, ◌<◌};

use crate::cursor::{Cursor, next_name};
use crate::layers::LAYERS_MAX;
use layer_tree::Layer;
use ov_base::Name;

// One cursor for each layer, and one for the path.
const CURSORS_MAX: usize = LAYERS_MAX + 1;

// The names of a path that are to come, as a layer spells it: a row of cursors, the lowest layer's first.
#[derive(Clone, Copy)]
pub(crate) struct Spelling<'a> {
    cursors: [Cursor<'a>; CURSORS_MAX],
    // Where the row begins.
    pub(crate) first: usize,
}

impl<'a> Spelling<'a> {
    ghost use Rattle.std.specs.Prelude.{◌∷◌, ◌++◌, [], MatchOption, Some};
    ghost use Rattle.merged_lookup.specs.Passing.{pass};
    ghost use Rattle.merged_lookup.specs.Spelling.{names_of, IsRow};

    // These names, which no layer spells yet.
    pub(crate) fn new(layer: &'a Layer, names: &'a [Name]) -> Spelling<'a>
        ensures names { names_of result ≡ names.now }
        ensures first { result.first ≡ 17 }
        ensures row { IsRow result }
    {
        let path = Cursor {
            layer,
            dir: None,
            names,
        };
        Spelling {
            cursors: [path; CURSORS_MAX],
            first: CURSORS_MAX - 1,
        }
    }

    // The next name.
    pub(crate) fn next(&mut self) -> Option<&'a Name>
        requires { IsRow self.old }
        ensures names { MatchOption result (names_of self.old ≡ []) (λ name. names_of self.old ≡ name.now ∷ names_of self.new) }
        ensures first { self.new.first ≡ self.old.first }
        ensures row { IsRow self.new }
    {
        let first = self.first;
        let row = &mut self.cursors[..];
        next_name(&mut row[first..])
    }

    // For the next layer: these names, and then those of this spelling, as the layer spells them that has this directory so far.
    pub(crate) fn below(&self, layer: &'a Layer, dir: usize, names: &'a [Name]) -> Spelling<'a>
        requires some { 0 < self.now.first }
        requires row { IsRow self.now }
        ensures names { names_of result ≡ names.now ++ pass layer.now (Some dir) (names_of self.now) }
        ensures first { result.first + 1 ≡ self.now.first }
        ensures row { IsRow result }
    {
        let first = self.first - 1;
        let mut cursors = self.cursors;
        cursors[first] = Cursor {
            layer,
            dir: Some(dir),
            names,
        };
        Spelling { cursors, first }
    }
}
