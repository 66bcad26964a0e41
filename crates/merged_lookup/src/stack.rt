// The directories of the layers that one merged directory is made of.
ghost use Rattle.std.specs.Prelude.{◌≡◌, ◌<◌, ◌∷◌};
ghost use Rattle.arrayvec.specs.ArrayVec.{array_vec_len};

use crate::descent::below_upper;
use crate::layers::LAYERS_MAX;
use arrayvec::ArrayVec;
use ov_base::Place;

/// Places of different layers, top first.
pub(crate) type Places = ArrayVec<Place, LAYERS_MAX>;

/// The directories of one merged directory, top first; there is at least one.
#[derive(Drop)]
pub struct Stack {
    pub(crate) places: Places,
    ghost some_place: { 0 < array_vec_len places },
}

impl Stack {
    ghost use Rattle.plain_model.specs.Layers.{Path, base};
    ghost use Rattle.layer_tree.specs.Tree.{layer_of};
    ghost use Rattle.merged_lookup.specs.declared.layers.Layers.{Layers};
    ghost use Rattle.merged_lookup.specs.Merged.{top_of, lowers_of, IsStackOf};

    /// The directory whose attributes the merged directory shows.
    pub fn top(&self) -> Place
        ensures { result ≡ top_of self.now.places.items }
    {
        self.places()[0]
    }

    /// The directories, top first.
    pub fn places(&self) -> &[Place]
        ensures { result.now ≡ self.now.places.items }
    {
        self.places.as_slice()
    }

    /// Puts the upper's new directory of a key over the directories of lower layers alone.
    pub fn put_upper(&mut self, key: usize)
        requires { array_vec_len self.old.places < 17 }
        ensures { self.new.places.items ≡ (record { layer = 0; key = key }) ∷ self.old.places.items }
    {
        self.places.insert(0, Place { layer: 0, key });
    }

    /// Whether the merged directory is base: a lower layer that is reached has a directory there.
    pub fn is_base(&self) -> bool
        ensures { (l : Layers) (p : Path) → IsStackOf l p self.now → result ≡ base (layer_of l.upper) (lowers_of l) p }
    {
        !below_upper(self.places()).is_empty()
    }
}
