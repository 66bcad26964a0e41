// The layers of a mount, without what is kept of them.
ghost use Rattle.std.specs.Prelude.{◌≡◌, ◌<◌, ◌≤◌};
ghost use Rattle.std.specs.Borrow.{sem};
ghost use Rattle.std.specs.Vec.{vec_len};

use layer_tree::Layer;

/// An upper layer over 1 to 16 lower ones, as contracts see them.
#[derive(Drop)]
pub struct Stacked {
    pub(crate) upper: Layer,
    pub(crate) lowers: Vec<Layer>,
    pub ghost some_lower: { 0 < vec_len lowers },
    pub ghost few_lowers: { vec_len lowers ≤ 16 },
}

impl Stacked {
    ghost use Rattle.merged_lookup.specs.Changing.{LendsStacked};

    /// The upper layer, to change it; the lower ones stay.
    pub(crate) fn upper_mut(&mut self) -> &mut Layer
        ensures value { result.now ≡ self.old.upper }
        ensures* lends { sem 𝓛 (LendsStacked self.entry result) }
    {
        &mut self.upper
    }
}
