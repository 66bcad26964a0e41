// Where an object of a layer is.

/// An object of a layer: the layer, 0 for the upper, and the key that the object has there.
#[derive(Clone, Copy, Debug, Default, PartialEq, Eq)]
pub struct Place {
    pub layer: usize,
    pub key: usize,
}
