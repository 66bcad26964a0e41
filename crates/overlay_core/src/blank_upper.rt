// The upper of a mount that is given none: it holds nothing.
ghost use Rattle.std.specs.Prelude.{◌≡◌, ◌<◌, ◌∷◌, None, IfOk, IfSome, OnErr, length, map};
ghost use Rattle.plain_model.specs.Blank.{IsBlank};
ghost use Rattle.plain_model.specs.Layers.{AreLayers, IsLayer};
ghost use Rattle.layer_tree.specs.Tree.{layer_of, layers_given};

use layer_tree::{Layer, Node, ROOT};
use std::alloc::{AllocError, Global};
use std::hash::RandomState;

/// The upper that is given, or else one that holds nothing over these lower layers.
pub fn upper_over(
    alloc: Global,
    keys: RandomState,
    upper: Option<Layer>,
    lowers: &[Layer],
) -> Result<Layer, AllocError>
    requires some { 0 < length lowers.now }
    requires layers { AreLayers (layers_given upper lowers.now) }
    ensures given { IfOk result (λ over. IfSome upper (λ given. over ≡ given)) }
    ensures blank { IfOk result (λ over. upper ≡ None → IsBlank (layer_of over) (map layer_of lowers.now)) }
    ensures layers { IfOk result (λ over. AreLayers (layer_of over ∷ map layer_of lowers.now)) }
    ensures none { OnErr result (upper ≡ None) }
{
    match upper {
        Some(upper) => Ok(upper),
        None => blank_over(alloc, keys, lowers),
    }
}

// A layer that holds nothing, whose root has the attributes of the first lower layer's.
fn blank_over(alloc: Global, keys: RandomState, lowers: &[Layer]) -> Result<Layer, AllocError>
    requires { 0 < length lowers.now }
    ensures blank { IfOk result (λ over. IsBlank (layer_of over) (map layer_of lowers.now)) }
    ensures layer { IfOk result (λ over. IsLayer (layer_of over)) }
{
    let Some(first) = lowers.first() else {
        unreachable!()
    };
    first.lawful();
    let Some(Node::Directory(root)) = first.node(ROOT) else {
        unreachable!()
    };
    let attributes = root.attributes.clone()?;
    Layer::new(alloc, keys, attributes)
}
