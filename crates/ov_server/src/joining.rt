// A mount that goes on: a saved upper over the lower layers of a manifest.
ghost use Rattle.std.specs.Prelude.{◌≡◌, codes, Some, IfErr, IfOk, OnOk, option_map, string_bytes};
ghost use Rattle.std.specs.Option.{option_and_then, unwrap_or};
ghost use Rattle.toml.specs.Data.{Data, as_array, get_member, item, no_items};
ghost use Rattle.toml.specs.View.{array_view, table_view, view};
ghost use Rattle.ov_wire.specs.ManifestLayers.{layer_items};
ghost use Rattle.ov_wire.specs.Manifests as manifests;
ghost use Rattle.ov_server.specs.GoingOn as spec;
ghost use Rattle.ov_server.specs.GoingOn.{IsRefusalOf};

use crate::fault::Fault;
use ov_wire::ManifestFault;
use std::alloc::{AllocError, Global};
use toml::{Table, Value};

/// The manifest of a mount that goes on with a saved upper: its one layer is the upper over the lower
/// layers of another manifest, of which all other keys are. What has more or less than one layer, or
/// any other key, is no saved upper.
pub fn going_on(alloc: Global, saved: Table, manifest: Table) -> Result<Table, Fault>
    ensures ok { IfOk result (λ joined. option_map (λ upper. spec.going_on upper (table_view manifest))
        (spec.layer_alone (table_view saved)) ≡ Some (table_view joined)) }
    ensures err { IfErr result (IsRefusalOf (table_view saved)) }
{
    match layer_alone(saved) {
        Some(upper) => {
            let joined = over_lowers(alloc, upper, manifest)?;
            Ok(joined)
        }
        None => {
            drop(manifest);
            Err(Fault::Upper(ManifestFault::Layers))
        }
    }
}

// The one layer of a manifest that has nothing else.
#[tactic(auto, using(crate::proofs::GoingOn::none_alone, crate::proofs::GoingOn::one_alone, crate::proofs::GoingOn::more_alone))]
fn layer_alone(mut saved: Table) -> Option<Value>
    ensures { option_map view result ≡ spec.layer_alone (table_view saved) }
{
    let first = saved.pop_first()?;
    if saved.is_empty() {
        layer_in(first)
    } else {
        None
    }
}

// The one layer of the key that has them.
fn layer_in(entry: (String, Value)) -> Option<Value>
    ensures { option_map view result ≡ spec.layer_in (string_bytes entry.0) (view entry.1) }
{
    let (key, value) = entry;
    if key.as_str() != "layer" {
        return None;
    }
    match value {
        Value::Array(layers) => alone(layers),
        _ => None,
    }
}

// The one value of an array that has no other.
#[tactic(auto, using(crate::proofs::GoingOn::one_value, crate::proofs::GoingOn::no_value))]
fn alone(mut values: Vec<Value>) -> Option<Value>
    ensures { option_map view result ≡ spec.alone (array_view values) }
{
    if values.len() == 1 {
        Some(values.remove(0))
    } else {
        None
    }
}

// A manifest with this upper over its lower layers.
fn over_lowers(alloc: Global, upper: Value, mut manifest: Table) -> Result<Table, AllocError>
    ensures { IfOk result (λ joined. table_view joined ≡ spec.going_on (view upper) (table_view manifest)) }
{
    let has_upper = has_upper(&manifest);
    let own = taken_layers(alloc, &mut manifest)?;
    let joined = with_upper(upper, lowers_in(has_upper, own))?;
    put(alloc, &mut manifest, "layer", Value::Array(joined))?;
    put(alloc, &mut manifest, "upper", Value::Boolean(true))?;
    Ok(manifest)
}

// The layers of a manifest, in whose place it has something else then.
fn taken_layers(alloc: Global, manifest: &mut Table) -> Result<Vec<Value>, AllocError>
    ensures layers { IfOk result (λ layers. array_view layers ≡ layer_items (table_view manifest.old)) }
    ensures rest { OnOk result ((d : Data) × (table_view manifest.new
        ≡ spec.with_member (codes "layer") d (table_view manifest.old))) }
{
    let before = put(alloc, manifest, "layer", Value::Boolean(false))?;
    Ok(array_in(alloc, before))
}

// Puts a value at a key of a table, and gives back what was there.
fn put(
    alloc: Global,
    table: &mut Table,
    name: &str,
    value: Value,
) -> Result<Option<Value>, AllocError>
    ensures put { OnOk result (table_view table.new
        ≡ spec.with_member name.now (view value) (table_view table.old)) }
    ensures before { IfOk result (λ before. option_map view before
        ≡ get_member name.now (table_view table.old)) }
{
    let key = String::from_str(alloc, name)?;
    let before = table.insert(key, value)?;
    Ok(before)
}

// The values of an array, and none of what is no array.
fn array_in(alloc: Global, value: Option<Value>) -> Vec<Value>
    ensures { array_view result
        ≡ unwrap_or (option_and_then as_array (option_map view value)) no_items }
{
    match value {
        Some(Value::Array(values)) => values,
        _ => Vec::new(alloc),
    }
}

// The lower ones of these layers, of which the first may be an upper.
fn lowers_in(has_upper: bool, mut layers: Vec<Value>) -> Vec<Value>
    ensures { array_view result ≡ spec.lowers_in has_upper (array_view layers) }
{
    if !has_upper || layers.is_empty() {
        return layers;
    }
    drop(layers.remove(0));
    layers
}

// These layers under an upper.
fn with_upper(upper: Value, mut layers: Vec<Value>) -> Result<Vec<Value>, AllocError>
    ensures { IfOk result (λ joined. array_view joined ≡ item (view upper) (array_view layers)) }
{
    layers.insert(0, upper)?;
    Ok(layers)
}

// Whether a manifest has an upper; without the key it has.
fn has_upper(manifest: &Table) -> bool
    ensures { result ≡ manifests.has_upper (table_view manifest.now) }
{
    upper_at(manifest).and_then(Value::as_bool).unwrap_or(true)
}

fn upper_at(manifest: &Table) -> Option<&Value>
    ensures { option_map (λ v. view v.now) result ≡ get_member (codes "upper") (table_view manifest.now) }
{
    manifest.get("upper")
}
