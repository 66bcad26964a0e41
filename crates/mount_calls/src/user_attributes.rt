// User attributes: why they are refused, and those of what a path shows.
ghost use Rattle.std.specs.Prelude.{◌≡◌, ◌&&◌, not, None, Some, IfOk, IfErr, OnErr, OnOk, is_none, length, map, nat_lt};
ghost use Rattle.std.specs.Result.{result_err};
ghost use Rattle.ov_base.specs.AttributeNames.{attribute_of};
ghost use Rattle.ov_base.specs.UserValues.{value_of};
ghost use Rattle.plain_model.specs.Layers.{shows};
ghost use Rattle.plain_model.specs.Refusals.{bad_attribute, when};
ghost use Rattle.mount_laws.specs.Attributes.{chown_fault, get_fault, shown_user};
ghost use Rattle.mount_laws.specs.Looks.{or_else};
ghost use Rattle.merged_lookup.specs.Merged.{layers_of};

use crate::attributes::attributes_at;
use merged_lookup::Layers;
use ov_base::{AttributeName, Bytes, Errno, Path, Texts, UserAttributes};
use std::alloc::{AllocError, Global};

/// The most bytes of a user attribute's value.
const VALUE_MAX: usize = 1024;

/// The most user attributes of an object.
const ATTRIBUTES_MAX: usize = 64;

/// Why a user attribute isn't set, whatever a path shows: a malformed name is EINVAL and one outside
/// `user.` EOPNOTSUPP; then a value of over 1,024 bytes is EFBIG.
pub(crate) fn value_fault(name: &Bytes, value: &Bytes) -> Option<Errno>
    ensures { result ≡ or_else (bad_attribute name.now) (when (nat_lt 1024 (length value.now)) Errno.EFBIG) }
{
    if let Some(errno) = name_fault(name) {
        return Some(errno);
    }
    if value.as_slice().len() > VALUE_MAX {
        return Some(Errno::EFBIG);
    }
    None
}

/// The value of a user attribute of what a path shows, as getxattr(2). A malformed name is EINVAL and one outside `user.` EOPNOTSUPP; then
/// it is refused as `chown` is; then a name that isn't set is ENODATA.
pub(crate) fn get_attribute(
    layers: &Layers,
    path: &Path,
    name: &Bytes,
) -> Result<Result<Bytes, Errno>, AllocError>
    ensures refused { IfOk result (λ r. IfErr r (λ e. get_fault (layers_of layers.now) path.now name.now ≡ Some e)) }
    ensures allowed { IfOk result (λ r. OnOk r (get_fault (layers_of layers.now) path.now name.now ≡ None)) }
    ensures judged { OnErr result (get_fault (layers_of layers.now) path.now name.now ≡ None) }
    ensures value { IfOk result (λ r. IfOk r (λ v. value_of (shown_user (shows 0 (layers_of layers.now) path.now)) name.now ≡ Some v)) }
{
    if let Some(errno) = name_fault(name) {
        return Ok(Err(errno));
    }
    let attributes = match attributes_at(layers, path) {
        Ok(attributes) => attributes,
        Err(errno) => return Ok(Err(errno)),
    };
    match attributes.user.get(name.as_slice()) {
        Some(value) => Ok(Ok(value.clone()?)),
        None => Ok(Err(Errno::ENODATA)),
    }
}

/// The names of the user attributes of what a path shows, in the order in which they were set, as listxattr(2). It is refused as `chown`
/// is.
pub(crate) fn list_attributes(
    alloc: Global,
    layers: &Layers,
    path: &Path,
) -> Result<Result<Texts, Errno>, AllocError>
    ensures refused { IfOk result (λ r. IfErr r (λ e. chown_fault (layers_of layers.now) path.now ≡ Some e)) }
    ensures allowed { IfOk result (λ r. OnOk r (chown_fault (layers_of layers.now) path.now ≡ None)) }
    ensures judged { OnErr result (chown_fault (layers_of layers.now) path.now ≡ None) }
    ensures names { IfOk result (λ r. IfOk r (λ names. names ≡ map (λ x. x.0) (shown_user (shows 0 (layers_of layers.now) path.now)))) }
{
    match attributes_at(layers, path) {
        Ok(attributes) => Ok(Ok(attributes.user.names(alloc)?)),
        Err(errno) => Ok(Err(errno)),
    }
}

/// Why a user attribute's name isn't one.
pub(crate) fn name_fault(name: &Bytes) -> Option<Errno>
    ensures refusal { result ≡ bad_attribute name.now }
    ensures name { result ≡ result_err (attribute_of name.now) }
{
    AttributeName::fault(name.as_slice())
}

/// Whether none of these user attributes has this name.
pub(crate) fn is_unset(user: &UserAttributes, name: &Bytes) -> bool
    ensures { result ≡ is_none (value_of user.now name.now) }
{
    user.get(name.as_slice()).is_none()
}

/// Whether this name would be one too many.
pub(crate) fn has_no_room(user: &UserAttributes, name: &Bytes) -> bool
    ensures { result ≡ (is_none (value_of user.now name.now) && not (nat_lt (length user.now) 64)) }
{
    user.len() >= ATTRIBUTES_MAX && is_unset(user, name)
}
