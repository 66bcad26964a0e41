// The calls that change the attributes of what a path shows: they are judged, and then made.
ghost use Rattle.std.specs.Prelude.{◌≡◌, None, Ok, Err, IfOk, MatchResult};
ghost use Rattle.ov_base.specs.AttributeChanges.{changed};
ghost use Rattle.ov_base.specs.UserValues.{set_value, drop_value};
ghost use Rattle.ov_base.specs.declared.attributes.Attributes.{Attributes};
ghost use Rattle.plain_model.specs.Changes.{with_mode};
ghost use Rattle.plain_model.specs.Layers.{Path as Names};
ghost use Rattle.plain_model.specs.Refusals.{bad_mode, bad_attribute};
ghost use Rattle.mount_calls.specs.Altering.{target_of, AltersUnless, IsTarget, Judges};
ghost use Rattle.mount_calls.specs.AttributeCalls.{asked, asking_fault, user_fault};
ghost use Rattle.mount_calls.specs.Looking.{IsLook};

use crate::attributes::attributes_of;
use crate::look::Look;
use crate::user_attributes::{has_no_room, is_unset, name_fault, value_fault};
use copy_up::alter;
use merged_lookup::{Layers, Stack, Topmost};
use ov_base::{AttributeChange, AttributeName, Bytes, Errno, Mode, Path, UserAttributes};
use std::alloc::{AllocError, Global};

/// A change of attributes that a client asks for, of what stands at a path.
#[derive(Clone, Copy)]
pub enum AttributeCall<'a> {
    /// Another mode, as chmod(2).
    Mode(u32),
    /// Another owner and group, as chown(2).
    Owner(u32, u32),
    /// A user attribute is set to a value, as setxattr(2).
    Set(&'a Bytes, &'a Bytes),
    /// A user attribute is deleted, as removexattr(2).
    Delete(&'a Bytes),
}

impl<'a> AttributeCall<'a> {
    // Why it is refused for what it asks for, whatever stands at the path: a mode of more than
    // twelve bits is EINVAL; a malformed name is EINVAL and one outside `user.` EOPNOTSUPP, and then
    // a value of over 1,024 bytes EFBIG.
    fn fault(&self) -> Option<Errno>
        ensures { result ≡ asking_fault self.now }
    {
        match self {
            AttributeCall::Mode(mode) => mode_fault(*mode),
            AttributeCall::Owner(..) => None,
            AttributeCall::Set(name, value) => value_fault(name, value),
            AttributeCall::Delete(name) => name_fault(name),
        }
    }

    // Why it is refused for the user attributes that there are: a new name where there are 64 is
    // EFBIG, and one to be deleted that isn't set ENODATA.
    fn fault_of(&self, user: &UserAttributes) -> Option<Errno>
        ensures { result ≡ user_fault self.now user.now }
    {
        match self {
            AttributeCall::Set(name, _) if has_no_room(user, name) => Some(Errno::EFBIG),
            AttributeCall::Delete(name) if is_unset(user, name) => Some(Errno::ENODATA),
            _ => None,
        }
    }

    // The change that it asks for, with copies of the name and the value.
    fn change(&self) -> Result<AttributeChange, AllocError>
        requires { asking_fault self.now ≡ None }
        ensures { IfOk result (λ x. (a : Attributes) → changed x a ≡ asked self.now a) }
    {
        match self {
            AttributeCall::Mode(mode) => Ok(mode_change(*mode)),
            AttributeCall::Owner(uid, gid) => Ok(AttributeChange::Owner(*uid, *gid)),
            AttributeCall::Set(name, value) => value_change(name, value),
            AttributeCall::Delete(name) => deletion(name),
        }
    }
}

/// Makes a call on the attributes of what `judged` found at a path, and gives the key under which
/// that stands in the upper then. With `metacopy` a file is copied up without its bytes.
pub(crate) fn alter_found(
    alloc: Global,
    layers: &mut Layers,
    path: &Path,
    found: (&Stack, Topmost),
    call: &AttributeCall,
    metacopy: bool,
) -> Result<usize, AllocError>
    requires { IsTarget layers.old path.now call.now (found.0.now, found.1) }
    ensures { AltersUnless call.now layers.old layers.new metacopy path.now result }
{
    let (directory, top) = found;
    let change = call.change()?;
    layers.lawful();
    let key = alter(alloc, layers, path, directory, top, change, metacopy)?;
    Ok(key)
}

/// What a call changes at a path that was looked at, and the merged directory in which that stands;
/// or why the call is refused. It takes no memory.
pub(crate) fn judged<'a>(
    layers: &Layers,
    look: &'a Look,
    call: &AttributeCall,
) -> Result<(&'a Stack, Topmost), Errno>
    requires { (p : Names) × IsLook layers.now p look.now }
    ensures { (p : Names) → IsLook layers.now p look.now → Judges layers.now p call.now result }
{
    if let Some(errno) = call.fault() {
        return Err(errno);
    }
    let (directory, top) = target_seen(look)?;
    let attributes = attributes_of(layers, top)?;
    match call.fault_of(&attributes.user) {
        Some(errno) => Err(errno),
        None => Ok((directory, top)),
    }
}

// What a look saw, and the merged directory in which that stands; where it saw nothing, that is
// ENOENT.
fn target_seen(look: &Look) -> Result<(&Stack, Topmost), Errno>
    ensures { MatchResult result (λ target. target_of look.now.shown ≡ Ok (target.0.now, target.1))
        (λ e. target_of look.now.shown ≡ Err e) }
{
    match &look.shown {
        Ok((directory, Some(top))) => Ok((directory, *top)),
        Ok((_, None)) => Err(Errno::ENOENT),
        Err(errno) => Err(*errno),
    }
}

/// Why a mode isn't one.
pub(crate) fn mode_fault(bits: u32) -> Option<Errno>
    ensures { result ≡ bad_mode bits }
{
    match Mode::parse(bits) {
        Ok(_) => None,
        Err(errno) => Some(errno),
    }
}

// The change of a mode.
fn mode_change(bits: u32) -> AttributeChange
    requires { bad_mode bits ≡ None }
    ensures { (a : Attributes) → changed result a ≡ with_mode bits a }
{
    let Ok(mode) = Mode::parse(bits) else {
        unreachable!()
    };
    AttributeChange::Mode(mode)
}

// The change that sets a user attribute, with copies of its name and value.
fn value_change(name: &Bytes, value: &Bytes) -> Result<AttributeChange, AllocError>
    requires { bad_attribute name.now ≡ None }
    ensures { IfOk result (λ x. (a : Attributes) → changed x a ≡ record a { user = set_value a.user name.now value.now }) }
{
    let name = AttributeName::new(name.clone()?);
    let value = value.clone()?;
    Ok(AttributeChange::Set(name, value))
}

// The change that deletes a user attribute, with a copy of its name.
fn deletion(name: &Bytes) -> Result<AttributeChange, AllocError>
    requires { bad_attribute name.now ≡ None }
    ensures { IfOk result (λ x. (a : Attributes) → changed x a ≡ record a { user = drop_value a.user name.now }) }
{
    let name = AttributeName::new(name.clone()?);
    Ok(AttributeChange::Delete(name))
}
