// Changes of an object's attributes.
ghost use Rattle.std.specs.Prelude.{◌≡◌, IfOk, IsOk, OnErr};
ghost use Rattle.ov_base.specs.AttributeChanges.{TakesNoMemory, changed};

use crate::attribute_name::AttributeName;
use crate::attributes::Attributes;
use crate::bytes::Bytes;
use crate::mode::Mode;
use std::alloc::AllocError;

/// A change of an object's attributes, as chmod(2), chown(2), setxattr(2) and removexattr(2) make it.
#[derive(Drop)]
pub enum AttributeChange {
    /// Another mode.
    Mode(Mode),
    /// Another owner and group.
    Owner(u32, u32),
    /// A user attribute is set to a value.
    Set(AttributeName, Bytes),
    /// A user attribute is deleted.
    Delete(AttributeName),
}

impl AttributeChange {
    /// Makes the change. It fails only when out of memory for a new user attribute, and changes
    /// nothing then.
    pub fn apply(self, attributes: &mut Attributes) -> Result<(), AllocError>
        ensures ok { IfOk result (λ _. attributes.new ≡ changed self attributes.old) }
        ensures err { OnErr result (attributes.new ≡ attributes.old) }
        ensures succeeds { TakesNoMemory self attributes.old → IsOk result }
    {
        match self {
            AttributeChange::Mode(mode) => attributes.mode = mode,
            AttributeChange::Owner(uid, gid) => {
                attributes.uid = uid;
                attributes.gid = gid;
            }
            AttributeChange::Set(name, value) => attributes.user.set(name.into_bytes(), value)?,
            AttributeChange::Delete(name) => attributes.user.remove(name.as_bytes().as_slice()),
        }
        Ok(())
    }
}
