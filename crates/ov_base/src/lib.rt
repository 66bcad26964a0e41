//! What every crate of the engine speaks of: names, paths, numbers of refusals, attributes, calls, replies and notices.
#![tactic(auto)]

mod attribute_change;
mod attribute_name;
mod attributes;
mod bytes;
mod call;
mod cookie;
mod errno;
mod event_name;
mod link_target;
mod mode;
mod name;
mod node_id;
mod notice;
mod options;
mod path;
mod place;
mod plain;
mod redirect;
mod reply;

pub use attribute_change::AttributeChange;
pub use attribute_name::AttributeName;
pub use attributes::{Attributes, UserAttributes};
pub use bytes::{Bytes, Content, IntoBytes, Texts};
pub use call::{Call, CallOf, OpenFlags};
pub use cookie::cookie_of;
pub use errno::Errno;
pub use event_name::EventName;
pub use file_bytes::FileBytes;
pub use link_target::{LinkTarget, TARGET_MAX};
pub use mode::Mode;
pub use name::{NAME_MAX, Name, NameList, copy_names};
pub use node_id::NodeId;
pub use notice::{Event, Notice, Notices};
pub use options::{FILE_LIMIT, Options};
pub use path::{PATH_MAX, Path};
pub use place::Place;
pub use redirect::Redirect;
pub use reply::{ObjectKind, Reply, Stat};
