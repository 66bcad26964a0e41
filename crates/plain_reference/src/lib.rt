//! A slow reference of the plain machine, for tests alone: one tree, its clients, their handles and
//! their watches, in ordinary values. It is proved safe alone: no contract says what it answers,
//! which is an opinion of its own. Nothing in the engine stands on it, and it stands on nothing of
//! the engine but the words of `ov_base`.
#![tactic(auto)]

mod answering;
mod attributes;
mod bits;
mod builder;
mod calls;
mod changes;
mod clients;
mod content;
mod directories;
mod files;
mod handle_refusals;
mod handles;
mod id;
mod instance;
mod instances;
mod names;
mod node;
mod open_refusals;
mod opens;
mod options;
mod queue;
mod reference;
mod refusals;
mod rename_refusals;
mod renames;
mod runs;
mod sights;
mod subject;
mod telling;
mod tellings;
mod tree;
mod unwatched;
mod user_attributes;
mod view;
mod walk;
mod watch;
mod watches;
mod ways;

pub use builder::Builder;
pub use content::Content;
pub use node::Origin;
pub use options::MountOptions;
pub use reference::Reference;
