//! Scripts and what the slow reference answers to them, for tests alone: a manifest's mount by the
//! reference, the lines of its answers, the lines of layers as they have to be, and scripts that dice
//! make. It is proved safe alone, as the reference is, and stands on nothing of the engine but the
//! words of `ov_base` and the lines of `ov_script`.
#![tactic(auto)]

mod answers;
mod blobs;
mod contents;
mod dice;
mod entries;
mod expanded;
mod history;
mod layer_lines;
mod list;
mod manifests;
mod merged;
mod mount;
mod opening;
mod pending;
mod plain_layer;
mod playing;
mod random_calls;
mod random_limits;
mod random_steps;
mod random_watches;
mod text;
mod told_entries;
mod told_layers;
mod tree_lines;

pub use answers::{attached_line, detached_line, not_attached_line, not_taken_line, reply_line};
pub use blobs::BLOBS;
pub use dice::Dice;
pub use expanded::push_line;
pub use list::List;
pub use manifests::{Manifest, Manifests};
pub use pending::has_steps;
pub use playing::reference_difference;
pub use random_calls::{push_call, push_open_of};
pub use random_limits::{LIMIT_FILES, LIMITS, Limit, push_call_at_limit, push_open_at_limit};
pub use random_steps::{PLACES, STEP_FILES, push_turn};
pub use random_watches::{push_arm_of, push_watch_call};
pub use text::Text;
pub use tree_lines::{Tree, push_escaped, push_path, push_target, push_tree, push_words};
