//! Look-up through the layers of an overlay mount: one upper layer over 1 to 16 lower ones, with whiteouts, opaque directories and
//! redirects.
#![tactic(auto)]

mod asked;
mod below;
mod candidate;
mod contents;
mod crossing;
mod cursor;
mod descent;
mod faults;
mod found;
mod kept;
mod layers;
mod locate;
mod marked;
mod numbered;
mod onward;
mod paths;
mod remembered;
mod spelling;
mod stack;
mod stacked;
mod trail;

pub use found::{Found, Parent, Topmost};
pub use layers::{LAYERS_MAX, Layers};
pub use marked::low_file_in;
pub use stack::Stack;
pub use stacked::Stacked;
