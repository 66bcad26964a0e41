// Why layers are no mount.
ghost use Rattle.std.specs.Prelude.{◌≡◌, ◌&&◌, not, ◌≤◌, ◌↔◌, Any, IsTrue, MatchOption, Some, length, map, option_copied, option_map};
ghost use Rattle.layer_tree.specs.Tree.{HasMark, layer_of};
ghost use Rattle.overlay_core.specs.Marks.{goes_astray};
ghost use Rattle.overlay_core.specs.Mounting.{mount_fault, IsAstray, IsBadMetacopy, IsFault, IsMountable};

use layer_tree::{Inode, Layer, Node};
use merged_lookup::low_file_in;
use ov_base::Options;

/// The most lower layers of a mount.
const LOWERS_MAX: usize = 16;

/// The fewest lower layers of a mount without an upper.
const LOWERS_ALONE_MIN: usize = 2;

/// The least and the greatest length of a history.
const HISTORY_MIN: u32 = 2;

const HISTORY_MAX: u32 = 1_000_000;

/// Why layers are no mount, the first of these: no lower layer, or fewer than two without an upper,
/// over 16, a history that isn't 2 to 1,000,000 long, or `metacopy` without `redirects`, or marks of
/// files without bytes of their own in a lower layer or where the lower layers show no file. Without
/// an upper `metacopy` makes no marks, and needs no redirects.
#[derive(Clone, Copy, Debug, PartialEq, Eq)]
pub enum MountFault {
    NoLower,
    TooManyLowers,
    BadHistory,
    BadMetacopy,
}

// Why an upper, if there is one, over these layers is no mount.
pub(crate) fn fault_of(
    upper: Option<&Layer>,
    lowers: &[Layer],
    options: Options,
) -> Option<MountFault>
    ensures { MatchOption result
        (IsMountable (length lowers.now) options (option_map layer_of (option_copied upper.entry)) (map layer_of lowers.now))
        (IsFault (length lowers.now) options (option_map layer_of (option_copied upper.entry)) (map layer_of lowers.now)) }
{
    if let Some(fault) = options_fault(upper.is_some(), lowers.len(), options) {
        return Some(fault);
    }
    if is_bad_metacopy(upper, lowers, options) {
        return Some(MountFault::BadMetacopy);
    }
    None
}

// Why so many lower layers and these options are no mount's, with an upper or without.
fn options_fault(has_upper: bool, lowers: usize, options: Options) -> Option<MountFault>
    ensures { result ≡ mount_fault has_upper lowers options }
{
    let least = if has_upper { 1 } else { LOWERS_ALONE_MIN };
    if lowers < least {
        return Some(MountFault::NoLower);
    }
    if lowers > LOWERS_MAX {
        return Some(MountFault::TooManyLowers);
    }
    if options.history < HISTORY_MIN || options.history > HISTORY_MAX {
        return Some(MountFault::BadHistory);
    }
    None
}

// Whether marks are to be made without redirects, or a lower layer has one, or one of the upper leads
// to no file.
fn is_bad_metacopy(upper: Option<&Layer>, lowers: &[Layer], options: Options) -> bool
    requires { length lowers.now ≤ 16 }
    ensures { IsTrue result ↔ IsBadMetacopy options (option_map layer_of (option_copied upper.entry)) (map layer_of lowers.now) }
{
    let Some(upper) = upper else {
        return is_marked_below(lowers);
    };
    is_bad_under(upper, lowers, options)
}

// The same under an upper.
fn is_bad_under(upper: &Layer, lowers: &[Layer], options: Options) -> bool
    requires { length lowers.now ≤ 16 }
    ensures { IsTrue result ↔ IsBadMetacopy options (Some (layer_of upper.now)) (map layer_of lowers.now) }
{
    makes_without_redirects(options) || is_marked_below(lowers) || is_astray(upper, lowers)
}

// Whether marks are to be made where no redirects are.
fn makes_without_redirects(options: Options) -> bool
    ensures { result ≡ (options.metacopy && not options.redirects) }
{
    options.metacopy && !options.redirects
}

// Whether a file of a lower layer bears a mark.
fn is_marked_below(lowers: &[Layer]) -> bool
    ensures { IsTrue result ↔ Any HasMark (map layer_of lowers.now) }
{
    for layer in lowers {
        if layer.has_marks() {
            return true;
        }
    }
    false
}

// Whether a file of the upper bears a mark at which the lower layers show no file.
fn is_astray(upper: &Layer, lowers: &[Layer]) -> bool
    requires { length lowers.now ≤ 16 }
    ensures { IsTrue result ↔ IsAstray (layer_of upper.now) (map layer_of lowers.now) }
{
    for (_, node) in upper.nodes() {
        if leads_astray(node, lowers) {
            return true;
        }
    }
    false
}

// Whether an object is a file that bears such a mark.
fn leads_astray(node: &Node, lowers: &[Layer]) -> bool
    requires { length lowers.now ≤ 16 }
    ensures { result ≡ goes_astray (map layer_of lowers.now) node.now }
{
    match node {
        Node::Inode(
            Inode {
                mark: Some(mark),
                ..
            },
        ) => low_file_in(lowers, mark).is_none(),
        _ => false,
    }
}
