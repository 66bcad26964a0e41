// The laws of what a call leaves of paths, nodes and handles, each as the contract of a function that does nothing.
ghost use Rattle.mount_laws.specs.Handling.{LawOfHeld, LawOfNewHandle, LawOfSetHandle, LawOfWays};
ghost use Rattle.mount_laws.specs.Nodes.{LawOfGone, LawOfMadeNode, LawOfOneName, LawOfOneNameBegun, LawOfOneNameKept, LawOfSorts};
ghost use Rattle.mount_laws.specs.Paths.{LawOfNamedPaths, LawOfOnePath, LawOfPaths};

/// After a call that is not refused each path leads where it led, but for those that the call makes, removes or moves (POSIX.1-2017,
/// mkdir(), symlink(), open(), link(), unlink(), rmdir() and rename()).
pub fn law_of_paths()
    ensures { LawOfPaths }
{}

/// On a tree that layers show, each directory stands at one path alone, and so does each untouched file or link.
pub fn law_of_one_path()
    ensures { LawOfOnePath }
{}

/// Where directories have at most one name each, each stands at one path alone, and so does each untouched file or link.
pub fn law_of_named_paths()
    ensures { LawOfNamedPaths }
{}

/// After a call what is there still is a directory where it was one, and untouched where it was, but for the file or link that the call
/// makes the upper's own (overlayfs.rst, "Non-directories").
pub fn law_of_sorts()
    ensures { LawOfSorts }
{}

/// A node goes with its last name and its last handle, and no other node goes (POSIX.1-2017, unlink(), rmdir(), rename() and close()).
pub fn law_of_gone()
    ensures { LawOfGone }
{}

/// A node is held exactly where some client has a handle open on it.
pub fn law_of_held()
    ensures { LawOfHeld }
{}

/// A descriptor that is set leads to what it is set to, and every other to what it led to (POSIX.1-2017, 2.14 File Descriptor Allocation).
pub fn law_of_set_handle()
    ensures { LawOfSetHandle }
{}

/// `open` leads the lowest free descriptor to a new handle, by the directory and name of its path (POSIX.1-2017, open()).
pub fn law_of_new_handle()
    ensures { LawOfNewHandle }
{}

/// `rename` gives each handle on what moved the new directory and name, where it was opened by the old ones.
pub fn law_of_ways()
    ensures { LawOfWays }
{}

/// The node that a call makes is a directory by `mkdir`, and else a file or link of the upper's own (POSIX.1-2017, mkdir(), symlink() and
/// open()).
pub fn law_of_made_node()
    ensures { LawOfMadeNode }
{}

/// Where directories have at most one name each, one that a path leads to has exactly one; and so does an untouched file or link.
pub fn law_of_one_name()
    ensures { LawOfOneName }
{}

/// A mount begins with directories that have at most one name each.
pub fn law_of_one_name_begun()
    ensures { LawOfOneNameBegun }
{}

/// Each call keeps that directories have at most one name each (POSIX.1-2017, link()).
pub fn law_of_one_name_kept()
    ensures { LawOfOneNameKept }
{}
