// The laws of rename, each as the contract of a function that does nothing.
ghost use Rattle.mount_laws.specs.Moving.{LawOfCopiedMove, LawOfMovedDirectory, LawOfMovedName, LawOfPlacedMove, LawOfSameMove, LawOfThinMoves};
ghost use Rattle.mount_laws.specs.Renaming.{LawOfCanMove, LawOfKeptMoveLink, LawOfLiveThroughRename, LawOfMovedLink, LawOfRename, LawOfRenamed, LawOfSameRename};

/// `rename` is refused for the root, then as the layers' walk of the old path is, then as that of the new one's parents is; then for what
/// is shown at both, but not where they are one object (rename(2); POSIX.1-2017, rename()).
pub fn law_of_rename()
    ensures { LawOfRename }
{}

/// A `rename` of an object to itself is done, and changes nothing (POSIX.1-2017, rename()).
pub fn law_of_same_rename()
    ensures { LawOfSameRename }
{}

/// Where a `rename` of one object to the place of another is not refused, neither place is below the other, and a directory takes no name
/// of an inode of the upper away.
pub fn law_of_can_move()
    ensures { LawOfCanMove }
{}

/// A name of the upper's that moves is shown in its new place, and all else as before but for the link count of an inode that loses a name
/// so; a whiteout stays behind exactly where the layers below show something (overlayfs.rst, "whiteouts and opaque directories").
pub fn law_of_moved_name()
    ensures { LawOfMovedName }
{}

/// A directory of the upper's that moves is shown in its new place with all that it had, and all else as before (overlayfs.rst,
/// "redirect_dir").
pub fn law_of_moved_directory()
    ensures { LawOfMovedDirectory }
{}

/// A file or link of a lower layer that is copied up before it moves is shown so too (overlayfs.rst, "Non-directories").
pub fn law_of_copied_move()
    ensures { LawOfCopiedMove }
{}

/// A move in another upper that shows the same, and names inodes by the same paths, shows the same as one in the upper itself.
pub fn law_of_same_move()
    ensures { LawOfSameMove }
{}

/// A move in an upper that got a missing directory first, with the attributes shown and no marks, shows the same as without.
pub fn law_of_placed_move()
    ensures { LawOfPlacedMove }
{}

/// An upper without needless whiteouts stays one where a name or a directory of it moves.
pub fn law_of_thin_moves()
    ensures { LawOfThinMoves }
{}

/// A `rename` that is not refused makes the mount one of the upper to which the object moved: paths below it lead where they led from its
/// old place, handles stay open, and what it took the place of has a name less (POSIX.1-2017, rename()).
pub fn law_of_renamed()
    ensures { LawOfRenamed }
{}

/// A live file stays so where `rename` moves an object, also a name of its own, and where it takes a name away on which a handle is open,
/// also its last one (POSIX.1-2017, rename()).
pub fn law_of_live_through_rename()
    ensures { LawOfLiveThroughRename }
{}

/// Where a name or a directory of the upper moves, each inode has the names that follow those that it had.
pub fn law_of_moved_link()
    ensures { LawOfMovedLink }
{}

/// Where a copy of the upper moves the object, an inode that the copy has by the same names has those that follow them.
pub fn law_of_kept_move_link()
    ensures { LawOfKeptMoveLink }
{}
