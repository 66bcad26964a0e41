// The laws of the machine on a mount of layers, each as the contract of a function that does nothing.
ghost use Rattle.mount_laws.specs.Altered.{LawOfAlteredDirectory, LawOfAlteredInode, LawOfAttributeDeleted, LawOfAttributeSet, LawOfCopiedLeaf, LawOfModeChanged, LawOfOwnerChanged};
ghost use Rattle.mount_laws.specs.Attributes.{LawOfChmod, LawOfChown, LawOfDeleteAttribute, LawOfGetAttribute, LawOfListAttributes, LawOfSetAttribute};
ghost use Rattle.mount_laws.specs.Removed.{LawOfCloseRemoved, LawOfListRemoved};
ghost use Rattle.mount_laws.specs.Leaves.{LawOfFileMade, LawOfLinkMade, LawOfPlacedLeaf, LawOfReadlink, LawOfSymlink};
ghost use Rattle.mount_laws.specs.Linking.{LawOfAddedName, LawOfCopiedName, LawOfLink, LawOfNameMade};
ghost use Rattle.mount_laws.specs.Looks.{LawOfBadDescriptors, LawOfBeginning, LawOfClose, LawOfDirectories, LawOfList, LawOfMade, LawOfMkdir, LawOfOpen, LawOfPlacedDirectory, LawOfPlacedParent, LawOfStat, LawOfWalks};
ghost use Rattle.mount_laws.specs.OpenFiles.{LawOfChangedFile, LawOfForgotten, LawOfLiveMade, LawOfLiveOne, LawOfLiveShown, LawOfWritten};
ghost use Rattle.mount_laws.specs.Removals.{LawOfRemovedDirectory, LawOfRmdir, LawOfTakenAway, LawOfUnlink, LawOfUnlinked};
ghost use Rattle.mount_laws.specs.Seeks.{LawOfSeek};
ghost use Rattle.mount_laws.specs.StayOpen.{LawOfAddedLink, LawOfAltersNamed, LawOfCopiedLink, LawOfLiveKept, LawOfLiveThroughDeleted, LawOfLiveThroughFile, LawOfLiveThroughLink, LawOfLiveThroughMade, LawOfLiveThroughMode, LawOfLiveThroughName, LawOfLiveThroughOwner, LawOfLiveThroughParent, LawOfLiveThroughRmdir, LawOfLiveThroughSet, LawOfLiveThroughUnlink};
ghost use Rattle.mount_laws.specs.Thin.{LawOfThin};

/// A mount begins as one of its layers.
pub fn law_of_beginning()
    ensures { LawOfBeginning }
{}

/// A directory of a merge is named by its own path.
pub fn law_of_directories()
    ensures { LawOfDirectories }
{}

/// The machine's walk of a path is refused as the layers' is, finds a node where they show something, and what they show.
pub fn law_of_walks()
    ensures { LawOfWalks }
{}

/// `stat` is refused as the layers' walk is, and answers the status of what they show.
pub fn law_of_stat()
    ensures { LawOfStat }
{}

/// `mkdir` is refused for its mode, then as the layers' walk of the parents is, then where they show something.
pub fn law_of_mkdir()
    ensures { LawOfMkdir }
{}

/// `open` of a directory for reading is refused for its mode, as the layers' walk is, for what they show and for want of a
/// descriptor; else the lowest free descriptor leads to a new handle on the directory, and nothing else changes.
pub fn law_of_open()
    ensures { LawOfOpen }
{}

/// A directory's first listing has the names that the layers show in it, in the order of their bytes, and no other list has;
/// a call gives the next of them.
pub fn law_of_list()
    ensures { LawOfList }
{}

/// A handle on a directory goes to its start alone, and keeps no listing then; nothing else changes.
pub fn law_of_seek()
    ensures { LawOfSeek }
{}

/// A handle on a node that has a name closes, and nothing else changes.
pub fn law_of_close()
    ensures { LawOfClose }
{}

/// A descriptor that is not open is EBADF.
pub fn law_of_bad_descriptors()
    ensures { LawOfBadDescriptors }
{}

/// A `mkdir` that is not refused makes the mount one of the upper that gains the directory; no other path and no handle changes.
pub fn law_of_made()
    ensures { LawOfMade }
{}

/// A missing parent that is placed in the upper with the attributes shown and no marks leaves the mount as it was.
pub fn law_of_placed_parent()
    ensures { LawOfPlacedParent }
{}

/// A directory that is placed in the upper where nothing was shown, opaque exactly where the layers below show a directory, is all
/// that is gained (overlayfs.rst, "whiteouts and opaque directories").
pub fn law_of_placed_directory()
    ensures { LawOfPlacedDirectory }
{}

/// `unlink` is refused for the root, then as the layers' walk is, then where they show a directory.
pub fn law_of_unlink()
    ensures { LawOfUnlink }
{}

/// `rmdir` is refused for the root, then as the layers' walk is, then where they show no directory, then where they show a name in it.
pub fn law_of_rmdir()
    ensures { LawOfRmdir }
{}

/// `symlink` is refused for its target, then as the layers' walk of the parents is, then where they show something.
pub fn law_of_symlink()
    ensures { LawOfSymlink }
{}

/// `readlink` is refused as the layers' walk is, then where they show no symbolic link, and answers the target of the link.
pub fn law_of_readlink()
    ensures { LawOfReadlink }
{}

/// `link` is refused as the layers' walk of the old path is, then as that of the new one's parents is, then where they show something
/// there, and last where they show a directory at the old path (link(2); POSIX.1-2017, link()).
pub fn law_of_link()
    ensures { LawOfLink }
{}

/// An upper from which an object is taken away loses it and no more: a whiteout stands in its place exactly where the layers below show
/// something (overlayfs.rst, "whiteouts and opaque directories").
pub fn law_of_taken_away()
    ensures { LawOfTakenAway }
{}

/// A file or link that is placed in the upper where nothing was shown is all that is gained.
pub fn law_of_placed_leaf()
    ensures { LawOfPlacedLeaf }
{}

/// An upper without needless whiteouts stays one where it gets a directory, a file or a link, or has an object taken away.
pub fn law_of_thin()
    ensures { LawOfThin }
{}

/// A `symlink` that is not refused makes the mount one of the upper that gains the link; no other path and no handle changes.
pub fn law_of_link_made()
    ensures { LawOfLinkMade }
{}

/// A file that an `open` makes where nothing is shown makes the mount one of the upper that gains it; no other path changes.
pub fn law_of_file_made()
    ensures { LawOfFileMade }
{}

/// An `unlink` that is not refused makes the mount one of the upper that loses the name; no other path and no handle changes.
pub fn law_of_unlinked()
    ensures { LawOfUnlinked }
{}

/// An `rmdir` that is not refused makes the mount one of the upper that loses the directory; no other path and no handle changes,
/// and where a handle is open on the directory it stays one, without names and under no path.
pub fn law_of_removed_directory()
    ensures { LawOfRemovedDirectory }
{}

/// A handle on a node that no path leads to closes: the mount stays, and a node that another handle is open on is as it was.
pub fn law_of_close_removed()
    ensures { LawOfCloseRemoved }
{}

/// A handle on a directory without names lists none, unless it keeps a listing of before.
pub fn law_of_list_removed()
    ensures { LawOfListRemoved }
{}

/// `chmod` is refused for its mode, then as `chown` is.
pub fn law_of_chmod()
    ensures { LawOfChmod }
{}

/// `chown` is refused as the layers' walk is, then where they show a symbolic link.
pub fn law_of_chown()
    ensures { LawOfChown }
{}

/// A user attribute is not set for its name or its value's length, then as `chown` is refused, then where 64 others are shown.
pub fn law_of_set_attribute()
    ensures { LawOfSetAttribute }
{}

/// A user attribute is not deleted for its name, then as `chown` is refused, then where the layers show none of the name.
pub fn law_of_delete_attribute()
    ensures { LawOfDeleteAttribute }
{}

/// A user attribute is got as it is deleted, and is the value that the layers show.
pub fn law_of_get_attribute()
    ensures { LawOfGetAttribute }
{}

/// A list of user attributes is refused as `chown` is, and answers the names that the layers show, in their order.
pub fn law_of_list_attributes()
    ensures { LawOfListAttributes }
{}

/// A `chmod` that is not refused makes the mount one of the upper that shows the mode; paths lead where they led and no handle changes.
pub fn law_of_mode_changed()
    ensures { LawOfModeChanged }
{}

/// A `chown` that is not refused makes the mount one of the upper that shows the owner and group; paths lead where they led and no
/// handle changes.
pub fn law_of_owner_changed()
    ensures { LawOfOwnerChanged }
{}

/// A user attribute that is set makes the mount one of the upper that shows it; paths lead where they led and no handle changes.
pub fn law_of_attribute_set()
    ensures { LawOfAttributeSet }
{}

/// A user attribute that is deleted makes the mount one of the upper that shows the others; paths lead where they led and no handle
/// changes.
pub fn law_of_attribute_deleted()
    ensures { LawOfAttributeDeleted }
{}

/// An upper to which a file or link of a lower layer is copied up with other attributes shows them, and no other path changes
/// (overlayfs.rst, "Non-directories").
pub fn law_of_copied_leaf()
    ensures { LawOfCopiedLeaf }
{}

/// An upper whose inode has other attributes shows them at each of its names, and no other path changes.
pub fn law_of_altered_inode()
    ensures { LawOfAlteredInode }
{}

/// An upper whose directory has other attributes shows them, and no other path changes.
pub fn law_of_altered_directory()
    ensures { LawOfAlteredDirectory }
{}

/// Two live files, one of which has a name, are one node exactly where they are one inode.
pub fn law_of_live_one()
    ensures { LawOfLiveOne }
{}

/// A file of the upper that a path shows is live: its node is the inode, and the paths to the one are the names of the other.
pub fn law_of_live_shown()
    ensures { LawOfLiveShown }
{}

/// A file that `open` makes is live, by the number of the inode that the upper gains.
pub fn law_of_live_made()
    ensures { LawOfLiveMade }
{}

/// Other bytes of a live file make the mount one of the upper that has them; paths lead where they led and other files stay live.
pub fn law_of_written()
    ensures { LawOfWritten }
{}

/// Bytes of its own for a live file that is opened for writing make the mount one of the upper that has them; paths lead where they led
/// and other files stay live (overlayfs.rst, "Metadata only copy up").
pub fn law_of_changed_file()
    ensures { LawOfChangedFile }
{}

/// A file without a name goes with its last handle (POSIX.1-2017, close()), and nothing else does.
pub fn law_of_forgotten()
    ensures { LawOfForgotten }
{}

/// A live file stays so in another upper that has its inode by the same names.
pub fn law_of_live_kept()
    ensures { LawOfLiveKept }
{}

/// A live file stays so in an upper that gets a missing parent.
pub fn law_of_live_through_parent()
    ensures { LawOfLiveThroughParent }
{}

/// A live file stays so where `mkdir` makes a directory.
pub fn law_of_live_through_made()
    ensures { LawOfLiveThroughMade }
{}

/// A live file stays so where `symlink` makes a link.
pub fn law_of_live_through_link()
    ensures { LawOfLiveThroughLink }
{}

/// A live file stays so where `open` makes another.
pub fn law_of_live_through_file()
    ensures { LawOfLiveThroughFile }
{}

/// A live file that is open stays so where `unlink` takes a name away, also its last one (POSIX.1-2017, unlink()).
pub fn law_of_live_through_unlink()
    ensures { LawOfLiveThroughUnlink }
{}

/// A live file stays so where `rmdir` takes a directory away.
pub fn law_of_live_through_rmdir()
    ensures { LawOfLiveThroughRmdir }
{}

/// A live file stays so where `chmod` changes a mode, also its own.
pub fn law_of_live_through_mode()
    ensures { LawOfLiveThroughMode }
{}

/// A live file stays so where `chown` changes an owner, also its own.
pub fn law_of_live_through_owner()
    ensures { LawOfLiveThroughOwner }
{}

/// A live file stays so where a user attribute is set, also one of its own.
pub fn law_of_live_through_set()
    ensures { LawOfLiveThroughSet }
{}

/// A live file stays so where a user attribute is deleted, also one of its own.
pub fn law_of_live_through_deleted()
    ensures { LawOfLiveThroughDeleted }
{}

/// Where the attributes that a path shows change, an inode of the upper keeps its names, and changes only if the path is one of them.
pub fn law_of_alters_named()
    ensures { LawOfAltersNamed }
{}

/// A further name of an inode of the upper, where nothing was shown, is all that is gained: its names show one link more (link(2);
/// POSIX.1-2017, link()).
pub fn law_of_added_name()
    ensures { LawOfAddedName }
{}

/// A further name of a file or link of a lower layer, which is copied up first, is all that is gained: both names show one inode of the
/// upper, with two links (link(2); POSIX.1-2017, link(); overlayfs.rst, "Non-directories").
pub fn law_of_copied_name()
    ensures { LawOfCopiedName }
{}

/// A `link` that is not refused makes the mount one of the upper that gains the name, which leads to the old path's node; no other path
/// and no handle changes (link(2); POSIX.1-2017, link()).
pub fn law_of_name_made()
    ensures { LawOfNameMade }
{}

/// A live file stays so where `link` makes a further name, also one of its own: it has one link more then (link(2); POSIX.1-2017, link()).
pub fn law_of_live_through_name()
    ensures { LawOfLiveThroughName }
{}

/// Where the upper gets a further name of what a path names, an inode gains it, and one link, exactly if the path is a name of it.
pub fn law_of_added_link()
    ensures { LawOfAddedLink }
{}

/// Where a file or link of a lower layer is copied up and gets a further name, an inode that was there keeps its names and its links.
pub fn law_of_copied_link()
    ensures { LawOfCopiedLink }
{}
