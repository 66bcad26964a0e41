// The laws of the definitions, each as the contract of a function that does nothing.
ghost use Rattle.plain_model.specs.Blank.{LawOfBlank};
ghost use Rattle.plain_model.specs.Bounds.{LawOfBounds};
ghost use Rattle.plain_model.specs.Merging.{LawOfPaths, LawOfMerge, LawOfMount};
ghost use Rattle.plain_model.specs.Runs.{LawOfNames};
ghost use Rattle.plain_model.specs.Settling.{LawOfSettledOpening, LawOfSettledRuns, LawOfSettling};
ghost use Rattle.plain_model.specs.Watching.{LawOfQueues};
ghost use Rattle.plain_model.specs.Laws.{LawOfLookUp, LawOfParents, LawOfSteps, LawOfMoves};

/// What a path shows is the upper's object where it holds one, else what comes through it; a shown directory is base exactly
/// where a directory comes through (overlayfs.rst, "Directories").
pub fn law_of_look_up()
    ensures { LawOfLookUp }
{}

/// Where layers show something, they show its parent as a directory.
pub fn law_of_parents()
    ensures { LawOfParents }
{}

/// A walk name by name through the directories of the layers shows what the definitions show at the whole path.
pub fn law_of_steps()
    ensures { LawOfSteps }
{}

/// A moved directory keeps what comes through the upper below it, and all other paths keep theirs (overlayfs.rst, "redirect_dir").
pub fn law_of_moves()
    ensures { LawOfMoves }
{}

/// Layers hold finitely many paths: some list has them all.
pub fn law_of_paths()
    ensures { LawOfPaths }
{}

/// All layers have a merge: one tree that shows at each path what they show, with one node for the names of one upper inode.
pub fn law_of_merge()
    ensures { LawOfMerge }
{}

/// Layers show their merge: a mount begins with the tree that its layers show.
pub fn law_of_mount()
    ensures { LawOfMount }
{}

/// Under an upper that holds nothing each path shows what the lower layers show there alone: so a mount without an upper is one with such an
/// upper (overlayfs.rst, "Multiple lower layers").
pub fn law_of_blank()
    ensures { LawOfBlank }
{}

/// A call whose placings, begun copies and copied pieces stay within their bounds takes at most 66,049 steps.
pub fn law_of_bounds()
    ensures { LawOfBounds }
{}

/// A queue of notices keeps within 65 places: 64 notices, and one for an overflow (inotify(7),
/// `IN_Q_OVERFLOW`).
pub fn law_of_queues()
    ensures { LawOfQueues }
{}

/// Each call that is not refused leaves every object with as many names as its link count says (POSIX.1-2017, Link Count), the root a
/// directory, new serials unused, an object without a name without names in it, and an untouched file or link with at most one name.
pub fn law_of_names()
    ensures { LawOfNames }
{}

/// A mount begins settled: each node that is there has a name, and no client is attached.
pub fn law_of_settled_opening()
    ensures { LawOfSettledOpening }
{}

/// Whatever a client does and callbacks answer, a settled state stays one: a node is there exactly while it has a name or an open handle,
/// and each attached client has a number of its own, its descriptors and its instance.
pub fn law_of_settling()
    ensures { LawOfSettling }
{}

/// Each run from a settled state ends in one.
pub fn law_of_settled_runs()
    ensures { LawOfSettledRuns }
{}
