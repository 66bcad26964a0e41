// The laws of what calls tell, call by call, each as the contract of a function that does nothing.
ghost use Rattle.notice_laws.specs.Steps.{LawOfAltered, LawOfLinked, LawOfMade, LawOfRead, LawOfRemoved, LawOfSilent, LawOfStaying, LawOfTruncated, LawOfUnlinked, LawOfWritten};
ghost use Rattle.notice_laws.specs.Moves.{LawOfMoved, LawOfUnmoved};

use plain_model::AnswerRule;

/// What is kept for watches stays right in another upper that keeps the live files that have names.
pub fn law_of_staying()
    ensures { LawOfStaying }
{}

/// A call that notifies nobody, and opens, closes and moves nothing, leaves what is kept for
/// watches as it is.
pub fn law_of_silent<A: AnswerRule>()
    ensures { LawOfSilent A.shows }
{}

/// A rename onto the same object notifies nobody and moves nothing (POSIX.1-2017, rename()).
pub fn law_of_unmoved<A: AnswerRule>()
    ensures { LawOfUnmoved A.shows }
{}

/// A write of some bytes notifies the directory by which the file was opened, and the file, that it
/// is modified (inotify(7), `IN_MODIFY`).
pub fn law_of_written<A: AnswerRule>()
    ensures { LawOfWritten A.shows }
{}

/// So does a truncation by a descriptor.
pub fn law_of_truncated<A: AnswerRule>()
    ensures { LawOfTruncated A.shows }
{}

/// A directory or link that is made notifies its directory (inotify(7), `IN_CREATE`).
pub fn law_of_made<A: AnswerRule>()
    ensures { LawOfMade A.shows }
{}

/// A read of some bytes notifies the directory by which the file was opened, and the file
/// (inotify(7), `IN_ACCESS`).
pub fn law_of_read<A: AnswerRule>()
    ensures { LawOfRead A.shows }
{}

/// A change of attributes notifies the directory and the object, which is tracked by its key in the
/// upper then, where it was a lower layer's file (inotify(7), `IN_ATTRIB`).
pub fn law_of_altered<A: AnswerRule>()
    ensures { LawOfAltered A.shows }
{}

/// A further name notifies its directory, and the file that it has a name more (inotify(7),
/// `IN_CREATE` and `IN_ATTRIB`).
pub fn law_of_linked<A: AnswerRule>()
    ensures { LawOfLinked A.shows }
{}

/// A name that goes notifies its directory and the file, and of the file's end where it has neither
/// name nor handle then (inotify(7), `IN_DELETE`).
pub fn law_of_unlinked<A: AnswerRule>()
    ensures { LawOfUnlinked A.shows }
{}

/// A directory that goes notifies the directory that it was in, and of its end where no handle is
/// on it (inotify(7), `IN_DELETE`).
pub fn law_of_removed<A: AnswerRule>()
    ensures { LawOfRemoved A.shows }
{}

/// A rename notifies both directories, with one cookie, what it replaced and what moved; what is
/// tracked, and the ways by which handles came, follow it (inotify(7), `IN_MOVED_FROM`).
pub fn law_of_moved<A: AnswerRule>()
    ensures { LawOfMoved A.shows }
{}
