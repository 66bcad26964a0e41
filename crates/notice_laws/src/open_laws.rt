// The laws of opens and closes, and of numbers that are held and let go.
ghost use Rattle.notice_laws.specs.Opens.{LawOfFewerNumbers, LawOfHeldNumber, LawOfOpened, LawOfOpenedNew};
ghost use Rattle.notice_laws.specs.Steps.{LawOfClosed};

use plain_model::AnswerRule;

/// One more may hold the directory or file at a path, under its number or under a new one.
pub fn law_of_held_number()
    ensures { LawOfHeldNumber }
{}

/// Objects that no watch and no handle needs may be let go.
pub fn law_of_fewer_numbers()
    ensures { LawOfFewerNumbers }
{}

/// An open of what is there notifies its directory and the object, first that it is emptied where
/// that is asked for (inotify(7), `IN_OPEN`).
pub fn law_of_opened<A: AnswerRule>()
    ensures { LawOfOpened A.shows }
{}

/// An open that makes its file notifies the directory, of the new name and of the open; the file
/// has a number then (inotify(7), `IN_CREATE`).
pub fn law_of_opened_new<A: AnswerRule>()
    ensures { LawOfOpenedNew A.shows }
{}

/// A close notifies the directory by which the handle was opened, the object, and the object's end
/// where it has neither name nor handle then (inotify(7), `IN_CLOSE` and `IN_DELETE_SELF`).
pub fn law_of_closed<A: AnswerRule>()
    ensures { LawOfClosed A.shows }
{}
