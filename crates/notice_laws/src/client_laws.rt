// The laws of clients that come and go, and of the calls on watches.
ghost use Rattle.notice_laws.specs.Clients.{LawOfArmed, LawOfAsked, LawOfBegun, LawOfDeparted, LawOfDisarmed, LawOfJoined, LawOfMuted, LawOfTaken};

use plain_model::AnswerRule;

/// A mount begins with nothing tracked, and no client.
pub fn law_of_begun()
    ensures { LawOfBegun }
{}

/// What `arm`, `disarm` and `notices` ask of a client's instance is answered by the engine's as by the machine's.
pub fn law_of_asked()
    ensures { LawOfAsked }
{}

/// A client comes, with hooks, nothing open and no watch.
pub fn law_of_joined()
    ensures { LawOfJoined }
{}

/// A client that goes has no watches first: it doesn't hear of its closes.
pub fn law_of_muted()
    ensures { LawOfMuted }
{}

/// A client that has nothing open goes.
pub fn law_of_departed()
    ensures { LawOfDeparted }
{}

/// `arm` puts a watch on the object of the number that stands for the node at the path (inotify_add_watch(2)).
pub fn law_of_armed<A: AnswerRule>()
    ensures { LawOfArmed A.shows }
{}

/// `disarm` notifies the watch that it ends, and it is gone (inotify_rm_watch(2)).
pub fn law_of_disarmed<A: AnswerRule>()
    ensures { LawOfDisarmed A.shows }
{}

/// `notices` takes the first notices out of a client's queue (inotify(7), read(2)).
pub fn law_of_taken<A: AnswerRule>()
    ensures { LawOfTaken A.shows }
{}
