// The laws of watches, each as the contract of a function that does nothing.
ghost use Rattle.plain_model.specs.Alike.{Identities, LawOfAlikeHearing, LawOfAlikeInstances, LawOfOtherIdentities};
ghost use Rattle.plain_model.specs.Instances.{LawOfInstances, LawOfInstancesOfRuns};
ghost use Rattle.plain_model.specs.Subjects.{LawOfSubjects};
ghost use Rattle.plain_model.specs.Watching.{LawOfEvents, Rule};

/// A rule of callbacks: which answers one with a tag may give to an event.
pub trait AnswerRule {
    ghost shows: { Rule };
}

/// Which of an engine's identities of objects stand for which of the machine's.
pub trait IdentityMap {
    ghost of: { Identities };
}

/// What a call notifies, in any state, are subjects: their bits are those of an event, their
/// cookies are not 0 exactly for the two events of a rename, and what is for one watch alone ends
/// it (inotify(7), "inotify events").
pub fn law_of_subjects()
    ensures { LawOfSubjects }
{}

/// What subjects ask at watches are events, also the one that follows a watch's only event (inotify(7), `IN_IGNORED`).
pub fn law_of_events()
    ensures { LawOfEvents }
{}

/// Whatever a client does and callbacks answer, no two instances are one client's; the watches of each have numbers that rise and were
/// given, slots that have a hook, and no slot and no object twice; and its queue keeps within its places.
pub fn law_of_instances<A: AnswerRule>()
    ensures { LawOfInstances A.shows }
{}

/// So it is in the last state of each run of a mount.
pub fn law_of_instances_of_runs<A: AnswerRule>()
    ensures { LawOfInstancesOfRuns A.shows }
{}

/// Instances that are alike, watch by watch, and are notified alike go on alike, whatever their
/// callbacks answer: an engine that knows objects by identities of its own hears as the machine
/// does.
pub fn law_of_alike_hearing<A: AnswerRule, I: IdentityMap>()
    ensures { LawOfAlikeHearing A.shows I.of }
{}

/// Instances that are alike answer calls alike, and are alike after a slot is armed, notices are read, and a client comes or goes.
pub fn law_of_alike_instances<I: IdentityMap>()
    ensures { LawOfAlikeInstances I.of }
{}

/// Instances that are alike stay so by the identities of a later moment, where these stand for each other at each watch.
pub fn law_of_other_identities<I: IdentityMap, J: IdentityMap>()
    ensures { LawOfOtherIdentities I.of J.of }
{}
