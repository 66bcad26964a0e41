// The laws of where tracked objects are after a call, which names they have, and which of them descriptors are on.
ghost use Rattle.notice_laws.specs.Places.{LawOfAlone, LawOfHeldObjects, LawOfKnownSlots, LawOfLastName, LawOfLost, LawOfNowhere, LawOfSameHandles, LawOfUpper};

/// A directory, or a file that is untouched, stays so at the path that leads to it after a call, unless the call makes it the upper's
/// own.
pub fn law_of_alone()
    ensures { LawOfAlone }
{}

/// A node without a name, to which no path leads, stays so through every call.
pub fn law_of_nowhere()
    ensures { LawOfNowhere }
{}

/// A file that a path shows in the upper is the live file of its key.
pub fn law_of_upper()
    ensures { LawOfUpper }
{}

/// A node that loses its only name is nowhere (POSIX.1-2017, unlink(), rmdir() and rename()).
pub fn law_of_lost()
    ensures { LawOfLost }
{}

/// What the layers say of an object's last name is what the node's link count and paths say.
pub fn law_of_last_name()
    ensures { LawOfLastName }
{}

/// A call that opens, closes and moves nothing leaves each descriptor on what it was, by the way by which it came.
pub fn law_of_same_handles()
    ensures { LawOfSameHandles }
{}

/// Descriptors stay on what they were while other objects are let go.
pub fn law_of_known_slots()
    ensures { LawOfKnownSlots }
{}

/// A tracked object is held in the machine exactly where a descriptor is on its number.
pub fn law_of_held_objects()
    ensures { LawOfHeldObjects }
{}
