// The laws of numbers: what they mean, and that what is told by them is what the machine tells.
ghost use Rattle.notice_laws.specs.Objects.{LawOfNumbers, LawOfWayNumbers};
ghost use Rattle.notice_laws.specs.Telling.{LawOfTold};

/// The number that is found by what stands at a path means the node that the machine finds there; where none is found, no tracked object
/// is the node.
pub fn law_of_numbers()
    ensures { LawOfNumbers }
{}

/// So does the number of the directory of a path, with the path's last name.
pub fn law_of_way_numbers()
    ensures { LawOfWayNumbers }
{}

/// What is notified by numbers reaches the watches that the machine's subjects reach; what has no
/// number nobody watches.
pub fn law_of_told()
    ensures { LawOfTold }
{}
