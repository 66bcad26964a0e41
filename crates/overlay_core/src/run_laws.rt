// The laws of whole runs, each as the contract of a function that does nothing.
ghost use Rattle.overlay_core.specs.WholeRuns.{LawOfChains, LawOfDropped, LawOfSchedules, LawOfTurns, LawOfWholeRuns};

use watch_table::{Callback, Rule};

/// Whatever attaches, steps of jobs, jobs that are dropped and detaches follow on a mount, they are
/// one legal history of the plain machine: it begins with the merge of what was mounted, and ends in
/// a state that agrees with the core.
pub fn law_of_whole_runs<F: Callback, R: Rule>()
    ensures { LawOfWholeRuns F.Callback R.Rule }
{}

/// What steps of jobs, dropped jobs and schedules say of a core are links of such a run. Attach and
/// detach say it word for word.
pub fn law_of_links<F: Callback, R: Rule>()
    ensures turns { LawOfTurns F.Callback R.Rule }
    ensures dropped { LawOfDropped F.Callback R.Rule }
    ensures schedules { LawOfSchedules F.Callback R.Rule }
    ensures chains { LawOfChains F.Callback R.Rule }
{}
