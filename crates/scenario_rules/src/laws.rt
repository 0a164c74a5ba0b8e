//! What holds of the definitions of scenarios: each law is the contract of a function that does nothing.
ghost use Rattle.scenario_rules.specs.Laws.{CommitJoins, CommitKeepsOthers, DropIsGone, DropLeavesOthers};
ghost use Rattle.scenario_rules.specs.Laws.{LegalIsWhole, RefusedIsAbsent, SameIsEqual, StepKeepsWhole};
ghost use Rattle.scenario_rules.specs.Laws.{StepLeavesOthers, UpdateShowsParent, WholeContents};

/// Records that are the same by their table and fields are equal, and no others are.
pub fn same_records_are_equal()
    ensures { SameIsEqual }
{}

/// A change leaves every scenario that it doesn't touch as it was, the children of those that it touches among them.
pub fn changes_leave_others()
    ensures { StepLeavesOthers }
{}

/// A dropped scenario is gone, and every other one is as it was.
pub fn drops_leave_others()
    ensures gone { DropIsGone }
    ensures others { DropLeavesOthers }
{}

/// After an update a scenario shows under its own keys what its own changes say, and under all others its parent's records.
pub fn updates_show_parents()
    ensures { UpdateShowsParent }
{}

/// After a commit child and parent have equal contents, and the parent's records under keys that weren't own are as before.
pub fn commits_join()
    ensures equal { CommitJoins }
    ensures others { CommitKeepsOthers }
{}

/// A change that is refused is no entry of a legal history at its place.
pub fn refused_changes_are_absent()
    ensures { RefusedIsAbsent }
{}

/// After each legal history the root is there, shared and without parent, owner and own changes; each other scenario has a parent
/// that is there; and contents and own changes are in key order and sound. Each change that isn't refused keeps it so.
pub fn legal_worlds_are_whole()
    ensures step { StepKeepsWhole }
    ensures history { LegalIsWhole }
    ensures contents { WholeContents }
{}
