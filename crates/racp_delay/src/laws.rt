//! Laws of conflicts, alternatives and child windows: why branching over minimal delaying alternatives finds all
//! schedules (Demeulemeester and Herroelen 1992). Each function does nothing; its contract is the law.

ghost use Rattle.racp_delay.specs.Laws.{BranchingLosesNothing, ChildrenCover, EachHasChild, ChildIsInside, ChildIsHigher, SomeJobGoes, EachJobAloneCovers, LoadIsUsage, OthersStay, SubsetsGo, ConflictIsOne, AlternativesAreOneList, RaisingLowersUsage, NoConflictBefore, NoConflictThen};

/// At the first conflict of a window's early starts, whatever answers in the window lies in the child window of some
/// minimal alternative other than the whole active set.
pub fn branching_loses_nothing()
    ensures { BranchingLosesNothing }
{}

/// So the child windows of these alternatives cover the window.
pub fn children_cover()
    ensures { ChildrenCover }
{}

/// There is a child window for each list of jobs that go, if some stay.
pub fn each_has_child()
    ensures { EachHasChild }
{}

/// A child window lies inside its window.
pub fn child_is_inside()
    ensures { ChildIsInside }
{}

/// The sum of a child window's lower bounds is greater, whichever active jobs go.
pub fn child_is_higher()
    ensures { ChildIsHigher }
{}

/// In a minimal alternative at a conflict some job goes.
pub fn some_job_goes()
    ensures { SomeJobGoes }
{}

/// The windows in which one active job alone is put off, after the first end of the others, cover the window too.
pub fn each_job_alone_covers()
    ensures { EachJobAloneCovers }
{}

/// What the active jobs request together is what is used.
pub fn load_is_usage()
    ensures { LoadIsUsage }
{}

/// The jobs of a rising list that stay are those that do not go.
pub fn others_stay()
    ensures { OthersStay }
{}

/// What can go of a rising list are its subsets.
pub fn subsets_go()
    ensures { SubsetsGo }
{}

/// Starts have at most one first conflict.
pub fn conflict_is_one()
    ensures { ConflictIsOne }
{}

/// There is at most one list of alternatives.
pub fn alternatives_are_one_list()
    ensures { AlternativesAreOneList }
{}

/// If lower bounds are raised to after a time, the early starts use no more up to that time.
pub fn raising_lowers_usage()
    ensures { RaisingLowersUsage }
{}

/// So the early starts of a child window have no conflict before that of its window.
pub fn no_conflict_before()
    ensures { NoConflictBefore }
{}

/// And none then, if the jobs that stay can run at once.
pub fn no_conflict_then()
    ensures { NoConflictThen }
{}
