//! A law of core usage. The function does nothing; its contract is the law.

ghost use Rattle.racp_timetable.specs.Laws.{CoreLeavesNoRoom};

/// A job does not run at a time at which the core usage leaves no room for it, unless it is one of its core times.
pub fn core_leaves_no_room()
    ensures { CoreLeavesNoRoom }
{}
