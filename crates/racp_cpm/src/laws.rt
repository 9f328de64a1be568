//! Laws of early and late starts. Each function does nothing; its contract is the law.

ghost use Rattle.racp_cpm.specs.Laws.{EarlyIsSchedule, CriticalIsGreatestFinish, NoRootIsTooLong, NoRootIsNoSchedule, RootIsInTime};

/// Early starts that end by the due times are a schedule if there is enough of each resource.
pub fn early_is_schedule()
    ensures { EarlyIsSchedule }
{}

/// The critical length is the greatest early finish.
pub fn critical_is_greatest_finish()
    ensures { CriticalIsGreatestFinish }
{}

/// With one deadline for all jobs there is no root window exactly if the critical length exceeds it.
pub fn no_root_is_too_long()
    ensures { NoRootIsTooLong }
{}

/// There is no root window exactly if no starts keep precedence and are in time.
pub fn no_root_is_no_schedule()
    ensures { NoRootIsNoSchedule }
{}

/// Of the starts that keep precedence, those in time are those in the root window.
pub fn root_is_in_time()
    ensures { RootIsInTime }
{}
