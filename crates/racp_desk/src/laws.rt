//! Laws of the definitions. Each function does nothing; its contract is the law.

ghost use Rattle.racp_desk.specs.Laws.{LogsAreLegal, LegalLogsAreLeft};

/// Whatever calls of a desk a collector has had, in any order: the log that they leave is legal, and its tally counts
/// what the collector has.
pub fn logs_are_legal()
    ensures { LogsAreLegal }
{}

/// Each legal log is left by calls of a desk that a collector of the questions of some project has had, whose findings
/// are true. So its tally counts what that collector has.
pub fn legal_logs_are_left()
    ensures { LegalLogsAreLeft }
{}
