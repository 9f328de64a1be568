//! A law of needs. The function does nothing; its contract is the law.

ghost use Rattle.racp_whatif.specs.Laws.{NeedLeavesNone};

/// A need above a ceiling leaves no plan.
pub fn need_leaves_none()
    ensures { NeedLeavesNone }
{}
