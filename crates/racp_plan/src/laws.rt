//! Laws of the texts of plans. Each function does nothing; its contract is the law.

ghost use Rattle.racp_plan.specs.TextLaws.{FaultHasLine, OneTextOnePlan, ReadingIsOne, TextIsRead, WrittenIsRead};

/// No two plans share a text.
pub fn one_text_one_plan()
    ensures { OneTextOnePlan }
{}

/// Each text is read as a plan or as a fault.
pub fn text_is_read()
    ensures { TextIsRead }
{}

/// A text is read as one thing only.
pub fn reading_is_one()
    ensures { ReadingIsOne }
{}

/// A written plan is read as itself, and as nothing else.
pub fn written_is_read()
    ensures { WrittenIsRead }
{}

/// A fault of a text has a line: one of those that the text should have, or the next.
pub fn fault_has_line()
    ensures { FaultHasLine }
{}
