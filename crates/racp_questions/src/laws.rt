//! Laws of the definitions. Each function does nothing; its contract is the law.

ghost use Rattle.racp_questions.specs.Laws.{FirstYesIsOne};

/// A list of questions has at most one first yes.
pub fn first_yes_is_one()
    ensures { FirstYesIsOne }
{}
