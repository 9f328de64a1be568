//! Laws of the definitions. Each function does nothing; its contract is the law.

ghost use Rattle.racp_candidates.specs.Laws.{BoxQuestionsAreOne};

pub use racp_questions::laws::first_yes_is_one;

/// A box has at most one list of questions.
pub fn box_questions_are_one()
    ensures { BoxQuestionsAreOne }
{}
