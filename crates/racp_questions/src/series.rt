//! Series: lists of questions that are given one by one.

use racp_model::Question;
use std::alloc::AllocError;

/// A list of questions, given one by one.
pub trait Series: Drop {
    ghost use Rattle.std.specs.Prelude.{List};
    ghost use Rattle.racp_model.specs.declared.question.Question.{Question};
    ghost use Rattle.racp_questions.specs.Series.{IsNextQuestion};

    ghost questions: { Self → List Question };

    /// Takes the first question off the list, or gives `None` if the list is empty.
    ///
    /// # Errors
    ///
    /// Memory was refused. The list is as before, so the next call gives the same question.
    fn next(&mut self) -> Result<Option<Question>, AllocError>
        ensures { IsNextQuestion (questions self.old) (questions self.new) result };
}
