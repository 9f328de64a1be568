//! A series of one question.

ghost use Rattle.std.specs.Prelude.{◌≡◌, List, [], ◌∷◌, IfOk};
ghost use Rattle.racp_candidates.specs.Questions.{question_of};

use racp_model::{Capacities, Question, Window};
use racp_questions::Series;
use std::alloc::{AllocError, Global};
use std::marker::Model;

/// A series of one question. Contracts see the list of questions still to come.
#[derive(Drop)]
pub struct One {
    question: Option<Question>,
}

impl Model for One {
    ghost use Rattle.std.specs.Prelude.{List, option_to_list};
    ghost use Rattle.racp_model.specs.declared.question.Question.{Question};

    ghost Value = { List Question };

    ghost view = { λ one. option_to_list one.question };
}

impl One {
    /// The series of this question.
    pub fn of(question: Question) -> Self
        ensures { result ≡ question ∷ [] }
    {
        One {
            question: Some(question),
        }
    }

    /// The question of these capacities and this window. Copies both.
    ///
    /// # Errors
    ///
    /// Memory was refused.
    pub fn new(alloc: Global, capacities: &Capacities, window: &Window) -> Result<Self, AllocError>
        ensures { IfOk result (λ series. series ≡ question_of capacities.now window.now ∷ []) }
    {
        let question = Question {
            capacities: Capacities::new(capacities.as_slice().to_vec(alloc)?),
            window: window.copy()?,
        };
        Ok(One {
            question: Some(question),
        })
    }
}

impl Series for One {
    ghost questions = { λ series. series };

    fn next(&mut self) -> Result<Option<Question>, AllocError> {
        Ok(self.question.take())
    }
}
