//! A series of questions that stand in a list.

ghost use Rattle.std.specs.Prelude.{◌≡◌};

use racp_model::Question;
use racp_questions::Series;
use std::alloc::AllocError;
use std::collections::VecDeque;
use std::marker::Model;

/// A series of listed questions. Contracts see the list of questions still to come.
#[derive(Drop)]
pub struct Listed {
    list: VecDeque<Question>,
}

impl Model for Listed {
    ghost use Rattle.std.specs.Prelude.{List};
    ghost use Rattle.racp_model.specs.declared.question.Question.{Question};

    ghost Value = { List Question };

    ghost view = { λ listed. listed.list.items };
}

impl Listed {
    /// The series of these questions.
    pub fn of(list: VecDeque<Question>) -> Self
        ensures { result ≡ list.items }
    {
        Listed { list }
    }
}

impl Series for Listed {
    ghost questions = { λ series. series };

    fn next(&mut self) -> Result<Option<Question>, AllocError> {
        Ok(self.list.pop_front())
    }
}
