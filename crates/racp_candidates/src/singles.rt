//! The series of the numbers of units of one resource.

ghost use Rattle.std.specs.Prelude.{◌≡◌, ◌<◌, length, IfOk};
ghost use Rattle.racp_candidates.specs.Questions.{single_questions};

use crate::copies::copy_with;
use racp_model::{Capacities, Question, Window};
use racp_questions::Series;
use std::alloc::{AllocError, Global};
use std::marker::Model;

/// A series of one question for each number of units of one resource. Contracts see the list of questions still to
/// come.
#[derive(Drop)]
pub struct Singles {
    alloc: Global,
    roofs: Vec<u32>,
    place: usize,
    next: u64,
    end: u64,
    window: Window,
}

impl Model for Singles {
    ghost use Rattle.std.specs.Prelude.{ℕ, ◌-◌, ◌^◌, ◌<◌, ◌≤◌, List, length, map, set};
    ghost use Rattle.std.specs.List.{range_with_len};
    ghost use Rattle.racp_model.specs.declared.question.Question.{Question};
    ghost use Rattle.racp_candidates.specs.Questions.{question_of};

    ghost Value = { List Question };

    ghost view = { λ s. map (λ units. question_of (set s.roofs.items s.place units) s.window)
        (range_with_len s.next (s.end - s.next)) };

    ghost invariant = { λ s. (s.place < length s.roofs.items) × (s.end ≤ 2 ^ 32) };
}

impl Singles {
    /// One question for each number of units of the resource at this place, from 0, from its floor to its roof, in
    /// rising order. The other resources have their roofs, and each question has this window. Copies the roofs and the
    /// window.
    ///
    /// # Errors
    ///
    /// Memory was refused.
    pub fn new(
        alloc: Global,
        floors: &Capacities,
        roofs: &Capacities,
        place: usize,
        window: &Window,
    ) -> Result<Self, AllocError>
        requires floor { place < length floors.now }
        requires roof { place < length roofs.now }
        ensures { IfOk result (λ series. series ≡ single_questions floors.now roofs.now place window.now) }
    {
        let roofs = roofs.as_slice().to_vec(alloc)?;
        let next = floors.as_slice()[place] as u64;
        let end = roofs[place] as u64 + 1;
        Ok(Singles {
            alloc,
            roofs,
            place,
            next,
            end,
            window: window.copy()?,
        })
    }
}

impl Series for Singles {
    ghost questions = { λ series. series };

    #[tactic(auto, using(crate::proofs::Values::values_step))]
    fn next(&mut self) -> Result<Option<Question>, AllocError> {
        if self.end <= self.next {
            return Ok(None);
        }
        let units = copy_with(self.alloc, &self.roofs, self.place, self.next as u32)?;
        let window = self.window.copy()?;
        self.next += 1;
        Ok(Some(Question {
            capacities: Capacities::new(units),
            window,
        }))
    }
}
