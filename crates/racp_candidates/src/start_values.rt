//! The series of the starts of one job.

ghost use Rattle.std.specs.Prelude.{◌≡◌, ◌<◌, length, IfOk};
ghost use Rattle.racp_candidates.specs.Questions.{start_questions};

use crate::copies::copy_with;
use racp_model::{Capacities, Question, Starts, Window};
use racp_questions::Series;
use std::alloc::{AllocError, Global};
use std::marker::Model;

/// A series of one question for each start of one job. Contracts see the list of questions still to come.
#[derive(Drop)]
pub struct Starts1 {
    alloc: Global,
    capacities: Vec<u32>,
    lower: Vec<u32>,
    upper: Vec<u32>,
    place: usize,
    next: u64,
    end: u64,
}

impl Model for Starts1 {
    ghost use Rattle.std.specs.Prelude.{ℕ, ◌-◌, ◌<◌, ◌≤◌, List, length, map, set, All};
    ghost use Rattle.std.specs.List.{range_with_len};
    ghost use Rattle.racp_model.specs.Limits.{most_bound, most_start};
    ghost use Rattle.racp_model.specs.declared.question.Question.{Question};
    ghost use Rattle.racp_candidates.specs.Questions.{question_of, window_at};

    ghost Value = { List Question };

    ghost view = { λ s. map (λ start. question_of s.capacities.items
        (window_at (record { lower = s.lower.items; upper = s.upper.items }) s.place start))
        (range_with_len s.next (s.end - s.next)) };

    ghost invariant = { λ s. (s.place < length s.lower.items) × (s.place < length s.upper.items) × (s.end ≤ 10000001) ×
        All (λ x. x ≤ most_bound) s.lower.items × All (λ x. x ≤ most_start) s.upper.items };
}

impl Starts1 {
    /// One question for each start of the job at this place, from 0, from its lower to its upper bound in the window,
    /// in rising order. Each question has these capacities, and the window with both bounds of the job at that start.
    /// Copies the capacities and the window.
    ///
    /// # Errors
    ///
    /// Memory was refused.
    pub fn new(
        alloc: Global,
        capacities: &Capacities,
        window: &Window,
        place: usize,
    ) -> Result<Self, AllocError>
        requires lower { place < length window.now.lower }
        requires upper { place < length window.now.upper }
        ensures { IfOk result (λ series. series ≡ start_questions capacities.now window.now place) }
    {
        let lower = window.lower();
        let upper = window.upper();
        Ok(Starts1 {
            alloc,
            capacities: capacities.as_slice().to_vec(alloc)?,
            lower: lower.to_vec(alloc)?,
            upper: upper.to_vec(alloc)?,
            place,
            next: lower[place] as u64,
            end: upper[place] as u64 + 1,
        })
    }
}

impl Series for Starts1 {
    ghost questions = { λ series. series };

    #[tactic(auto, using(crate::proofs::Values::values_step))]
    fn next(&mut self) -> Result<Option<Question>, AllocError> {
        if self.end <= self.next {
            return Ok(None);
        }
        let capacities = self.capacities.to_vec(self.alloc)?;
        let lower = copy_with(self.alloc, &self.lower, self.place, self.next as u32)?;
        let upper = copy_with(self.alloc, &self.upper, self.place, self.next as u32)?;
        self.next += 1;
        Ok(Some(Question {
            capacities: Capacities::new(capacities),
            window: Window::new(Starts::new(lower), Starts::new(upper)),
        }))
    }
}
