//! All series of a planner as one type.

use crate::listed::Listed;
use crate::one::One;
use crate::singles::Singles;
use crate::start_values::Starts1;
use crate::vectors::Vectors;
use racp_model::Question;
use racp_questions::Series;
use std::alloc::AllocError;

/// Any series of a planner, as one type: what its asker is handed.
#[derive(Drop)]
pub enum AnySeries {
    /// The vectors of a box.
    Vectors(Vectors),
    /// The units of one resource.
    Singles(Singles),
    /// One question.
    One(One),
    /// Listed questions.
    Listed(Listed),
    /// The starts of one job.
    Starts1(Starts1),
}

impl Series for AnySeries {
    ghost use Rattle.racp_candidates.specs.AnySeries.{any_questions};

    ghost questions = { any_questions };

    fn next(&mut self) -> Result<Option<Question>, AllocError> {
        match self {
            AnySeries::Vectors(series) => series.next(),
            AnySeries::Singles(series) => series.next(),
            AnySeries::One(series) => series.next(),
            AnySeries::Listed(series) => series.next(),
            AnySeries::Starts1(series) => series.next(),
        }
    }
}
