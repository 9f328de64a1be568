//! What is known of the series.

ghost use Rattle.std.specs.Prelude.{◌≡◌, ◌<◌, length, None, Some};
ghost use Rattle.std.specs.List.{slice_get};
ghost use Rattle.racp_questions.specs.FirstYes.{IsReached};
ghost use Rattle.racp_core.specs.Machine.{all_questions};
ghost use Rattle.racp_core.specs.Replies.{IsVerdict, IsKnown, IsOutcome, IsOutcomeKnown, reached_by, capacities_at};
ghost use Rattle.racp_core.specs.Truth.{IsState};

use super::{Core, LeastYes};
use crate::replies::{Outcome, Verdict};
use crate::row::Row;
use crate::undecided::Undecided;
use racp_model::{Capacities, OfNetwork};
use racp_questions::Series;

impl<N: OfNetwork, S: Series> Core<N, S> {
    /// What is known of the series. Takes no memory.
    pub fn answer(&self) -> Verdict<'_>
        ensures answer { IsVerdict self.now result }
        ensures known { IsKnown N.network (all_questions self.now) result }
    {
        if let Some(first_open) = self.undecided.first() {
            return Verdict::Pending { first_open };
        }
        match &self.least {
            Some(least) => Verdict::First {
                index: least.index,
                starts: &least.starts,
            },
            None => {
                if self.ended {
                    Verdict::NoYes
                } else {
                    Verdict::Pending {
                        first_open: self.rows.len(),
                    }
                }
            }
        }
    }

    /// What is known of the series, with the starts moved out. If the answer is open, also the capacities that were
    /// reached: those of the first open question, of the last asked one if that is not asked yet, or none. Takes no
    /// memory.
    pub fn into_answer(self) -> (Outcome, Option<Capacities>)
        ensures answer { IsOutcome self result.0 }
        ensures known { IsOutcomeKnown N.network (all_questions self) result.0 }
        ensures capacities { result.1 ≡ reached_by self result.0 }
        ensures reached { IsReached N.network (all_questions self) result.1 }
    {
        let Known {
            rows,
            undecided,
            least,
            ended,
        } = self.into_known();
        if let Some(first_open) = undecided.first() {
            return (
                Outcome::Open { first_open },
                capacities_of(rows, first_open),
            );
        }
        match least {
            Some(least) => (
                Outcome::First {
                    index: least.index,
                    starts: least.starts,
                },
                None,
            ),
            None => {
                if ended {
                    return (Outcome::NoYes, None);
                }
                let first_open = rows.len();
                (
                    Outcome::Open { first_open },
                    capacities_of(rows, first_open),
                )
            }
        }
    }

    /// What is known, without the series. All else is dropped here, and not at each way out of `into_answer`.
    fn into_known(self) -> Known
        ensures rows { result.rows.items ≡ self.asked }
        ensures least { result.least ≡ self.least }
        ensures ended { result.ended ≡ self.ended }
        ensures state { IsState N.network self result.undecided }
    {
        let Core {
            rows,
            undecided,
            least,
            ended,
            ..
        } = self;
        Known {
            rows,
            undecided,
            least,
            ended,
        }
    }
}

/// What is known of the questions that were asked.
#[derive(Drop)]
struct Known {
    rows: Vec<Row>,
    undecided: Undecided,
    least: Option<LeastYes>,
    ended: bool,
}

/// The capacities of the question at a place, or of the last one if there is none.
fn capacities_of(rows: Vec<Row>, place: usize) -> Option<Capacities>
    ensures { result ≡ capacities_at rows.items place }
{
    let mut rows = rows;
    if rows.is_empty() {
        return None;
    }
    let at = place.min(rows.len() - 1);
    Some(rows.swap_remove(at).into_capacities())
}
