//! The series of the capacity vectors of a box, in the order of their costs.

ghost use Rattle.std.specs.Prelude.{◌≡◌, length, IfOk};
ghost use Rattle.racp_model.specs.Project.{AreNumbers};
ghost use Rattle.racp_candidates.specs.Box.{ArePrices, AreBounds, AreBoxQuestions};
ghost use Rattle.racp_candidates.specs.Vectors.{AreVectorsInOrder};

use crate::copies::copy_list;
use crate::frontier::Frontier;
use crate::pairs::next_above;
use racp_model::{Capacities, Question, Window};
use racp_prices::Order;
use racp_questions::Series;
use std::alloc::{AllocError, Global};
use std::marker::Model;

/// A series of one question for each capacity vector of a box, in the order of vectors: by cost, of which owned units
/// have none, and at equal cost in lexicographic order. It keeps the vectors that come next, and not the box. Contracts
/// see the list of questions still to come.
#[derive(Drop)]
pub struct Vectors {
    floors: Vec<u32>,
    pairs: Vec<(u32, u32)>,
    window: Window,
    frontier: Frontier,
}

impl Model for Vectors {
    ghost use Rattle.std.specs.Prelude.{List, length};
    ghost use Rattle.racp_model.specs.Project.{AreNumbers};
    ghost use Rattle.racp_model.specs.declared.question.Question.{Question};
    ghost use Rattle.racp_candidates.specs.Vectors.{box_questions, HavePlaces};

    ghost Value = { List Question };

    ghost view = { λ s. box_questions s.floors.items s.pairs.items s.window s.frontier };

    ghost invariant = { λ s. AreNumbers (length s.floors.items) s.pairs.items × HavePlaces s.floors.items s.frontier };
}

impl Vectors {
    /// One question for each vector of the box of these floors, roofs and refuted pairs, each with this window. A
    /// vector of the box is between floors and roofs, by resource, and above one floor of each pair. Pairs name two
    /// resources by their numbers, from 1.
    ///
    /// # Errors
    ///
    /// Memory was refused.
    pub fn new(
        alloc: Global,
        order: &Order,
        floors: Capacities,
        roofs: Capacities,
        pairs: Vec<(u32, u32)>,
        root: &Window,
    ) -> Result<Self, AllocError>
        requires prices { ArePrices order.now.prices order.now.owned }
        requires floors { length order.now.prices ≡ length floors }
        requires roofs { length roofs ≡ length floors }
        requires bounds { AreBounds floors roofs }
        requires pairs { AreNumbers (length floors) pairs.items }
        ensures { IfOk result (AreBoxQuestions order.now floors roofs pairs.items root.now) }
    {
        let frontier = frontier_of(alloc, order, floors.as_slice(), roofs)?;
        let window = root.copy()?;
        Ok(Vectors {
            floors: floors.into_vec(),
            pairs,
            window,
            frontier,
        })
    }
}

/// All vectors between these floors and roofs.
fn frontier_of(
    alloc: Global,
    order: &Order,
    floors: &[u32],
    roofs: Capacities,
) -> Result<Frontier, AllocError>
    requires prices { ArePrices order.now.prices order.now.owned }
    requires floors { length order.now.prices ≡ length floors.now }
    requires roofs { length roofs ≡ length floors.now }
    requires bounds { AreBounds floors.now roofs }
    ensures { IfOk result (AreVectorsInOrder order.now floors.now roofs) }
{
    let prices = copy_list(alloc, &order.prices)?;
    let owned = copy_list(alloc, &order.owned)?;
    let floors = copy_list(alloc, floors)?;
    Frontier::new(alloc, prices, owned, floors, roofs.into_vec())
}

impl Series for Vectors {
    ghost questions = { λ series. series };

    #[tactic(auto, using(crate::proofs::Boxes::question_taken, crate::proofs::Boxes::no_question, crate::proofs::Boxes::same_questions))]
    fn next(&mut self) -> Result<Option<Question>, AllocError> {
        let window = self.window.copy()?;
        let units = match next_above(&mut self.frontier, &self.floors, &self.pairs)? {
            Some(units) => units,
            None => return Ok(None),
        };
        Ok(Some(Question {
            capacities: Capacities::new(units),
            window,
        }))
    }
}
