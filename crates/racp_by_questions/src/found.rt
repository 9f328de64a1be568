//! The plan by questions, stage by stage.

ghost use Rattle.std.specs.Prelude.{ℕ, ◌-◌, List, IfOk, IfErr, IfSome};
ghost use Rattle.racp_found.specs.Finds.{IsDecided};
ghost use Rattle.racp_found.specs.Told.{AreFloorsOfEnough, MayBeTold};
ghost use Rattle.racp_by_questions.specs.Stops.{IsStoppedAt, IsPlanStop};

use crate::bounds::floors_and_roofs;
use crate::news::tell_floors;
use crate::raised::raised;
use crate::starts::least_starts;
use crate::stop::PlanStop;
use crate::task::Task;
use crate::vectors::VectorBox;
use racp_bounds::{Sharp, sharpen};
use racp_candidates::AnySeries;
use racp_found::{Found, News};
use racp_model::Capacities;
use racp_prices::cost_of;
use racp_questions::Asker;
use std::alloc::{AllocError, Global};

/// The capacities and the starts of the plan, or that no capacities are enough. Questions go to the asker, which is about this
/// network: first whether the ceilings admit, where there are such, then to sharpen the floors, then for the first capacities
/// that are enough, then for the start of each job. It is told the floors as far as they are sharpened, and what capacities
/// that are enough cost at least. Where it stops before they are sharpened, floors that are known are told, if these are higher. The
/// sharpened floors and the refuted pairs are kept, once they are known.
///
/// # Errors
///
/// The asker gave up, or memory was refused.
pub fn found_by_questions<A: Asker<AnySeries>>(
    task: &Task,
    known: Option<&Capacities>,
    asker: &mut A,
    kept: &mut Option<Sharp>,
) -> Result<Found, PlanStop>
    requires named { A.about asker.old task.now.net.now }
    requires known { IfSome known (λ floors. AreFloorsOfEnough task.now.net.now task.now.order.now floors.now) }
    requires heard { MayBeTold task.now.net.now task.now.order.now A.may_hear }
    ensures network { A.about asker.new task.now.net.now }
    ensures found { IfOk result (IsDecided task.now.net.now task.now.order.now) }
    ensures stop { IfErr result (IsPlanStop (IsStoppedAt task.now.net.now task.now.order.now
        (A.answered asker.new - A.answered asker.old) (A.told asker.new))
        (A.may_stop asker.new) (A.may_want_thread asker.new)) }
{
    let (alloc, net, root) = (task.alloc, task.net, task.root);
    let Some(ends) = floors_and_roofs(task, known, asker)? else {
        return Ok(Found::NoneEnough);
    };
    tell_floors(net, task.order, &ends.floors, asker);
    let sharp = match sharpen(alloc, net, root, ends.floors, &ends.roofs, asker) {
        Ok(sharp) => sharp,
        Err((reached, stop)) => {
            let floors = raised(reached, known);
            tell_floors(net, task.order, &floors, asker);
            return Err(PlanStop::given_up(stop, floors));
        }
    };
    tell_floors(net, task.order, &sharp.floors, asker);
    keep(alloc, &sharp, kept)?;
    let vectors = VectorBox {
        task: *task,
        sharp,
        roofs: &ends.roofs,
    };
    let capacities = vectors.cheapest(asker)?;
    asker.hear(News::Cost(cost_of(net, task.order, capacities.as_slice())));
    match least_starts(alloc, net, &capacities, root, asker) {
        Ok(starts) => Ok(Found::Plan(capacities, starts)),
        Err(stop) => Err(PlanStop::given_up(stop, capacities)),
    }
}

/// Keeps the same floors and pairs.
fn keep(alloc: Global, sharp: &Sharp, kept: &mut Option<Sharp>) -> Result<(), AllocError> {
    let floors = sharp.floors.copy()?;
    let pairs = sharp.pairs.to_vec(alloc)?;
    *kept = Some(Sharp { floors, pairs });
    Ok(())
}
