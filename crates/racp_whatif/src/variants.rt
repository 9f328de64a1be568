//! Changed orders in which each unit costs as much as before.

ghost use Rattle.std.specs.Prelude.{◌≡◌, IfErr, IfOk, IsTrue};
ghost use Rattle.racp_found.specs.Told.{HearsAll};
ghost use Rattle.racp_by_questions.specs.Crowds.{MayStop};
ghost use Rattle.racp_lexfix.specs.Variants.{IsVariantOf};
ghost use Rattle.racp_whatif.specs.Changes.{IsChangeFor};
ghost use Rattle.racp_whatif.specs.Faults.{IsFault};
ghost use Rattle.racp_whatif.specs.Outcomes.{IsFinding, IsOutcome};

use crate::change::Change;
use crate::changing::changed;
use crate::finding::{outcome_by_crew, outcome_of};
use crate::outcome::{Finding, Outcome};
use racp_by_questions::OfTurns;
use racp_clauses::OfProblem;
use racp_desk::Gate;
use racp_found::{Deaf, News, Observer, OfOrder, Until};
use racp_lexfix::{Crew, Learned, PlanStop};
use racp_model::Stop;
use racp_root::Task;
use std::sync::Wait;
use std::thread::Threads;

/// What becomes of an order with this change, by what is learned of an order that costs as much for each unit, where that
/// holds. The order is the one that `N` names; the turns, and whether the stop is quiet, are as `M` says.
pub(crate) fn finding_by<
    N: OfOrder,
    M: OfTurns,
    K: OfProblem,
    G: Gate + Sync,
    P: Stop + Sync,
    O: Observer,
    R: Threads + Wait + Sync,
>(
    rt: &R,
    task: &Task<'_>,
    change: Change,
    learned: &mut Learned<'_, K>,
    crew: &Crew<'_, G, P, O>,
) -> Result<Finding, PlanStop>
    requires change { IsChangeFor task.now.order.now change }
    requires heard { HearsAll O.may_hear }
    requires named { task.now.net.now ≡ N.network }
    requires named_terms { task.now.order.now ≡ N.terms }
    requires named_turns { crew.now.turns ≡ M.turns }
    requires named_quiet { P.is_quiet crew.now.stop.now ≡ M.quiet }
    requires network { N.network ≡ K.problem.network }
    requires variant { IsVariantOf K.problem.terms N.terms }
    ensures change { IfOk result (λ finding. finding.change ≡ change) }
    ensures right { IfOk result (IsFinding (MayStop N.network M.quiet M.turns) N.network N.terms) }
    ensures fault { IfErr result IsFault }
{
    let order = changed(task.alloc, task.order, change)?;
    let other = Task {
        alloc: task.alloc,
        net: task.net,
        order: &order,
    };
    let outcome = outcome_by(rt, &other, change.keeps_costs(), learned, crew);
    // Dropped here once, not at each way out.
    drop(order);
    let outcome = outcome?;
    Ok(Finding { change, outcome })
}

/// What becomes of an order, by what is learned if each unit costs as much as in the order of which that is learned.
fn outcome_by<K: OfProblem, G: Gate + Sync, P: Stop + Sync, O: Observer, R: Threads + Wait + Sync>(
    rt: &R,
    task: &Task<'_>,
    is_variant: bool,
    learned: &mut Learned<'_, K>,
    crew: &Crew<'_, G, P, O>,
) -> Result<Outcome, PlanStop>
    requires network { task.now.net.now ≡ K.problem.network }
    requires variant { IsTrue is_variant → IsVariantOf K.problem.terms task.now.order.now }
    requires heard { HearsAll O.may_hear }
    ensures outcome { IfOk result (IsOutcome (MayStop task.now.net.now (P.is_quiet crew.now.stop.now) crew.now.turns)
        task.now.net.now task.now.order.now) }
    ensures fault { IfErr result IsFault }
{
    if is_variant {
        return variant_outcome(rt, task, learned, crew);
    }
    outcome_by_crew(rt, task.alloc, task.net, task.order, crew)
}

/// What becomes of a variant of the order of which this is learned; where that leaves it open, such workers plan it.
fn variant_outcome<
    K: OfProblem,
    G: Gate + Sync,
    P: Stop + Sync,
    O: Observer,
    R: Threads + Wait + Sync,
>(
    rt: &R,
    task: &Task<'_>,
    learned: &mut Learned<'_, K>,
    crew: &Crew<'_, G, P, O>,
) -> Result<Outcome, PlanStop>
    requires network { task.now.net.now ≡ K.problem.network }
    requires variant { IsVariantOf K.problem.terms task.now.order.now }
    requires heard { HearsAll O.may_hear }
    ensures outcome { IfOk result (IsOutcome (MayStop task.now.net.now (P.is_quiet crew.now.stop.now) crew.now.turns)
        task.now.net.now task.now.order.now) }
    ensures fault { IfErr result IsFault }
{
    let order = task.order;
    crew.observer.hear(News::Deadline(order.deadline));
    let end = Deaf { stop: crew.stop };
    let until = Until {
        observer: crew.observer,
        end: &end,
    };
    match learned.answer(task, &until)? {
        Some(answer) => outcome_of(task, answer),
        None => outcome_by_crew(rt, task.alloc, task.net, task.order, crew),
    }
}
