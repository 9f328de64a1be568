//! Floors and roofs of an order, with its ceilings.

ghost use Rattle.std.specs.Prelude.{◌≡◌, ◌↔◌, ℕ, ◌+◌, ◌-◌, ◌<◌, ◌≤◌, List, OnOk, OnErr, IfOk, IfErr, IfSome, IsTrue, MatchOption, is_some, length};
ghost use Rattle.racp_model.specs.Formed.{HasBounds};
ghost use Rattle.racp_model.specs.Plan.{NoneIsEnough};
ghost use Rattle.racp_bounds.specs.Floors.{AreFloors};
ghost use Rattle.racp_candidates.specs.Box.{AreBounds};
ghost use Rattle.racp_questions.specs.FirstYes.{MayGiveUp};
ghost use Rattle.racp_found.specs.Told.{AreFloorsOfEnough, MayBeTold};
ghost use Rattle.racp_by_questions.specs.Stages.{AreFirstEnds, IsBounded, IsYesOrNo};
ghost use Rattle.racp_by_questions.specs.Stops.{IsStoppedAt, IsPlanStop, given_up};

use crate::news::tell_floors;
use crate::raised::raised;
use crate::stop::PlanStop;
use crate::task::Task;
use racp_bounds::floors;
use racp_candidates::{AnySeries, One};
use racp_model::{Capacities, Network, Window};
use racp_prices::{Order, most_units};
use racp_questions::{AskStop, Asker, First};
use std::alloc::{AllocError, Global};

/// So many vectors from the floors to the roofs are few.
const FEW_VECTORS: u64 = 64;

/// The least and the most units of each resource, from place 0.
#[derive(Drop)]
pub struct Ends {
    /// The floors.
    pub floors: Capacities,
    /// The roofs.
    pub roofs: Capacities,
}

impl Ends {
    /// Whether at most 64 vectors lie from the floors to the roofs. So few are asked one by one, in their order.
    pub fn is_small(&self) -> bool {
        is_small(&self.floors, &self.roofs)
    }
}

/// The floors, and the roofs cut to the ceilings, before anything is asked; or none where a floor is above its roof, so that
/// no capacities are enough.
///
/// # Errors
///
/// Memory was refused.
pub fn first_ends(task: &Task) -> Result<Option<Ends>, AllocError>
    ensures { IfOk result (λ found. MatchOption found (NoneIsEnough task.now.net.now task.now.order.now)
        (AreFirstEnds task.now.net.now task.now.order.now task.now.root.now)) }
{
    let floors = lowest_units(task)?;
    let roofs = most_units(task.alloc, task.net, task.order)?;
    if !is_below(&floors, &roofs) {
        return Ok(None);
    }
    Ok(Some(Ends { floors, roofs }))
}

/// The floors, and the roofs cut to the ceilings; or none where no capacities within the ceilings are enough. That is
/// asked where there are ceilings and no floor is above its roof. Where that is stopped, floors that are known are told, if these
/// are higher.
///
/// # Errors
///
/// The asker gave up, or memory was refused.
pub(crate) fn floors_and_roofs<A: Asker<AnySeries>>(
    task: &Task,
    known: Option<&Capacities>,
    asker: &mut A,
) -> Result<Option<Ends>, PlanStop>
    requires named { A.about asker.old task.now.net.now }
    requires known { IfSome known (λ floors. AreFloorsOfEnough task.now.net.now task.now.order.now floors.now) }
    requires heard { MayBeTold task.now.net.now task.now.order.now A.may_hear }
    ensures network { A.about asker.new task.now.net.now }
    ensures bounded { IfOk result (IsBounded task.now.net.now task.now.order.now task.now.root.now
        (A.answered asker.new - A.answered asker.old)) }
    ensures no_fewer { A.answered asker.old ≤ A.answered asker.new }
    ensures stop { IfErr result (IsPlanStop (IsStoppedAt task.now.net.now task.now.order.now
        (A.answered asker.new - A.answered asker.old) (A.told asker.new))
        (A.may_stop asker.new) (A.may_want_thread asker.new)) }
{
    let Some(ends) = first_ends(task)? else {
        return Ok(None);
    };
    if !has_ceilings(task.order) {
        return Ok(Some(ends));
    }
    tell_floors(task.net, task.order, &ends.floors, asker);
    match is_yes(task.alloc, task.net, &ends.roofs, task.root, asker) {
        Ok(true) => Ok(Some(ends)),
        Ok(false) => Ok(None),
        Err(stop) => Err(PlanStop::given_up(stop, raised(ends.floors, known))),
    }
}

/// The floor of each resource.
fn lowest_units(task: &Task) -> Result<Capacities, AllocError>
    ensures { IfOk result (AreFloors task.now.net.now task.now.root.now task.now.order.now.deadline) }
{
    let order = task.order;
    floors(task.alloc, task.net, task.root, order.deadline)
}

/// Whether the order has ceilings.
fn has_ceilings(order: &Order) -> bool
    ensures { result ≡ is_some order.now.ceilings }
{
    order.ceilings.is_some()
}

/// Whether no floor is above its roof.
fn is_below(floors: &Capacities, roofs: &Capacities) -> bool
    requires { length floors.now ≡ length roofs.now }
    ensures { IsTrue result ↔ AreBounds floors.now roofs.now }
{
    are_bounds(floors.as_slice(), roofs.as_slice())
}

/// Whether no number is above the one at its place in another list.
fn are_bounds(floors: &[u32], roofs: &[u32]) -> bool
    requires { length floors.now ≡ length roofs.now }
    ensures { IsTrue result ↔ AreBounds floors.now roofs.now }
{
    floors.iter().zip(roofs).all(|(low, high)| *low <= *high)
}

/// Whether some starts in the window keep precedence and the capacities.
fn is_yes<A: Asker<AnySeries>>(
    alloc: Global,
    net: &Network,
    capacities: &Capacities,
    window: &Window,
    asker: &mut A,
) -> Result<bool, AskStop>
    requires named { A.about asker.old net.now }
    requires capacities { length capacities.now ≡ net.now.resources }
    requires window { HasBounds net.now window.now }
    ensures network { A.about asker.new net.now }
    ensures decided { IfOk result (IsYesOrNo net.now capacities.now window.now) }
    ensures answered { OnOk result (A.answered asker.new ≡ A.answered asker.old + 1) }
    ensures unanswered { OnErr result (A.answered asker.new ≡ A.answered asker.old) }
    ensures stop { IfErr result (MayGiveUp (A.may_stop asker.new) (A.may_want_thread asker.new)) }
{
    let question = One::new(alloc, capacities, window)?;
    match asker.first(net, AnySeries::One(question))? {
        First::Yes { .. } => Ok(true),
        First::None => Ok(false),
    }
}

/// Whether there are so few vectors from the floors to the roofs that they are asked one by one, in their order.
pub(crate) fn is_small(floors: &Capacities, roofs: &Capacities) -> bool {
    let (floors, roofs) = (floors.as_slice(), roofs.as_slice());
    let mut count: u64 = 1;
    for (floor, roof) in floors.iter().zip(roofs) {
        let units = roof.saturating_sub(*floor) as u64 + 1;
        count = count.saturating_mul(units);
    }
    count <= FEW_VECTORS
}
