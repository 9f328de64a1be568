//! For which deadlines capacities are enough.

ghost use Rattle.std.specs.Prelude.{◌≡◌, ◌≤◌, None, length, OnOk, IfOk, IfErr};
ghost use Rattle.racp_model.specs.Schedule.{EndsBy};
ghost use Rattle.racp_model.specs.Terms.{IsWithinCeilings};
ghost use Rattle.racp_model.specs.Plan.{IsEnough};
ghost use Rattle.racp_model.specs.Formed.{HasBounds};
ghost use Rattle.racp_questions.specs.FirstYes.{IsProbed};
ghost use Rattle.racp_candidates.specs.Questions.{question_of};
ghost use Rattle.racp_by_questions.specs.Stops.{IsPlanStop};
ghost use Rattle.racp_curve.specs.Curves.{order_by};
ghost use Rattle.racp_curve.specs.Following.{ArePlannedFrom, IsEarlier, IsGroundOf, IsShortest, IsSooner, MayBeToldOfWork};

use crate::deadline::{root_by, with_ceilings};
use crate::earlier::Earlier;
use crate::facts::Facts;
use crate::ground::Ground;
use racp_by_clauses::Feasible;
use racp_candidates::AnySeries;
use racp_clauses::OfProblem;
use racp_cpm::last_end;
use racp_lexfix::PlanStop;
use racp_model::{Capacities, Network, Question, Starts, Window};
use racp_questions::{Asker, Probe};
use std::alloc::AllocError;

/// Lowers a time by which some starts that fit these capacities end, on the terms of the order, to the least such time:
/// they are enough for that deadline, and for none before it. If it ends early, they are enough for the deadline that
/// it came to.
pub(crate) fn shorten<N: OfProblem, A: Asker<AnySeries>>(
    ground: &Ground,
    capacities: &Capacities,
    end: &mut u32,
    facts: &mut Option<Facts<'_, N>>,
    asker: &mut A,
) -> Result<(), PlanStop>
    requires named { A.about asker.old ground.now.net.now }
    requires of { IsGroundOf N.problem ground.now }
    requires told { MayBeToldOfWork A.may_hear }
    requires end { end.old ≤ ground.now.order.now.deadline }
    requires planned { ArePlannedFrom ground.now.net.now ground.now.order.now end.old capacities.now }
    requires enough { IsEnough ground.now.net.now (order_by end.old ground.now.order.now) capacities.now }
    ensures network { A.about asker.new ground.now.net.now }
    ensures sooner { end.new ≤ end.old }
    ensures enough { IsEnough ground.now.net.now (order_by end.new ground.now.order.now) capacities.now }
    ensures shortest { OnOk result (IsShortest ground.now.net.now ground.now.order.now capacities.now end.new) }
    ensures stop { IfErr result (IsPlanStop (λ told. told ≡ capacities.now)
        (A.may_stop asker.new) (A.may_want_thread asker.new)) }
{
    'ends: while let Some(deadline) = end.checked_sub(1) {
        match sooner(ground, capacities, deadline, facts, asker)? {
            Some(earlier) => *end = earlier,
            None => return Ok(()),
        }
    }
    Ok(())
}

/// A deadline, at most this one, for which the capacities are enough; or none if they are not enough for this one.
fn sooner<N: OfProblem, A: Asker<AnySeries>>(
    ground: &Ground,
    capacities: &Capacities,
    deadline: u32,
    facts: &mut Option<Facts<'_, N>>,
    asker: &mut A,
) -> Result<Option<u32>, PlanStop>
    requires named { A.about asker.old ground.now.net.now }
    requires of { IsGroundOf N.problem ground.now }
    requires told { MayBeToldOfWork A.may_hear }
    requires deadline { deadline ≤ ground.now.order.now.deadline }
    requires places { length capacities.now ≡ ground.now.net.now.resources }
    requires ceilings { IsWithinCeilings ground.now.order.now capacities.now }
    requires planned { ArePlannedFrom ground.now.net.now ground.now.order.now deadline capacities.now }
    ensures network { A.about asker.new ground.now.net.now }
    ensures sooner { IfOk result (IsSooner ground.now.net.now ground.now.order.now capacities.now deadline) }
    ensures stop { IfErr result (IsPlanStop (λ told. told ≡ capacities.now)
        (A.may_stop asker.new) (A.may_want_thread asker.new)) }
{
    if let Some(facts) = facts {
        match known_earlier(ground, capacities, deadline, facts, asker)? {
            Earlier::Enough(end) => return Ok(Some(end)),
            Earlier::NotEnough => return Ok(None),
            Earlier::Unknown => {}
        }
    }
    let Some(window) = root_by(ground, deadline)? else {
        return Ok(None);
    };
    match ask(ground.net, window, capacities, asker)? {
        Probe::Yes(starts) => Ok(Some(end_of(ground.net, &starts, deadline))),
        Probe::No => Ok(None),
        Probe::Open => unreachable!(),
    }
}

/// The same, by what is learned, or found by other workers.
fn known_earlier<N: OfProblem, A: Asker<AnySeries>>(
    ground: &Ground,
    capacities: &Capacities,
    deadline: u32,
    facts: &mut Facts<'_, N>,
    asker: &A,
) -> Result<Earlier, AllocError>
    requires of { IsGroundOf N.problem ground.now }
    requires told { MayBeToldOfWork A.may_hear }
    requires deadline { deadline ≤ ground.now.order.now.deadline }
    requires places { length capacities.now ≡ ground.now.net.now.resources }
    requires ceilings { IsWithinCeilings ground.now.order.now capacities.now }
    requires planned { ArePlannedFrom ground.now.net.now ground.now.order.now deadline capacities.now }
    ensures { IfOk result (IsEarlier ground.now.net.now ground.now.order.now capacities.now deadline) }
{
    facts.move_to(deadline);
    match facts.earlier_ahead(capacities, deadline) {
        Earlier::Enough(end) => Ok(Earlier::Enough(end)),
        Earlier::NotEnough => Ok(Earlier::NotEnough),
        Earlier::Unknown => match learned_earlier(ground, capacities, deadline, facts, asker)? {
            Earlier::Enough(end) => Ok(Earlier::Enough(end)),
            Earlier::NotEnough => Ok(Earlier::NotEnough),
            Earlier::Unknown => Ok(facts.earlier_ahead(capacities, deadline)),
        },
    }
}

/// The same, by what is learned.
fn learned_earlier<N: OfProblem, A: Asker<AnySeries>>(
    ground: &Ground,
    capacities: &Capacities,
    deadline: u32,
    facts: &mut Facts<'_, N>,
    asker: &A,
) -> Result<Earlier, AllocError>
    requires of { IsGroundOf N.problem ground.now }
    requires told { MayBeToldOfWork A.may_hear }
    requires deadline { deadline ≤ ground.now.order.now.deadline }
    requires places { length capacities.now ≡ ground.now.net.now.resources }
    requires ceilings { IsWithinCeilings ground.now.order.now capacities.now }
    ensures { IfOk result (IsEarlier ground.now.net.now ground.now.order.now capacities.now deadline) }
{
    let other = with_ceilings(ground.alloc, ground.order, deadline, capacities)?;
    if !other.is_for(ground.net) {
        return Ok(Earlier::Unknown);
    }
    match facts.feasible(ground, &other, asker)? {
        Feasible::Fits(draft) => Ok(Earlier::Enough(end_of(ground.net, &draft.starts, deadline))),
        Feasible::NoneFits => Ok(Earlier::NotEnough),
        Feasible::Unknown => Ok(Earlier::Unknown),
    }
}

/// What the asker tells of capacities and a window. If it stops, these capacities are told.
fn ask<A: Asker<AnySeries>>(
    net: &Network,
    window: Window,
    capacities: &Capacities,
    asker: &mut A,
) -> Result<Probe, PlanStop>
    requires named { A.about asker.old net.now }
    requires window { HasBounds net.now window }
    requires places { length capacities.now ≡ net.now.resources }
    ensures network { A.about asker.new net.now }
    ensures probed { IfOk result (IsProbed net.now (question_of capacities.now window) None) }
    ensures stop { IfErr result (IsPlanStop (λ told. told ≡ capacities.now)
        (A.may_stop asker.new) (A.may_want_thread asker.new)) }
{
    let not_before = capacities.copy()?;
    let asked = capacities.copy()?;
    let question = Question {
        capacities: asked,
        window,
    };
    match asker.probe(net, question, None) {
        Ok(probe) => Ok(probe),
        Err(stop) => Err(PlanStop::given_up(stop, not_before)),
    }
}

/// When the last job ends, of starts that end by a deadline.
pub(crate) fn end_of(net: &Network, starts: &Starts, deadline: u32) -> u32
    requires places { length starts.now ≡ length net.now.jobs }
    requires ends { EndsBy net.now (λ _. deadline) starts.now }
    ensures within { result ≤ deadline }
    ensures ends { EndsBy net.now (λ _. result) starts.now }
{
    last_end(net, starts) as u32
}
