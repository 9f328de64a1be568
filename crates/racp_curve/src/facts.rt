//! What is learned of one deadline and serves the others.

ghost use Rattle.std.specs.Prelude.{◌≡◌, ◌≤◌, IfOk, IfSome};
ghost use Rattle.racp_model.specs.Terms.{AreTermsOf};
ghost use Rattle.racp_lexfix.specs.Answers.{IsAnswer};
ghost use Rattle.racp_found.specs.Told.{MayBeTold};
ghost use Rattle.racp_by_clauses.specs.Optima.{IsTaskOf};
ghost use Rattle.racp_curve.specs.Curves.{order_by};
ghost use Rattle.racp_curve.specs.Following.{ArePlannedFrom, IsEarlier, IsGroundOf};
ghost use Rattle.racp_lexfix.specs.Variants.{IsVariantOf};

use crate::ahead::Ahead;
use crate::awaiting::Awaited;
use crate::earlier::Earlier;
use crate::ground::Ground;
use racp_by_clauses::Limits;
use racp_candidates::AnySeries;
use racp_clauses::OfProblem;
use racp_found::Until;
use racp_lexfix::{Answer, Learned};
use racp_model::Capacities;
use racp_prices::Order;
use racp_questions::Asker;
use racp_root::Task;
use std::alloc::AllocError;

/// The order of a curve, and what a worker has learned of it. That holds for each earlier deadline, and for lower ceilings.
/// With other workers, what they have found ahead.
#[derive(Drop)]
pub(crate) struct Facts<'a, N: OfProblem> {
    pub(crate) learned: Learned<'a, N>,
    ahead: Option<&'a Ahead<'a, N>>,
}

impl<'a, N: OfProblem> Facts<'a, N> {
    /// Nothing is learned yet.
    pub(crate) fn new(
        whole: racp_by_clauses::Task<'a>,
        limits: Limits,
        ahead: Option<&'a Ahead<'a, N>>,
    ) -> Result<Self, AllocError>
        requires { IsTaskOf N.problem whole }
    {
        let learned: Learned<'_, N> = Learned::new(whole, limits)?;
        Ok(Facts { learned, ahead })
    }

    /// Tells the other workers that the curve is followed from a deadline on.
    pub(crate) fn move_to(&self, deadline: u32) {
        if let Some(ahead) = self.ahead {
            ahead.move_to(deadline);
        }
    }

    /// Whether the capacities of the plan for a later deadline are enough for this one, by what other workers have found.
    pub(crate) fn earlier_ahead(&self, capacities: &Capacities, deadline: u32) -> Earlier
        requires { ArePlannedFrom N.problem.network N.problem.terms deadline capacities.now }
        ensures { IsEarlier N.problem.network N.problem.terms capacities.now deadline result }
    {
        match self.ahead {
            Some(ahead) => ahead.earlier(capacities, deadline),
            None => Earlier::Unknown,
        }
    }

    /// The plan of the order with an earlier deadline, or that no capacities are enough. `None` where neither is known, and
    /// where no starts are in time.
    pub(crate) fn known_answer<A: Asker<AnySeries>>(
        &mut self,
        ground: &Ground,
        other: &Order,
        asker: &A,
    ) -> Result<Option<Answer>, AllocError>
        requires of { IsGroundOf N.problem ground.now }
        requires within { other.now.deadline ≤ ground.now.order.now.deadline }
        requires by { other.now ≡ order_by other.now.deadline ground.now.order.now }
        requires heard { MayBeTold ground.now.net.now other.now A.may_hear }
        ensures { IfOk result (λ told. IfSome told (IsAnswer ground.now.net.now other.now)) }
    {
        match self.answer_ahead(ground, other)? {
            Some(answer) => Ok(Some(answer)),
            None => match self.own_answer(ground, other, asker)? {
                Some(answer) => Ok(Some(answer)),
                None => self.answer_ahead(ground, other),
            },
        }
    }

    /// The plan that another worker has found.
    fn answer_ahead(&self, ground: &Ground, other: &Order) -> Result<Option<Answer>, AllocError>
        requires of { IsGroundOf N.problem ground.now }
        requires by { other.now ≡ order_by other.now.deadline ground.now.order.now }
        ensures { IfOk result (λ told. IfSome told (IsAnswer ground.now.net.now other.now)) }
    {
        let Some(ahead) = self.ahead else {
            return Ok(None);
        };
        match ahead.plan_for(other.deadline) {
            Some(settled) => {
                let plan = settled.plan_for(ground.alloc, other.deadline)?;
                Ok(Some(Answer::Plan(plan)))
            }
            None => Ok(None),
        }
    }

    /// What a search of its own finds.
    fn own_answer<A: Asker<AnySeries>>(
        &mut self,
        ground: &Ground,
        other: &Order,
        asker: &A,
    ) -> Result<Option<Answer>, AllocError>
        requires of { IsGroundOf N.problem ground.now }
        requires terms { AreTermsOf ground.now.net.now other.now }
        requires variant { IsVariantOf ground.now.order.now other.now }
        requires heard { MayBeTold ground.now.net.now other.now A.may_hear }
        ensures { IfOk result (λ told. IfSome told (IsAnswer ground.now.net.now other.now)) }
    {
        let task = Task {
            alloc: ground.alloc,
            net: ground.net,
            order: other,
        };
        let awaited = self.awaited(other.deadline);
        let until = Until {
            observer: asker,
            end: &awaited,
        };
        self.learned.answer(&task, &until)
    }

    /// Whether other workers plan ahead.
    pub(crate) fn has_helpers(&self) -> bool {
        self.ahead.is_some()
    }

    /// What is awaited of other workers.
    pub(crate) fn awaited(&self, deadline: u32) -> Awaited<'a, N> {
        Awaited {
            ahead: self.ahead,
            deadline,
        }
    }
}
