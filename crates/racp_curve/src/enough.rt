//! Whether some capacities are enough, by what is learned of other deadlines.

ghost use Rattle.std.specs.Prelude.{IfOk};
ghost use Rattle.racp_model.specs.Terms.{AreTermsOf};
ghost use Rattle.racp_by_clauses.specs.Optima.{IsFeasible};
ghost use Rattle.racp_curve.specs.Following.{IsGroundOf, MayBeToldOfWork};
ghost use Rattle.racp_lexfix.specs.Variants.{IsVariantOf};

use crate::awaiting::{Awaited, Muted};
use crate::facts::Facts;
use crate::ground::Ground;
use racp_by_clauses::{Feasible, Task};
use racp_candidates::AnySeries;
use racp_clauses::OfProblem;
use racp_found::Until;
use racp_lexfix::root_bounds;
use racp_prices::Order;
use racp_questions::Asker;
use racp_root::{Opening, opening_of};
use std::alloc::AllocError;
use std::marker::Brand;

impl<N: OfProblem> Facts<'_, N> {
    /// Whether some capacities are enough for a variant of the order. Where no starts are in time, that is left to others.
    pub(crate) fn feasible<A: Asker<AnySeries>>(
        &mut self,
        ground: &Ground,
        other: &Order,
        asker: &A,
    ) -> Result<Feasible, AllocError>
        requires of { IsGroundOf N.problem ground.now }
        requires terms { AreTermsOf ground.now.net.now other.now }
        requires variant { IsVariantOf ground.now.order.now other.now }
        requires told { MayBeToldOfWork A.may_hear }
        ensures { IfOk result (IsFeasible ground.now.net.now other.now) }
    {
        let Ground { alloc, net, .. } = *ground;
        let Opening::Root { window, .. } = opening_of(alloc, net, other)? else {
            return Ok(Feasible::Unknown);
        };
        let Some(root) = root_bounds(alloc, net, other, &window)? else {
            return Ok(Feasible::NoneFits);
        };
        let part = Task {
            alloc,
            net,
            order: other,
            window: &window,
            root: &root.bounds,
        };
        let awaited = self.awaited(other.deadline);
        let until = Until {
            observer: asker,
            end: &awaited,
        };
        let muted = Muted { observer: &until };
        let learned = &mut self.learned;
        learned
            .optimizer
            .feasible::<Brand, Muted<'_, Until<'_, A, Awaited<'_, N>>>>(learned.whole, part, &muted)
    }
}
