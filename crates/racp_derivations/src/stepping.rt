//! Taking steps.

ghost use Rattle.std.specs.Prelude.{◌≡◌, MatchBool, Some, None};
ghost use Rattle.racp_model.specs.Terms.{AreTermsOf};
ghost use Rattle.racp_derivations.specs.Checking.{stepped};

use crate::held::Held;
use crate::line::Step;
use racp_clauses::{Derivation, OfProblem, Times};
use racp_model::Network;
use racp_prices::Order;

/// A network and the terms of an order for it.
#[derive(Clone, Copy)]
pub(crate) struct Given<'a> {
    pub(crate) net: &'a Network,
    pub(crate) order: &'a Order,
}

/// Takes a step, and says true; false if it names a clause that is no earlier one.
pub(crate) fn take_step<N: OfProblem>(
    given: &Given,
    clauses: &mut Held<N>,
    derivation: &mut Derivation<N>,
    step: Step,
) -> bool
    requires named { given.now.net.now ≡ N.problem.network }
    requires terms { given.now.order.now ≡ N.problem.terms }
    requires fit { AreTermsOf given.now.net.now given.now.order.now }
    ensures stepped { MatchBool result
        (stepped given.now.net.now given.now.order.now clauses.old derivation.old step ≡ Some derivation.new)
        (stepped given.now.net.now given.now.order.now clauses.old derivation.old step ≡ None) }
    ensures same { clauses.new ≡ clauses.old }
{
    let Given { net, order } = *given;
    match step {
        Step::Pair(at) => derivation.precedence(net, at),
        Step::TimeTable(job, resource, from, until) => {
            derivation.time_table(net, job as usize, resource as usize, Times { from, until });
        }
        Step::Energy(resource, from, until) => {
            derivation.energy(net, resource as usize, Times { from, until });
        }
        Step::Request(job, resource) => {
            derivation.request(net, job as usize, resource as usize);
        }
        Step::Prices => derivation.cost(net, order),
        Step::Budget(resource) => derivation.units(net, order, resource as usize),
        Step::Earlier(at) => return clauses.take(derivation, at),
    }
    true
}
