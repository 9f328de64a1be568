//! The rules by which a derivation goes on. Each does nothing where there is no such pair, job or resource.

ghost use Rattle.std.specs.Prelude.{◌≡◌};
ghost use Rattle.racp_model.specs.Terms.{AreTermsOf};
ghost use Rattle.racp_clauses.specs.Inferences.{by_clause, with_inference};
ghost use Rattle.racp_clauses.specs.Rules.{along_pair, of_job, of_resource, by_time_table, by_energy, by_request, by_units, by_cost};

use crate::clause::Clause;
use crate::cost::{least_cost, most_units};
use crate::derivation::Derivation;
use crate::energy::{energy, request};
use crate::named::OfProblem;
use crate::precedence::{start_before, start_behind};
use crate::time_table::{Times, time_table};
use crate::unit::unit;
use racp_model::Network;
use racp_prices::Order;

impl<N: OfProblem> Derivation<N> {
    /// Narrows the bounds along the pair at a place, from 0, of the precedence relation: the second job starts when the
    /// first has ended at the earliest, and the first early enough for the second.
    pub fn precedence(&mut self, net: &Network, pair: usize)
        requires { net.now ≡ N.problem.network }
        ensures { self.new ≡ along_pair net.now self.old pair }
    {
        let arcs = net.arcs();
        if pair < arcs.len() {
            let (first, second) = arcs[pair];
            let (i, j) = (first as usize - 1, second as usize - 1);
            self.apply(start_behind(net, self.bounds(), i, j));
            self.apply(start_before(net, self.bounds(), i, j));
        }
    }

    /// If the jobs that run throughout some times wherever they start leave no room on a resource for another job, that
    /// one runs at none of these times: it starts behind them if it could not end before, and ends before if it could
    /// not start behind (time-table reasoning, Le Pape 1994). Jobs and resources are named by their places, from 0.
    pub fn time_table(&mut self, net: &Network, job: usize, resource: usize, times: Times)
        requires { net.now ≡ N.problem.network }
        ensures { self.new ≡ with_inference self.old
            (of_job net.now job (of_resource net.now resource (by_time_table net.now self.old.bounds job resource times.from times.until))) }
    {
        if job < net.job_count() && resource < net.resource_count() {
            self.apply(time_table(net, self.bounds(), job, resource, times));
        }
    }

    /// The units of a resource are at least the least work that the jobs do at some times wherever they start, over how
    /// many these are, rounded up (energetic reasoning, Erschler, Lopez and Thuriot 1991).
    pub fn energy(&mut self, net: &Network, resource: usize, times: Times)
        requires { net.now ≡ N.problem.network }
        ensures { self.new ≡ with_inference self.old
            (of_resource net.now resource (by_energy net.now self.old.bounds resource times.from times.until)) }
    {
        if resource < net.resource_count() {
            self.apply(energy(net, self.bounds(), resource, times));
        }
    }

    /// The units of a resource are at least what a job requests that runs for some time.
    pub fn request(&mut self, net: &Network, job: usize, resource: usize)
        requires { net.now ≡ N.problem.network }
        ensures { self.new ≡ with_inference self.old (of_job net.now job (of_resource net.now resource (by_request net.now job resource))) }
    {
        if job < net.job_count() && resource < net.resource_count() {
            self.apply(request(net, job, resource));
        }
    }

    /// The cost is at least that of the least units.
    pub fn cost(&mut self, net: &Network, order: &Order)
        requires named { net.now ≡ N.problem.network }
        requires terms { order.now ≡ N.problem.terms }
        requires fit { AreTermsOf net.now order.now }
        ensures { self.new ≡ with_inference self.old (by_units net.now order.now self.old.bounds) }
    {
        self.apply(least_cost(net, self.bounds(), order));
    }

    /// The units of a resource that has a price are at most the owned ones and those that the greatest cost pays for,
    /// less what the least units of the others cost.
    pub fn units(&mut self, net: &Network, order: &Order, resource: usize)
        requires named { net.now ≡ N.problem.network }
        requires terms { order.now ≡ N.problem.terms }
        requires fit { AreTermsOf net.now order.now }
        ensures { self.new ≡ with_inference self.old (of_resource net.now resource (by_cost net.now order.now self.old.bounds resource)) }
    {
        if resource < net.resource_count() {
            self.apply(most_units(net, self.bounds(), order, resource));
        }
    }

    /// If all literals of a clause but one are false within the bounds, narrows them by that one; if all are, nothing
    /// is left.
    pub fn clause(&mut self, clause: &Clause<N>)
        ensures { self.new ≡ with_inference self.old (by_clause self.old.bounds clause.now) }
    {
        self.apply(unit(self.bounds(), clause.literals()));
    }
}
