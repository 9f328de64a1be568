//! Clauses that hold.

ghost use Rattle.std.specs.Prelude.{◌≡◌, ◌↔◌, IsTrue, IfSome, Some, [], ◌∷◌, ℕ};
ghost use Rattle.racp_clauses.specs.Solutions.{cost_place};
ghost use Rattle.racp_clauses.specs.Clauses.{Holds, AreFalseWithin, IsRefuted};
ghost use Rattle.racp_clauses.specs.Roots.{IsOpen, IsPartOf};
ghost use Rattle.racp_clauses.specs.Uses.{IsLeastCost};
ghost use Rattle.racp_clauses.specs.declared.literal.Literal.TheVariants.{AtLeast};

use crate::domain::Domain;
use crate::literal::Literal;
use crate::named::OfProblem;
use racp_model::Network;
use std::marker::{Model, PhantomData};

/// A clause that holds: some literal of it is true of each solution of the problem that `N` names. A nogood of lazy
/// clause generation (Ohrimenko, Stuckey and Codish 2009). Contracts see the literals.
#[derive(Drop)]
pub struct Clause<N: OfProblem> {
    pub(crate) literals: Vec<Literal>,
    pub(crate) of: PhantomData<N>,
}

impl<N: OfProblem> Model for Clause<N> {
    ghost use Rattle.std.specs.Prelude.{List};
    ghost use Rattle.racp_clauses.specs.declared.literal.Literal.{Literal};
    ghost use Rattle.racp_clauses.specs.Clauses.{Holds};

    ghost Value = { List Literal };

    ghost view = { λ c. c.literals.items };

    ghost invariant = { λ c. Holds N.problem c.literals.items };
}

impl<N: OfProblem> Clause<N> {
    /// The literals.
    pub fn literals(&self) -> &[Literal]
        ensures literals { result.now ≡ self.now }
        ensures holds { Holds N.problem self.now }
    {
        &self.literals
    }

    /// Whether each literal is false within bounds; then no solution lies within them.
    pub fn refutes(&self, bounds: &Domain) -> bool
        ensures untrue { IsTrue result ↔ AreFalseWithin bounds.now self.now }
        ensures refuted { IsTrue result → IsRefuted N.problem bounds.now }
    {
        self.literals
            .iter()
            .all(|literal| bounds.is_false(*literal))
    }

    /// The least cost, if the clause is the single literal that the cost is at least so much: no capacities that are
    /// enough cost less, if the root bounds leave nothing out.
    pub fn least_cost(&self, net: &Network) -> Option<u64>
        requires { net.now ≡ N.problem.network }
        ensures least { IfSome result (λ least. IsOpen N.problem → IsLeastCost N.problem least) }
        ensures told { (least : ℕ) → self.now ≡ AtLeast (cost_place net.now) least ∷ [] → result ≡ Some least }
    {
        let literals = self.literals();
        if literals.len() != 1 {
            return None;
        }
        let place = net.job_count() + net.resource_count();
        match literals[0] {
            Literal::AtLeast(x, least) if x as usize == place => Some(least),
            _ => None,
        }
    }

    /// The clause as one of a part of the problem, as of an order with a shorter deadline or lower ceilings.
    pub fn of_part<P: OfProblem>(self) -> Clause<P>
        requires { IsPartOf P.problem N.problem }
        ensures { result ≡ self }
    {
        Clause {
            literals: self.literals,
            of: PhantomData,
        }
    }
}
