//! Clauses over bounds of variables: each is derived step by step, and some show that a plan is the plan of its order.
//!
//! Clauses are the nogoods of lazy clause generation (Ohrimenko, Stuckey and Codish 2009; Schutt, Feydy, Stuckey and
//! Wallace 2011 for resources). Their derivations are checked as LRAT's are (Cruz-Filipe, Heule, Hunt, Kaufmann and
//! Schneider-Kamp 2017).
//!
//! Jobs, resources and variables are named by their places, from 0. Times are whole time units.
//!
//! The variables of a problem are the start of each job, the units of each resource, and the cost, in this order. A
//! solution is a start vector and a capacity vector that it fits, whose values are within the root bounds. A literal
//! says that a variable is at least, or at most, so much; a clause is a list of literals, and holds if some literal of
//! it is true of each solution. That a clause holds is a fact, and the type `Clause` keeps it.
//!
//! A search that learns from its conflicts knows why a clause holds: suppose that none of its literals is true; then
//! some bounds follow, by precedence, by core usage, by energy, by prices and by clauses found before, until nothing is
//! left. It is not trusted: it names the steps, and a `Derivation` takes them. `begin` copies the bounds of the
//! derivation of the clause without literals, which is what holds without a clause; `suppose` meets them with the
//! negation of a literal; each rule meets them with what follows, or does nothing where it does not apply; `finish`
//! gives the clause if nothing is left. So a wrong step is never wrong, but in vain.
//!
//! Two jobs of 3 time units with 1 unit each, from 0 to 4, so their windows are 0 1; and the clause that there are at
//! least 2 units:
//!
//! ```text
//! suppose not: at most 1 unit     job 1  0 1   job 2  0 1   units  0 1
//! energy from 0 to 4              work 6 in 4 time units, rounded up 2: nothing is left
//! ```
//!
//! A derivation has two rows of numbers, and a rule reads them and a network; no rule takes memory. A time-table step
//! takes time for each job, as an energy step does, a clause step for each literal, a cost step for each resource.
//!
//! Values of types with one name `N: OfProblem` are about one problem, as with `OfNetwork` of racp_model: no call can
//! mix the clauses of two. `of_part` takes a clause over to a problem that is part of its own, as that of an order with
//! a shorter deadline.
//!
//! Whether clauses show a plan is told by `establishes`. The plan is the least solution , where solutions are compared
//! by the cost, then by the units of each resource, then by the start of each job (a lexicographic optimum, solved one
//! objective after the other: Isermann 1982). So each variable has a turn in this order. A solution is less than given
//! values *by* one variable where that is less and those of the turns before it are the same. The values of a plan are
//! the least where no solution is less by any of the variables, and one clause shows that for one variable, if each of
//! its literals is
//!
//! - false of the given values, and about a variable of an earlier turn; or
//! - that the variable is at least its given value, or more.
//!
//! Two jobs of 3 time units with 1 unit each, from 0 to 6, at a price of 10; and the plan with 1 unit and the starts 0
//! 3:
//!
//! ```text
//! variable   given   a clause that leaves out what is less
//! cost          10   cost >= 10
//! units          1   cost >= 11, or units >= 1
//! job 1          0   none: the root bounds do
//! job 2          3   units >= 2, or start 1 >= 1, or start 2 >= 3
//! ```
//!
//! A search finds them as it ends: it supposes the values of the earlier turns, and that the variable is less by one at
//! least, and the literals that led to its last conflict are such a clause. The clauses come in the order of the turns,
//! with others between them or not, and one may serve several turns, as `cost >= 11` would serve both the cost and the
//! units.
//!
//! Units above the roof of a resource, which no solution in the root bounds has, cost no less than the roof, and stand
//! no earlier in the order; so clauses about units up to the roofs and the ceilings show that no capacities at all
//! stand before. A resource of price 0 has a turn like any other.
//!
//! Proved of clauses: each `Clause` holds; whoever makes one has to show it, and the type keeps that. Each rule moves
//! the bounds exactly as its definition says, and a derivation keeps that each solution of which no literal of its
//! clause is true is within its bounds. `root_of` gives root bounds that leave nothing out; then `least_cost` is a
//! lower bound on the cost of all capacities that are enough. In `laws`: starts that fit satisfy each clause, units
//! within refuted bounds are not enough, clauses hold of each part of their problem, tighter terms make a part, and
//! each job does its least work wherever it starts. Not proved: that a derivation ends with nothing left.
//!
//! Proved of plans: where `establishes` says yes, the capacities and starts are the plan (`IsPlan` of racp_model);
//! where `none_stand_before` does, none that are enough stand before these; where `leaves_none` does, none are enough.
//! Each says yes where the clauses are so, in the order of the turns. In `laws`: the two laws behind them, without
//! clauses. Not proved: that a plan has such clauses.
#![tactic(auto)]

mod clause;
mod cost;
mod derivation;
mod domain;
mod energy;
mod established;
mod inference;
pub mod laws;
mod least;
mod leaving_out;
mod literal;
mod named;
mod precedence;
mod root;
mod rules;
mod time_table;
mod unit;

pub use clause::Clause;
pub use derivation::Derivation;
pub use domain::Domain;
pub use established::{PlanValues, are_the_least, establishes, leaves_none, none_stand_before};
pub use literal::Literal;
pub use named::OfProblem;
pub use root::root_of;
pub use time_table::Times;
