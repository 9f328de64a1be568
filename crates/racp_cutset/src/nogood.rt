//! Records of refuted nodes, and which nodes a record covers.

ghost use Rattle.std.specs.Prelude.{◌≡◌, ◌↔◌, ◌≤◌, IsTrue};
ghost use Rattle.racp_model.specs.Project.{IsSound};
ghost use Rattle.racp_model.specs.Window.{IsNo};
ghost use Rattle.racp_cutset.specs.Covering.{SearchNode, IsNode, Covers, HasCapacitiesOf, HasUpperOf, HasCutsetOf, EndsNoLater, MayStartAsEarly, FitsBeforeTime, IsRefutedNode};
ghost use Rattle.racp_cutset.specs.Outlines.{IsOutline};
ghost use Rattle.racp_cutset.specs.Records.{settled, Told};
ghost use Rattle.racp_cutset.specs.Told.{told_once};

use crate::node::Node;
use crate::outline::Outline;
use crate::rows::{is_at_least, is_sooner_row};
use racp_model::{Capacities, JobSet, OfNetwork, Question, Starts};
use std::marker::{Model, PhantomData};

/// The record of a refuted node: its question is infeasible, its early starts keep the capacities before its time, and
/// the jobs that start before its time keep their upper bounds. It holds one number for each job: the end of a started
/// job, the lower bound of another. Contracts see the `SearchNode`, with the early starts of its started jobs as their
/// lower bounds.
#[derive(Drop)]
pub struct Nogood<N: OfNetwork> {
    capacities: Capacities,
    upper: Starts,
    bounds: Vec<u32>,
    started: JobSet,
    key: u64,
    time: u32,
    of: PhantomData<N>,
    ghost told: { Told N.network capacities upper bounds.items started time } by { told_once N.network capacities upper bounds.items started time },
}

impl<N: OfNetwork> Model for Nogood<N> {
    ghost use Rattle.racp_model.specs.Project.{IsSound};
    ghost use Rattle.racp_cutset.specs.Covering.{SearchNode, IsRefutedNode};
    ghost use Rattle.racp_cutset.specs.Records.{IsPacked};

    ghost Value = { SearchNode };

    ghost view = { λ n. n.told.0 };

    ghost invariant = { λ n. IsSound N.network ×
        IsPacked N.network n.capacities n.upper n.bounds.items n.started n.time n.told.0 ×
        IsRefutedNode N.network n.told.0 };
}

impl<N: OfNetwork> Nogood<N> {
    /// The record of a refuted node. Takes no memory.
    pub fn of(node: Node<N>) -> Self
        requires fits { FitsBeforeTime N.network node }
        requires refuted { IsNo N.network node.capacities node.window }
        ensures record { result ≡ settled N.network node }
        ensures covers { (other : SearchNode) → Covers N.network result other ↔ Covers N.network node other }
    {
        let (nogood, _, _, _) = Nogood::of_reusing(node);
        nogood
    }

    /// The record of a refuted node, and the three rows that it does not need: the lower bounds, the early starts and
    /// one of the two that `Node::reusing` took. Takes no memory.
    pub fn of_reusing(node: Node<N>) -> (Self, Starts, Starts, Vec<u32>)
        requires fits { FitsBeforeTime N.network node }
        requires refuted { IsNo N.network node.capacities node.window }
        ensures record { result.0 ≡ settled N.network node }
        ensures covers { (other : SearchNode) → Covers N.network result.0 other ↔ Covers N.network node other }
        ensures lower { result.1 ≡ node.window.lower }
        ensures early { result.2 ≡ node.early }
    {
        let Question { capacities, window } = node.question;
        let (lower, upper) = window.into_bounds();
        let nogood = Nogood {
            capacities: trimmed(capacities),
            upper,
            bounds: node.bounds,
            started: node.started,
            key: node.key,
            time: node.time,
            of: node.of,
        };
        (nogood, lower, node.early, node.ends)
    }

    /// A hash of the started jobs: equal for records with the same started jobs.
    pub(crate) fn key(&self) -> u64 {
        self.key
    }

    /// Its outline in the index.
    pub(crate) fn outline(&self) -> Outline
        ensures { IsOutline self.now.time self.now.capacities result }
    {
        Outline::of(self.time, self.capacities.as_slice())
    }

    /// Whether the record covers a node; then the node's question is infeasible. Takes no memory.
    pub fn covers(&self, node: &Node<N>) -> bool
        ensures exact { IsTrue result ↔ Covers N.network self.now node.now }
        ensures refutes { IsTrue result → IsNo N.network node.now.capacities node.now.window }
    {
        self.is_over(node)
    }

    /// Whether the record covers a node, with what is true of the record and of the node, for the contract of `covers`.
    fn is_over(&self, node: &Node<N>) -> bool
        ensures exact { IsTrue result ↔ Covers N.network self.now node.now }
        ensures sound { IsSound N.network }
        ensures node { IsNode N.network node.now }
        ensures own { IsNode N.network self.now }
        ensures refuted { IsRefutedNode N.network self.now }
    {
        self.is_no_later_than(node)
            && self.has_capacities_of(node)
            && self.has_cutset_of(node)
            && self.is_sooner_than(node)
            && self.has_upper_of(node)
    }

    /// Whether the time is no later than that of a node.
    fn is_no_later_than(&self, node: &Node<N>) -> bool
        ensures exact { IsTrue result ↔ (self.now.time ≤ node.now.time) }
        ensures sound { IsSound N.network }
        ensures node { IsNode N.network node.now }
        ensures own { IsNode N.network self.now }
        ensures refuted { IsRefutedNode N.network self.now }
    {
        self.time <= node.time
    }

    /// Whether the record has at least the capacities of a node.
    fn has_capacities_of(&self, node: &Node<N>) -> bool
        ensures { IsTrue result ↔ HasCapacitiesOf N.network self.now node.now }
    {
        let capacities = &node.question.capacities;
        is_at_least(self.capacities.as_slice(), capacities.as_slice())
    }

    /// Whether the same jobs are started in a node, whose time is no earlier.
    fn has_cutset_of(&self, node: &Node<N>) -> bool
        requires { self.now.time ≤ node.now.time }
        ensures { IsTrue result ↔ HasCutsetOf N.network self.now node.now }
    {
        self.started == node.started
    }

    /// Whether each started job ends no later than in a node, or by the node's time, and each other job may start as
    /// early, or at the node's time.
    fn is_sooner_than(&self, node: &Node<N>) -> bool
        requires { HasCutsetOf N.network self.now node.now }
        ensures { IsTrue result ↔ (EndsNoLater N.network self.now node.now ×
            MayStartAsEarly N.network self.now node.now) }
    {
        is_sooner_row(&self.bounds, node.time, &node.bounds)
    }

    /// Whether the record has at least the upper bounds of a node.
    fn has_upper_of(&self, node: &Node<N>) -> bool
        ensures { IsTrue result ↔ HasUpperOf N.network self.now node.now }
    {
        is_at_least(self.upper.as_slice(), node.question.window.upper())
    }

    /// Whether the record covers the node of another one. Takes no memory.
    pub fn covers_record(&self, other: &Nogood<N>) -> bool
        ensures { IsTrue result ↔ Covers N.network self.now other.now }
    {
        self.is_no_later_than_record(other)
            && self.has_capacities_of_record(other)
            && self.has_cutset_of_record(other)
            && self.is_sooner_than_record(other)
            && self.has_upper_of_record(other)
    }

    /// Whether the time is no later than that of another record.
    fn is_no_later_than_record(&self, other: &Nogood<N>) -> bool
        ensures exact { IsTrue result ↔ (self.now.time ≤ other.now.time) }
        ensures refuted { IsRefutedNode N.network self.now }
    {
        self.time <= other.time
    }

    /// Whether the record has at least the capacities of another one.
    fn has_capacities_of_record(&self, other: &Nogood<N>) -> bool
        ensures { IsTrue result ↔ HasCapacitiesOf N.network self.now other.now }
    {
        is_at_least(self.capacities.as_slice(), other.capacities.as_slice())
    }

    /// Whether the same jobs are started in the node of another record, whose time is no earlier.
    fn has_cutset_of_record(&self, other: &Nogood<N>) -> bool
        requires { self.now.time ≤ other.now.time }
        ensures { IsTrue result ↔ HasCutsetOf N.network self.now other.now }
    {
        self.started == other.started
    }

    /// Whether each job ends no later, or may start as early, than in the node of another record, or does by its time.
    fn is_sooner_than_record(&self, other: &Nogood<N>) -> bool
        requires { HasCutsetOf N.network self.now other.now }
        ensures { IsTrue result ↔ (EndsNoLater N.network self.now other.now ×
            MayStartAsEarly N.network self.now other.now) }
    {
        is_sooner_row(&self.bounds, other.time, &other.bounds)
    }

    /// Whether the record has at least the upper bounds of another one.
    fn has_upper_of_record(&self, other: &Nogood<N>) -> bool
        ensures { IsTrue result ↔ HasUpperOf N.network self.now other.now }
    {
        is_at_least(self.upper.as_slice(), other.upper.as_slice())
    }
}

/// Moves the capacities into no more memory than they need.
fn trimmed(capacities: Capacities) -> Capacities
    ensures { result ≡ capacities }
{
    let mut row = capacities.into_vec();
    row.shrink_to_fit();
    Capacities::new(row)
}
