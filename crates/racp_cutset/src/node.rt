//! Nodes of the search.

ghost use Rattle.std.specs.Prelude.{◌≡◌, IfOk, slice_index};
ghost use Rattle.racp_model.specs.Formed.{IsFormed};
ghost use Rattle.racp_model.specs.Path.{IsEarly};
ghost use Rattle.racp_model.specs.Project.{IsSound};
ghost use Rattle.racp_cutset.specs.Covering.{SearchNode, IsNode, AreEnds, AreStartedBefore};
ghost use Rattle.racp_cutset.specs.Rows.{AreBounds};

use crate::rows::{bounds_of, ends_of, hash_of, started_before};
use racp_cpm::early;
use racp_model::{JobSet, Network, OfNetwork, Question, Starts};
use std::alloc::{AllocError, Global};
use std::marker::{Model, PhantomData};

/// A node of the search: a question about the network that `N` names, the early starts of its window, and a time.
/// It holds when each job ends in the early starts, and what a record of it keeps: the end of a started job, the lower
/// bound of another. Contracts see a `SearchNode`.
#[derive(Drop)]
pub struct Node<N: OfNetwork> {
    pub(crate) question: Question,
    pub(crate) early: Starts,
    pub(crate) ends: Vec<u32>,
    pub(crate) bounds: Vec<u32>,
    pub(crate) started: JobSet,
    pub(crate) key: u64,
    pub(crate) time: u32,
    pub(crate) of: PhantomData<N>,
}

impl<N: OfNetwork> Model for Node<N> {
    ghost use Rattle.racp_model.specs.Project.{IsSound};
    ghost use Rattle.racp_cutset.specs.Covering.{SearchNode, IsNode, AreEnds, AreStartedBefore};
    ghost use Rattle.racp_cutset.specs.Rows.{AreBounds};

    ghost Value = { SearchNode };

    ghost view = { λ n. record {
      capacities = n.question.capacities;
      window = n.question.window;
      early = n.early;
      time = n.time;
    } };

    ghost invariant = { λ n. let v : SearchNode =
        record { capacities = n.question.capacities; window = n.question.window; early = n.early; time = n.time } in
        IsSound N.network × IsNode N.network v × AreEnds N.network v.early n.ends.items ×
        AreStartedBefore v.early v.time n.started ×
        AreBounds v.early v.time n.ends.items v.window.lower n.bounds.items };
}

impl<N: OfNetwork> Node<N> {
    /// The node of a question and a time: with the early starts of the question's window.
    ///
    /// # Errors
    ///
    /// Memory was refused.
    pub fn new(
        alloc: Global,
        net: &Network,
        question: Question,
        time: u32,
    ) -> Result<Self, AllocError>
        requires named { net.now ≡ N.network }
        requires formed { IsFormed net.now question }
        ensures capacities { IfOk result (λ node. node.capacities ≡ question.capacities) }
        ensures window { IfOk result (λ node. node.window ≡ question.window) }
        ensures early { IfOk result (λ node. IsEarly net.now (slice_index question.window.lower) node.early) }
        ensures time { IfOk result (λ node. node.time ≡ time) }
    {
        prove!(question.window.lower().len() == net.job_count());
        let early = early(alloc, net, question.window.lower())?;
        let rows = (Vec::new(alloc), Vec::new(alloc));
        Node::reusing(net, question, early, rows, time)
    }

    /// The node of a question, the early starts of its window and a time. The memory of the two rows is used again.
    ///
    /// # Errors
    ///
    /// Memory was refused.
    pub fn reusing(
        net: &Network,
        question: Question,
        early: Starts,
        rows: (Vec<u32>, Vec<u32>),
        time: u32,
    ) -> Result<Self, AllocError>
        requires named { net.now ≡ N.network }
        requires formed { IsFormed net.now question }
        requires early { IsEarly net.now (slice_index question.window.lower) early }
        ensures capacities { IfOk result (λ node. node.capacities ≡ question.capacities) }
        ensures window { IfOk result (λ node. node.window ≡ question.window) }
        ensures early { IfOk result (λ node. node.early ≡ early) }
        ensures time { IfOk result (λ node. node.time ≡ time) }
    {
        let rows = rows_of(net, &question, &early, rows, time)?;
        Ok(Node::of_rows(net, question, early, rows, time))
    }

    /// The node of a question, the early starts of its window, the two rows for these and a time.
    fn of_rows(
        net: &Network,
        question: Question,
        early: Starts,
        rows: (Vec<u32>, Vec<u32>),
        time: u32,
    ) -> Self
        requires named { net.now ≡ N.network }
        requires formed { IsFormed net.now question }
        requires early { IsEarly net.now (slice_index question.window.lower) early }
        requires ends { AreEnds net.now early rows.0.items }
        requires bounds { AreBounds early time rows.0.items question.window.lower rows.1.items }
        ensures { result ≡ record { capacities = question.capacities; window = question.window; early = early; time = time } }
    {
        prove!(question.window.lower().len() == net.job_count());
        let (ends, bounds) = rows;
        let started = started_before(early.as_slice(), time);
        let key = hash_of(&started);
        Node {
            question,
            early,
            ends,
            bounds,
            started,
            key,
            time,
            of: PhantomData,
        }
    }

    /// Gives the rows back: the question, the early starts, and the two rows that `reusing` took. Takes no memory.
    pub fn into_rows(self) -> (Question, Starts, (Vec<u32>, Vec<u32>))
        ensures capacities { result.0.capacities ≡ self.capacities }
        ensures window { result.0.window ≡ self.window }
        ensures early { result.1 ≡ self.early }
        ensures node { IsNode N.network self }
    {
        (self.question, self.early, (self.ends, self.bounds))
    }

    /// The question.
    pub fn question(&self) -> &Question
        ensures capacities { result.now.capacities ≡ self.now.capacities }
        ensures window { result.now.window ≡ self.now.window }
        ensures node { IsNode N.network self.now }
        ensures sound { IsSound N.network }
    {
        &self.question
    }

    /// The early starts of the question's window, by place from 0, in time units.
    pub fn early(&self) -> &Starts
        ensures starts { result.now ≡ self.now.early }
        ensures node { IsNode N.network self.now }
    {
        &self.early
    }

    /// When each job ends in the early starts, by place from 0, in time units.
    pub fn ends(&self) -> &[u32]
        ensures { AreEnds N.network self.now.early result.now }
    {
        &self.ends
    }

    /// The time of the node, in time units.
    pub fn time(&self) -> u32
        ensures { result ≡ self.now.time }
    {
        self.time
    }

    /// The jobs that start before the time of the node in its early starts.
    pub fn started(&self) -> &JobSet
        ensures { AreStartedBefore self.now.early self.now.time result.now }
    {
        &self.started
    }

    /// A hash of the started jobs: equal for nodes with the same started jobs.
    pub(crate) fn key(&self) -> u64 {
        self.key
    }
}

/// When each job ends in the early starts of a question's window, and the bounds that a record keeps, in the memory of
/// the two rows.
///
/// # Errors
///
/// Memory was refused.
fn rows_of(
    net: &Network,
    question: &Question,
    early: &Starts,
    rows: (Vec<u32>, Vec<u32>),
    time: u32,
) -> Result<(Vec<u32>, Vec<u32>), AllocError>
    requires formed { IsFormed net.now question.now }
    requires early { IsEarly net.now (slice_index question.now.window.lower) early.now }
    ensures ends { IfOk result (λ rows. AreEnds net.now early.now rows.0.items) }
    ensures bounds { IfOk result (λ rows. AreBounds early.now time rows.0.items question.now.window.lower rows.1.items) }
{
    prove!(question.window.lower().len() == net.job_count());
    let (first, second) = rows;
    let starts = early.as_slice();
    let ends = ends_of(first, net, starts)?;
    let bounds = bounds_of(second, &ends, starts, time, question.window.lower())?;
    Ok((ends, bounds))
}
