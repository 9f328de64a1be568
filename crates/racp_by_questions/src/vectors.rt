//! The first capacities that are enough, in a box of vectors.

ghost use Rattle.std.specs.Prelude.{ℕ, IfOk};
ghost use Rattle.racp_candidates.specs.Box.{AreBoxQuestions};
ghost use Rattle.racp_by_questions.specs.Boxed.{IsCheapest, IsVectorBox};
ghost use Rattle.racp_found.specs.Told.{MayBeTold};

use crate::bounds::is_small;
use crate::halving::first_enough;
use crate::stop::PlanStop;
use crate::task::Task;
use racp_bounds::Sharp;
use racp_candidates::{AnySeries, One, Vectors};
use racp_model::{Capacities, peaks};
use racp_questions::{Asker, First};
use std::alloc::AllocError;

/// The capacity vectors among which the first that is enough is looked for: those from the sharpened floors of a task, by
/// its root window, to the roofs, without the refuted pairs.
#[derive(Drop)]
pub(crate) struct VectorBox<'a> {
    pub(crate) task: Task<'a>,
    pub(crate) sharp: Sharp,
    pub(crate) roofs: &'a Capacities,
}

impl VectorBox<'_> {
    /// The first capacities of all that are enough. Where there are few vectors, they are asked in their order. Else the
    /// capacities are found by boxes of vectors below known ones, and asked for once more, by a series, for which an asker
    /// keeps what serves the starts.
    pub(crate) fn cheapest<A: Asker<AnySeries>>(self, asker: &mut A) -> Result<Capacities, PlanStop>
        requires named { A.about asker.old self.task.net.now }
        requires known { IsVectorBox self }
        requires heard { MayBeTold self.task.net.now self.task.order.now A.may_hear }
        ensures network { A.about asker.new self.entry.task.net.now }
        ensures cheapest { IsCheapest self.entry (A.answered asker.old) (A.answered asker.new) (A.told asker.new)
            (A.may_stop asker.new) (A.may_want_thread asker.new) result }
    {
        if is_small(&self.sharp.floors, self.roofs) {
            return self.first_in_order(asker);
        }
        let task = self.task;
        let first = match first_enough(&task, &self.sharp.floors, self.roofs, asker) {
            Ok(first) => first,
            Err(stop) => return Err(PlanStop::given_up(stop, self.sharp.floors)),
        };
        // Dropped here once, not at each way out.
        drop(self);
        let series = One::new(task.alloc, &first, task.root)?;
        match asker.first(task.net, AnySeries::One(series)) {
            Ok(_) => Ok(first),
            Err(stop) => Err(PlanStop::given_up(stop, first)),
        }
    }

    /// The first capacities of all that are enough, by the first question of the box that is a yes. They are the peaks of
    /// the starts that were found, since these peaks are enough too, and no others that are stand before them.
    fn first_in_order<A: Asker<AnySeries>>(self, asker: &mut A) -> Result<Capacities, PlanStop>
        requires named { A.about asker.old self.task.net.now }
        requires known { IsVectorBox self }
        ensures network { A.about asker.new self.entry.task.net.now }
        ensures cheapest { IsCheapest self.entry (A.answered asker.old) (A.answered asker.new) (A.told asker.new)
            (A.may_stop asker.new) (A.may_want_thread asker.new) result }
    {
        let Task { alloc, net, .. } = self.task;
        let series = self.questions()?;
        let first = match asker.first(net, AnySeries::Vectors(series)) {
            Ok(first) => first,
            Err(stop) => return Err(PlanStop::stopped_at(stop, self.sharp.floors)),
        };
        match first {
            First::Yes { starts, .. } => Ok(peaks(alloc, net, &starts)?),
            First::None => unreachable!(),
        }
    }

    /// The questions of the box, in the order of vectors.
    fn questions(&self) -> Result<Vectors, AllocError>
        requires { IsVectorBox self.now }
        ensures { IfOk result (AreBoxQuestions self.now.task.order.now self.now.sharp.floors self.now.roofs.now
            self.now.sharp.pairs.items self.now.task.root.now) }
    {
        let Task {
            alloc,
            net,
            order,
            root,
        } = self.task;
        prove!(order.prices.len() == net.resource_count());
        let floors = self.sharp.floors.copy()?;
        let roofs = self.roofs.copy()?;
        let pairs = self.sharp.pairs.to_vec(alloc)?;
        Vectors::new(alloc, order, floors, roofs, pairs, root)
    }
}
