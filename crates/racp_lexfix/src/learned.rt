//! What is learned of an order and serves its variants.

ghost use Rattle.std.specs.Prelude.{◌≡◌, IfOk, IfSome};
ghost use Rattle.std.proofs.Props.{props};
ghost use Rattle.racp_model.specs.Path.{IsCriticalLength};
ghost use Rattle.racp_model.specs.Terms.{release_of, due_of};
ghost use Rattle.racp_model.specs.Window.{IsRootWindow};
ghost use Rattle.racp_by_clauses.specs.Optima.{IsTaskOf};
ghost use Rattle.racp_found.specs.Told.{MayBeTold};
ghost use Rattle.racp_lexfix.specs.Answers.{IsAnswer};
ghost use Rattle.racp_lexfix.specs.Variants.{IsVariantOf};

use crate::answer::Answer;
use crate::planning::answer_of;
use crate::roots::root_bounds;
use racp_by_clauses::{Limits, Optimizer, Task as Part};
use racp_clauses::OfProblem;
use racp_found::{Found, News, Observer};
use racp_model::Window;
use racp_root::{Opening, Task, opening_of};
use std::alloc::AllocError;
use std::marker::Brand;

/// What a search has learned of the order of the problem that `N` names. It serves each variant of the order: for the same
/// network and with the same prices and owned units, as with an earlier deadline or lower ceilings.
#[derive(Drop)]
pub struct Learned<'a, N: OfProblem> {
    /// The order, with its root window and root bounds.
    pub whole: Part<'a>,
    /// The search.
    pub optimizer: Optimizer<N>,
    pub ghost of: { IsTaskOf N.problem whole } by { Prim.hlevel props },
}

impl<'a, N: OfProblem> Learned<'a, N> {
    /// Nothing is learned yet. The limits are those of each plan, but for the bytes, which are for all.
    ///
    /// # Errors
    ///
    /// Memory was refused.
    pub fn new(whole: Part<'a>, limits: Limits) -> Result<Self, AllocError>
        requires { IsTaskOf N.problem whole }
    {
        let optimizer: Optimizer<N> = Optimizer::new(whole, limits)?;
        Ok(Learned { whole, optimizer })
    }

    /// The plan of a variant of the order, or why there is none. `None` where the search comes to no end, or the root bounds
    /// of the variant do not lie within those of the order.
    ///
    /// # Errors
    ///
    /// Memory was refused.
    pub fn answer<O: Observer>(
        &mut self,
        task: &Task<'_>,
        observer: &O,
    ) -> Result<Option<Answer>, AllocError>
        requires network { task.now.net.now ≡ N.problem.network }
        requires variant { IsVariantOf N.problem.terms task.now.order.now }
        requires heard { MayBeTold task.now.net.now task.now.order.now O.may_hear }
        ensures { IfOk result (λ told. IfSome told (IsAnswer task.now.net.now task.now.order.now)) }
    {
        match opening_of(task.alloc, task.net, task.order)? {
            Opening::Root { critical, window } => {
                self.answer_within(task, critical, &window, observer)
            }
            Opening::TooLong { critical } => Ok(Some(Answer::Impossible { longest: critical })),
            Opening::TooLate { job } => Ok(Some(Answer::Due { job })),
        }
    }

    /// The same within the root window, with the critical length.
    fn answer_within<O: Observer>(
        &mut self,
        task: &Task<'_>,
        critical: u64,
        window: &Window,
        observer: &O,
    ) -> Result<Option<Answer>, AllocError>
        requires network { task.now.net.now ≡ N.problem.network }
        requires variant { IsVariantOf N.problem.terms task.now.order.now }
        requires critical { IsCriticalLength task.now.net.now (release_of task.now.order.now) critical }
        requires root { IsRootWindow task.now.net.now (release_of task.now.order.now) (due_of task.now.order.now) window.now }
        requires heard { MayBeTold task.now.net.now task.now.order.now O.may_hear }
        ensures { IfOk result (λ told. IfSome told (IsAnswer task.now.net.now task.now.order.now)) }
    {
        let Some(root) = root_bounds(task.alloc, task.net, task.order, window)? else {
            return Ok(Some(Answer::Ceiling));
        };
        observer.hear(News::Floors(&root.floors));
        let part = Part {
            alloc: task.alloc,
            net: task.net,
            order: task.order,
            window,
            root: &root.bounds,
        };
        match self
            .optimizer
            .optimum::<Brand, O>(self.whole, part, observer)?
        {
            Found::Open => Ok(None),
            found => Ok(Some(answer_of(task, critical, found))),
        }
    }
}
