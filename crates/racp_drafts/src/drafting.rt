//! The draft of an order, and better ones.

ghost use Rattle.std.specs.Prelude.{IfOk, IfSome};
ghost use Rattle.racp_model.specs.Terms.{AreTermsOf};
ghost use Rattle.racp_drafts.specs.Drafts.{IsDraft};

use crate::around::Around;
use crate::draft::Draft;
use crate::effort::Effort;
use crate::family::Family;
use crate::peaks::peaks_of;
use crate::polish::Polish;
use crate::problem::Problem;
use crate::rows::stored;
use racp_model::{Network, Starts, Stop, Window};
use racp_prices::Order;
use std::alloc::{AllocError, Global};

/// So many rounds in turn may bring nothing where there are few jobs, and so many where there are many.
const LEAST_PATIENCE: u32 = 50;

const MOST_PATIENCE: u32 = 200;

/// There is at most one child of the family for so many rounds.
const ROUNDS_PER_CHILD: u32 = 10;

/// Children that bring nothing are halved in the next stint, as long as there are more than so many.
const FEWEST_CHILDREN: u32 = 20;

/// The numbers by chance of the family are others than those of the rounds.
const FAMILY_SEED: u64 = 911;

/// So are those of the neighbourhoods.
const AROUND_SEED: u64 = 77;

/// A draft of an order, within its root window: a list schedule that was made better in rounds. The stop is asked
/// before each round. `None` if the schedule that was made does not fit, as it does not where it breaks a ceiling.
///
/// # Errors
///
/// Memory was refused.
pub fn draft_of<S: Stop>(
    alloc: Global,
    net: &Network,
    order: &Order,
    root: &Window,
    effort: Effort,
    stop: &S,
) -> Result<Option<Draft>, AllocError>
    requires { AreTermsOf net.now order.now }
    ensures { IfOk result (λ found. IfSome found (IsDraft net.now order.now)) }
{
    let problem = Problem::new(alloc, net, order, root)?;
    let mut polish = Polish::new(alloc, &problem, effort.seed)?;
    polish.improve(&problem, effort.rounds, patience_for(net.job_count()), stop)?;
    let starts = problem.ranks.placed(alloc, polish.best())?;
    Draft::of_starts(alloc, net, order, starts)
}

/// How many rounds in turn may bring nothing: the more jobs, the more rounds, up to a number.
fn patience_for(jobs: usize) -> u32 {
    let jobs = stored(jobs);
    (jobs.saturating_mul(jobs) / 20).clamp(LEAST_PATIENCE, MOST_PATIENCE)
}

/// Drafts of an order that become better, stint by stint: a schedule that is made better in rounds, and a family of lists.
#[derive(Drop)]
pub struct Drafting {
    pub(crate) alloc: Global,
    pub(crate) problem: Problem,
    pub(crate) polish: Polish,
    pub(crate) around: Around,
    family: Family,
    has_family: bool,
    /// So many children there are at most in the next stint.
    children: u32,
    /// What the best draft costs that was told or was joined.
    told: u64,
}

impl Drafting {
    /// Begins with a list schedule, within the root window of the order. The same seed gives the same drafts.
    ///
    /// # Errors
    ///
    /// Memory was refused.
    pub fn new(
        alloc: Global,
        net: &Network,
        order: &Order,
        root: &Window,
        seed: u64,
    ) -> Result<Drafting, AllocError> {
        let problem = Problem::new(alloc, net, order, root)?;
        let polish = Polish::new(alloc, &problem, seed)?;
        let around = Around::new(alloc, &problem, seed ^ AROUND_SEED);
        let family = Family::new(alloc, &problem, seed ^ FAMILY_SEED)?;
        Ok(Drafting {
            alloc,
            problem,
            polish,
            around,
            family,
            has_family: false,
            children: u32::MAX,
            told: u64::MAX,
        })
    }

    /// Goes on from a draft that was found elsewhere, if it is better than all so far.
    ///
    /// # Errors
    ///
    /// Memory was refused.
    pub fn join(&mut self, draft: &Draft) -> Result<(), AllocError> {
        if draft.cost < self.told {
            self.told = draft.cost;
        }
        if draft.cost < self.polish.best_cost() {
            let ranked = self
                .problem
                .ranks
                .ranked(self.alloc, draft.starts.as_slice())?;
            self.polish.take(&self.problem, &ranked)?;
        }
        Ok(())
    }

    /// A stint: so many rounds, and some children of the family. The stop is asked before each. The best draft, if it is
    /// better than all that were told or joined before; the order is the one that this began with.
    ///
    /// # Errors
    ///
    /// Memory was refused.
    pub fn improve<S: Stop>(
        &mut self,
        net: &Network,
        order: &Order,
        rounds: u32,
        stop: &S,
    ) -> Result<Option<Draft>, AllocError>
        requires { AreTermsOf net.now order.now }
        ensures { IfOk result (λ found. IfSome found (IsDraft net.now order.now)) }
    {
        self.breed(rounds / ROUNDS_PER_CHILD, stop)?;
        self.polish.improve(&self.problem, rounds, u32::MAX, stop)?;
        if self.told <= self.polish.best_cost() {
            return Ok(None);
        }
        self.told = self.polish.best_cost();
        let starts = self.problem.ranks.placed(self.alloc, self.polish.best())?;
        Draft::of_starts(self.alloc, net, order, starts)
    }

    /// Children of the family, at most so many, which the rounds go on from if they are better.
    fn breed<S: Stop>(&mut self, most: u32, stop: &S) -> Result<(), AllocError> {
        self.begin_family()?;
        let before = self.family.best_cost();
        let children = self.children.min(most);
        for _child in 0..children {
            if self.family.best_cost() <= self.problem.least_cost() || stop.asked() {
                break;
            }
            let _ = self.family.child(&self.problem)?;
        }
        self.children = if self.family.best_cost() < before {
            most
        } else {
            (children / 2).max(FEWEST_CHILDREN)
        };
        if self.family.best_cost() < self.polish.best_cost() {
            self.polish.take(&self.problem, self.family.best())?;
        }
        Ok(())
    }

    /// Gives the family its first members, and the best schedule if that is better.
    fn begin_family(&mut self) -> Result<(), AllocError> {
        if self.polish.best_cost() < self.family.best_cost() {
            self.family.join(&self.problem, self.polish.best())?;
        }
        if self.has_family {
            return Ok(());
        }
        self.has_family = true;
        let mut roofs = Vec::new(self.alloc);
        peaks_of(self.alloc, &self.problem, self.polish.starts(), &mut roofs)?;
        self.family.found(&self.problem, &roofs)
    }
}
