//! A search that keeps what its clauses are derived from.

ghost use Rattle.std.specs.Prelude.{◌≡◌};
ghost use Rattle.racp_clauses.specs.Solutions.{HasPlaces};

use crate::derivations::{Derivations, Step};
use crate::recorder::Recorder;
use crate::rows::stored;
use crate::search::Search;
use crate::settling::times_of;
use racp_clauses::{Derivation, Domain, OfProblem, Times};
use racp_model::Network;
use std::alloc::AllocError;

impl<N: OfProblem> Search<N> {
    /// From now on the search keeps what its clauses are derived from, in at most so many bytes, about. Where these are
    /// spent, it leaves questions open for want of memory. To be called before the first question.
    ///
    /// # Errors
    ///
    /// Memory was refused.
    pub fn record(
        &mut self,
        net: &Network,
        root: &Domain,
        most_bytes: usize,
    ) -> Result<(), AllocError>
        requires named { net.now ≡ N.problem.network }
        requires root { root.now ≡ N.problem.root }
        requires places { HasPlaces N.problem.network root.now }
    {
        let mut kept = Derivations::new(*self.clauses.allocator(), most_bytes);
        for k in 0..net.resource_count() {
            if let Some(step) = self.floor_step(net, root, k)? {
                kept.take(step);
            }
        }
        kept.take(Step::Prices);
        for k in 0..net.resource_count() {
            kept.take(Step::Budget(stored(k)));
        }
        kept.end(true);
        self.recorder = Recorder::on(kept);
        Ok(())
    }

    /// What was kept, if that was asked for.
    pub fn into_derivations(self) -> Option<Derivations> {
        let Search { recorder, .. } = self;
        recorder.into_kept()
    }

    /// A request or an energy by which the units of a resource are at least what they are in the ground, if these are more
    /// than at the root.
    fn floor_step(&self, net: &Network, root: &Domain, k: usize) -> Result<Option<Step>, AllocError>
        requires named { net.now ≡ N.problem.network }
        requires root { root.now ≡ N.problem.root }
        requires places { HasPlaces N.problem.network root.now }
    {
        let x = net.job_count().wrapping_add(k);
        let floor = self.ground.bounds().lower_at(x);
        if floor <= root.lower_at(x) {
            return Ok(None);
        }
        let alloc = *self.clauses.allocator();
        let mut tried: Derivation<N> = Derivation::new(alloc, root)?;
        for i in 0..net.job_count() {
            tried.request(net, i, k);
            if floor <= tried.bounds().lower_at(x) {
                return Ok(Some(Step::Request(stored(i), stored(k))));
            }
        }
        let starts = times_of(alloc, net, root, false)?;
        let ends = times_of(alloc, net, root, true)?;
        Ok(energy_step(net, &mut tried, k, floor, &starts, &ends))
    }
}

/// An energy between times of two rows by which the units of a resource are at least so many.
fn energy_step<N: OfProblem>(
    net: &Network,
    tried: &mut Derivation<N>,
    k: usize,
    floor: u64,
    starts: &[u64],
    ends: &[u64],
) -> Option<Step>
    requires named { net.now ≡ N.problem.network }
{
    let x = net.job_count().wrapping_add(k);
    for &from in starts {
        for &until in ends {
            if from < until {
                tried.energy(net, k, Times { from, until });
                if floor <= tried.bounds().lower_at(x) {
                    let (from, until) = (stored(from as usize), stored(until as usize));
                    return Some(Step::Energy(stored(k), from, until));
                }
            }
        }
    }
    None
}
