//! Which jobs are taken out in a round: some that run near a time.

use crate::problem::Problem;
use crate::random::Random;
use crate::rows::{number_at, stored};
use crate::usages::Usages;
use std::alloc::{AllocError, Global};

/// At most so many jobs that use something are taken out in a round.
const MOST_OUT: u32 = 20;

/// Jobs that use nothing go in every round, if there are at most so many.
const MOST_FREE: usize = 32;

/// Chooses jobs that are taken out.
#[derive(Drop)]
pub(crate) struct Ruin {
    /// What the usages are above the aims, from each change on.
    weights: Vec<u64>,
    /// How far each busy job is from a time, somewhat by chance, and the job.
    distances: Vec<(u32, u32)>,
    /// By how much a distance is blurred.
    blur: u32,
}

impl Ruin {
    /// No job is out yet. Distances are blurred by the mean duration.
    pub(crate) fn new(alloc: Global, mean_duration: u32) -> Ruin {
        Ruin {
            weights: Vec::new(alloc),
            distances: Vec::new(alloc),
            blur: mean_duration.saturating_add(1),
        }
    }

    /// Writes the jobs that are to go down, in rising order.
    pub(crate) fn choose(
        &mut self,
        problem: &Problem,
        usages: &Usages,
        starts: &[u32],
        random: &mut Random,
        going: &mut Vec<u32>,
    ) -> Result<(), AllocError> {
        let time = self.time_of(problem, usages, random)?;
        self.distances.clear();
        for job in problem.busy.iter() {
            let i = *job as usize;
            let distance = distance_of(number_at(starts, i), problem.duration(i), time);
            let blurred = distance.saturating_add(random.below(self.blur));
            self.distances.push((blurred, *job))?;
        }
        let most = MOST_OUT.min(stored(problem.busy.len()));
        let last = random.below(most) as usize;
        if last < self.distances.len() {
            let _ = self.distances.select_nth_unstable(last);
        }
        going.clear();
        for &(_, job) in self.distances.iter() {
            if going.len() <= last {
                going.push(job)?;
            }
        }
        if problem.free.len() <= MOST_FREE {
            going.extend_from_slice(&problem.free)?;
        }
        going.sort_unstable();
        Ok(())
    }

    /// A time near which jobs are to go: two times in three one of excess, each by its share.
    fn time_of(
        &mut self,
        problem: &Problem,
        usages: &Usages,
        random: &mut Random,
    ) -> Result<u32, AllocError> {
        let mut time = random.below(problem.deadline);
        if random.below(3) == 0 {
            return Ok(time);
        }
        usages.weigh(&mut self.weights)?;
        let mut sum = 0u64;
        for (place, weight) in self.weights.iter().enumerate() {
            let length = usages.length_at(place);
            let excess = weight.wrapping_mul(length);
            if 0 < excess {
                sum = sum.wrapping_add(excess);
                if random.draw().checked_rem(sum.max(1)).unwrap_or(0) < excess {
                    let within = u32::try_from(length).unwrap_or(0);
                    time = number_at(&usages.times, place).saturating_add(random.below(within));
                }
            }
        }
        Ok(time)
    }
}

/// How far a run is from a time; 0 if the job is active then.
fn distance_of(start: u32, duration: u32, time: u32) -> u32 {
    let end = start.saturating_add(duration);
    if time < start {
        start.saturating_sub(time)
    } else {
        time.saturating_add(1).saturating_sub(end)
    }
}
