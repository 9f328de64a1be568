//! The aims: units of the resources that cost less than the best schedule.

use crate::problem::Problem;
use crate::random::Random;
use crate::resource::Resource;
use crate::rows::{number_at, set_number, wide_at};
use crate::usages::Usages;
use std::alloc::{AllocError, Global};

/// Each resource is lowered, on average, at most so many times.
const MOST_STEPS: usize = 80;

/// At most so many units are given back at once.
const MOST_UNITS: u64 = 1_048_576;

/// Sets the aims.
#[derive(Drop)]
pub(crate) struct Aiming {
    aims: Vec<u32>,
    /// By how many units each resource is lowered at once.
    steps: Vec<u32>,
    /// The times above the aims are blurred by these.
    blurs: Vec<u64>,
    /// For how long the usage of each resource would be above its aim if that were lowered; the greatest number where it
    /// must not be.
    times: Vec<u64>,
}

impl Aiming {
    /// No aims yet.
    pub(crate) fn new(alloc: Global) -> Aiming {
        Aiming {
            aims: Vec::new(alloc),
            steps: Vec::new(alloc),
            blurs: Vec::new(alloc),
            times: Vec::new(alloc),
        }
    }

    /// How many units of each resource of the problem are aimed at.
    pub(crate) fn aims(&self) -> &[u32] {
        &self.aims
    }

    /// Sets the aims: from the peaks, lowered where the usage is above for the least time (somewhat by chance) until they
    /// cost at most so much. What is left to spend goes back to where the usage is above for the longest. Where nothing
    /// bounds the cost, the ceilings are the aims.
    pub(crate) fn aim(
        &mut self,
        problem: &Problem,
        usages: &mut Usages,
        most: u64,
        random: &mut Random,
    ) -> Result<(), AllocError> {
        usages.peaks(&mut self.aims)?;
        if most == u64::MAX {
            self.aim_at_ceilings(problem);
        }
        self.begin(problem, usages, random)?;
        for _step in 0..problem.resources.len().saturating_mul(MOST_STEPS) {
            if problem.cost_of(&self.aims) <= most {
                break;
            }
            self.lower(problem, usages);
        }
        for _resource in 0..problem.resources.len() {
            self.give_back(problem, usages, most);
        }
        for (row, aim) in usages.rows.iter_mut().zip(self.aims.iter()) {
            row.aim = *aim;
        }
        Ok(())
    }

    /// The ceilings in place of the peaks.
    fn aim_at_ceilings(&mut self, problem: &Problem) {
        for (aim, resource) in self.aims.iter_mut().zip(problem.resources.iter()) {
            *aim = resource.ceiling;
        }
    }

    /// Holds the aims within the ceilings, and notes for how long usages would be above them if they were lowered.
    fn begin(
        &mut self,
        problem: &Problem,
        usages: &Usages,
        random: &mut Random,
    ) -> Result<(), AllocError> {
        self.steps.clear();
        self.blurs.clear();
        for (aim, resource) in self.aims.iter_mut().zip(problem.resources.iter()) {
            *aim = resource.ceiling.min(*aim);
            let above = aim.saturating_sub(resource.floor);
            self.steps.push((above / 64).max(1))?;
            self.blurs
                .push(random.below(128).saturating_add(256) as u64)?;
        }
        self.times.clear();
        for (k, resource) in problem.resources.iter().enumerate() {
            let time = self.time_lowered(usages, k, resource);
            self.times.push(time)?;
        }
        Ok(())
    }

    /// For how long, blurred, the usage of a resource would be above its aim if that were lowered.
    fn time_lowered(&self, usages: &Usages, k: usize, resource: &Resource) -> u64 {
        let aim = number_at(&self.aims, k);
        if aim <= resource.floor || resource.price == 0 {
            return u64::MAX;
        }
        let units = aim.saturating_sub(number_at(&self.steps, k));
        let time = usages.time_above(k, units);
        time.saturating_mul(wide_at(&self.blurs, k))
    }

    /// Lowers the aim that is lowered for the least time.
    fn lower(&mut self, problem: &Problem, usages: &Usages) {
        let (mut least, mut which) = (u64::MAX, 0);
        for (k, time) in self.times.iter().enumerate() {
            if *time < least {
                least = *time;
                which = k;
            }
        }
        if let Some(resource) = problem.resources.get(which)
            && least < u64::MAX
        {
            let lowered = number_at(&self.aims, which).saturating_sub(number_at(
                &self.steps,
                which,
            ));
            set_number(&mut self.aims, which, lowered.max(resource.floor));
            let time = self.time_lowered(usages, which, resource);
            if which < self.times.len() {
                self.times[which] = time;
            }
        }
    }

    /// Spends what is left on the resource whose usage is above its aim for the longest, of those that can be paid.
    fn give_back(&mut self, problem: &Problem, usages: &Usages, most: u64) {
        let left = most.saturating_sub(problem.cost_of(&self.aims));
        let (mut longest, mut which) = (0u64, 0);
        for (k, resource) in problem.resources.iter().enumerate() {
            if 0 < resource.price && resource.price <= left {
                let time = usages.time_above(k, number_at(&self.aims, k));
                if longest < time {
                    longest = time;
                    which = k;
                }
            }
        }
        if let Some(resource) = problem.resources.get(which)
            && 0 < longest
        {
            let more = left
                .checked_div(resource.price)
                .unwrap_or(0)
                .min(MOST_UNITS);
            let more = u32::try_from(more).unwrap_or(0);
            let raised = number_at(&self.aims, which).saturating_add(more);
            set_number(&mut self.aims, which, raised.min(resource.ceiling));
        }
    }
}
