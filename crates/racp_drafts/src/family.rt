//! Schedules from a family of lists (after the genetic algorithm of Shadrokh and Kianfar 2007).

use crate::member::{Maker, Member};
use crate::problem::Problem;
use crate::random::Random;
use crate::rows::{copy, number_at, set_number, stored};
use std::alloc::{AllocError, Global};

/// So many members there are at most.
const MEMBERS: u32 = 30;

/// Keys by places leave so much room between two jobs.
const ROOM: u32 = 16;

/// A family of lists, and the best schedule so far. Starts stand by rank.
#[derive(Drop)]
pub(crate) struct Family {
    alloc: Global,
    random: Random,
    members: Vec<Member>,
    maker: Maker,
    keys: Vec<u32>,
    best: Vec<u32>,
    best_cost: u64,
}

impl Family {
    /// A family without members.
    pub(crate) fn new(alloc: Global, problem: &Problem, seed: u64) -> Result<Family, AllocError> {
        Ok(Family {
            alloc,
            random: Random::new(seed),
            members: Vec::new(alloc),
            maker: Maker::new(alloc, problem)?,
            keys: Vec::new(alloc),
            best: Vec::new(alloc),
            best_cost: u64::MAX,
        })
    }

    /// The first members, within these units.
    pub(crate) fn found(&mut self, problem: &Problem, roofs: &[u32]) -> Result<(), AllocError> {
        for _member in 1..MEMBERS {
            let units = self.first_keys(problem, roofs)?;
            let _ = self.make(problem, units)?;
        }
        Ok(())
    }

    /// What the best schedule costs; the greatest number if there is none.
    pub(crate) fn best_cost(&self) -> u64 {
        self.best_cost
    }

    /// The starts of the best schedule.
    pub(crate) fn best(&self) -> &[u32] {
        &self.best
    }

    /// Takes a schedule in that is better than the best one.
    pub(crate) fn join(&mut self, problem: &Problem, starts: &[u32]) -> Result<(), AllocError> {
        let member = self.maker.of_starts(problem, starts)?;
        let _ = self.take(member)?;
        Ok(())
    }

    /// One child. Whether it is a better schedule.
    pub(crate) fn child(&mut self, problem: &Problem) -> Result<bool, AllocError> {
        let (one, other) = (self.parent(), self.parent());
        let mut units = Vec::new(self.alloc);
        self.cross(problem, one, other, &mut units)?;
        self.mutate(problem, &mut units);
        self.make(problem, units)
    }

    /// Makes the member of the keys within these units, and takes it in. Whether it is a better schedule.
    fn make(&mut self, problem: &Problem, units: Vec<u32>) -> Result<bool, AllocError> {
        let member = self
            .maker
            .of_keys(problem, &self.keys, units, self.best_cost)?;
        self.take(member)
    }

    /// Takes a member in. Whether it is a better schedule.
    fn take(&mut self, member: Member) -> Result<bool, AllocError> {
        let is_better = member.fit < self.best_cost;
        if is_better {
            self.best_cost = member.fit;
            copy(&mut self.best, &member.starts)?;
        }
        self.admit(member)?;
        Ok(is_better)
    }

    /// Keys by the last starts, blurred, and units below the roofs.
    fn first_keys(&mut self, problem: &Problem, roofs: &[u32]) -> Result<Vec<u32>, AllocError> {
        let blur = (problem.deadline / 4).saturating_mul(2).saturating_add(1);
        self.keys.clear();
        for upper in problem.upper.iter() {
            self.keys
                .push(upper.saturating_add(self.random.below(blur)))?;
        }
        let mut units = Vec::with_capacity(self.alloc, roofs.len())?;
        for roof in roofs {
            let share = self.random.below(308).saturating_add(768) as u64;
            let some = (*roof as u64).saturating_mul(share) >> 10;
            units.push(u32::try_from(some).unwrap_or(*roof))?;
        }
        Ok(units)
    }

    /// Keys by which a part of one member's order keeps its places, and the rest is as in the other's; and units by chance
    /// from both.
    fn cross(
        &mut self,
        problem: &Problem,
        one: usize,
        other: usize,
        units: &mut Vec<u32>,
    ) -> Result<(), AllocError> {
        let count = stored(problem.jobs());
        let (x, y) = (self.random.below(count), self.random.below(count));
        self.keys.clear();
        self.keys.resize(problem.jobs(), 0)?;
        if let Some(member) = self.members.get(other) {
            set_keys(&mut self.keys, &member.order, 0, count);
            copy(units, &member.units)?;
        }
        if let Some(member) = self.members.get(one) {
            set_keys(&mut self.keys, &member.order, x.min(y), x.max(y));
            for (some, most) in units.iter_mut().zip(member.units.iter()) {
                if self.random.below(2) != 0 {
                    *some = *most;
                }
            }
        }
        Ok(())
    }

    /// By one chance in two gives a twentieth of the jobs other places, and by three in four takes units of a resource.
    fn mutate(&mut self, problem: &Problem, units: &mut [u32]) {
        let resources = stored(problem.resources.len());
        let k = self.random.below(resources) as usize;
        let less = self.random.below(2).saturating_add(1);
        let kind = self.random.below(4);
        if kind < 3 {
            let fewer = number_at(units, k).saturating_sub(less);
            set_number(units, k, fewer);
        }
        if kind < 2 {
            self.shuffle(stored(problem.jobs()));
            if self.random.below(4) == 0 {
                let l = self.random.below(resources) as usize;
                let more = number_at(units, l).saturating_add(1);
                set_number(units, l, more);
            }
        }
    }

    /// Gives a twentieth of so many jobs other places, up to three sixteenths of all away.
    fn shuffle(&mut self, count: u32) {
        for key in self.keys.iter_mut() {
            if self.random.below(20) == 0 {
                let more = self.random.below(count.saturating_mul(6));
                *key = key
                    .saturating_add(more)
                    .saturating_sub(count.saturating_mul(3));
            }
        }
    }

    /// The better one of two members by chance.
    fn parent(&mut self) -> usize {
        let count = stored(self.members.len());
        let one = self.random.below(count) as usize;
        let other = self.random.below(count) as usize;
        if self.fit_at(one) < self.fit_at(other) {
            one
        } else {
            other
        }
    }

    /// How good a member is.
    fn fit_at(&self, i: usize) -> u64 {
        match self.members.get(i) {
            Some(member) => member.fit,
            None => u64::MAX,
        }
    }

    /// Takes a member in, for the worst one if there are enough, unless its schedule is there already.
    fn admit(&mut self, new: Member) -> Result<(), AllocError> {
        for member in self.members.iter() {
            if member.fit == new.fit && member.starts.as_slice() == new.starts.as_slice() {
                return Ok(());
            }
        }
        if stored(self.members.len()) < MEMBERS {
            self.members.push(new)?;
            return Ok(());
        }
        let mut worst = 0;
        for i in 0..self.members.len() {
            if self.fit_at(worst) < self.fit_at(i) {
                worst = i;
            }
        }
        if worst < self.members.len() && new.fit < self.fit_at(worst) {
            self.members[worst] = new;
        }
        Ok(())
    }
}

/// Sets the keys of the jobs in a part of an order by their places.
fn set_keys(keys: &mut [u32], order: &[u32], from: u32, until: u32) {
    for (place, job) in order.iter().enumerate() {
        let at = stored(place);
        if from <= at && at < until {
            set_number(keys, *job as usize, at.wrapping_mul(ROOM));
        }
    }
}
