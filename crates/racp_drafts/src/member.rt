//! A list of the jobs with units, and the schedule that they give.

use crate::orders::{order_by_ends, order_by_keys};
use crate::peaks::peaks_of;
use crate::problem::Problem;
use crate::serial::{Serial, Way};
use std::alloc::{AllocError, Global};

/// A schedule that ends too late is justified at most so many times.
const JUSTIFIED: u32 = 2;

/// An order of the jobs and units of the resources, the schedule that they give, and how good that is: what it costs, or more
/// than the best one if it is late. The least fit is the best.
#[derive(Drop)]
pub(crate) struct Member {
    pub(crate) order: Vec<u32>,
    pub(crate) units: Vec<u32>,
    pub(crate) starts: Vec<u32>,
    pub(crate) fit: u64,
}

/// Makes members.
#[derive(Drop)]
pub(crate) struct Maker {
    alloc: Global,
    /// The largest request of each resource.
    floors: Vec<u32>,
    serial: Serial,
}

impl Maker {
    /// Makes members of this problem.
    pub(crate) fn new(alloc: Global, problem: &Problem) -> Result<Maker, AllocError> {
        Ok(Maker {
            alloc,
            floors: floors_of(alloc, problem)?,
            serial: Serial::new(alloc, problem)?,
        })
    }

    /// The member of a schedule that is there already: its jobs by their starts, within its peaks.
    pub(crate) fn of_starts(
        &self,
        problem: &Problem,
        starts: &[u32],
    ) -> Result<Member, AllocError> {
        let mut units = Vec::new(self.alloc);
        peaks_of(self.alloc, problem, starts, &mut units)?;
        Ok(Member {
            order: order_by_keys(self.alloc, problem, starts)?,
            fit: problem.cost_of(&units),
            units,
            starts: starts.to_vec(self.alloc)?,
        })
    }

    /// The member of the jobs by these keys, within these units, where the best schedule costs so much.
    pub(crate) fn of_keys(
        &mut self,
        problem: &Problem,
        keys: &[u32],
        units: Vec<u32>,
        best_cost: u64,
    ) -> Result<Member, AllocError> {
        let mut member = Member {
            order: order_by_keys(self.alloc, problem, keys)?,
            units,
            starts: Vec::new(self.alloc),
            fit: u64::MAX,
        };
        self.hold(problem, &mut member.units);
        self.serial.schedule(
            problem,
            &member.order,
            &member.units,
            Way::Forward,
            &mut member.starts,
        )?;
        let late = self.justify(problem, &mut member)?;
        self.rate(problem, &mut member, late, best_cost)?;
        Ok(member)
    }

    /// Holds units between the floors and the ceilings.
    fn hold(&self, problem: &Problem, units: &mut [u32]) {
        for (some, (floor, resource)) in units
            .iter_mut()
            .zip(self.floors.iter().zip(problem.resources.iter()))
        {
            *some = (*some).max(*floor).min(resource.ceiling);
        }
    }

    /// Justifies the schedule of a member that is late, as long as it is less late then; tells how late it is.
    fn justify(&mut self, problem: &Problem, member: &mut Member) -> Result<u32, AllocError> {
        let mut late = lateness(problem, &member.starts);
        for _time in 0..JUSTIFIED {
            if late == 0 {
                break;
            }
            let sooner = self.justify_once(problem, member, late)?;
            if late <= sooner {
                break;
            }
            late = sooner;
        }
        Ok(late)
    }

    /// Justifies the schedule of a member that is so late: to the right, the last job first, and to the left, the first one
    /// first. It is taken if it is less late; tells how late it would be.
    fn justify_once(
        &mut self,
        problem: &Problem,
        member: &mut Member,
        late: u32,
    ) -> Result<u32, AllocError> {
        let last = order_by_ends(self.alloc, problem, &member.starts)?;
        let mut starts = Vec::new(self.alloc);
        self.serial
            .schedule(problem, &last, &member.units, Way::Backward, &mut starts)?;
        let first = order_by_ends(self.alloc, problem, &starts)?;
        self.serial
            .schedule(problem, &first, &member.units, Way::Forward, &mut starts)?;
        let sooner = lateness(problem, &starts);
        if sooner < late {
            member.order = first;
            member.starts = starts;
        }
        Ok(sooner)
    }

    /// Rates a member: what its schedule costs, with its peaks as the units; or, if it is late, more than the best one.
    fn rate(
        &self,
        problem: &Problem,
        member: &mut Member,
        late: u32,
        best_cost: u64,
    ) -> Result<(), AllocError> {
        if late == 0 {
            peaks_of(self.alloc, problem, &member.starts, &mut member.units)?;
            member.fit = problem.cost_of(&member.units);
            return Ok(());
        }
        let cost = problem.cost_of(&member.units);
        let parts = (late.min(1 << 20) as u64).saturating_mul(4096);
        let share = (cost >> 10).saturating_add(1).saturating_mul(parts);
        let more = share
            .checked_div((problem.deadline as u64).max(1))
            .unwrap_or(0);
        let dearer = cost
            .saturating_add(more)
            .saturating_add((best_cost >> 6).min(1 << 50));
        member.fit = dearer.max(best_cost.saturating_add(1));
        Ok(())
    }
}

/// By how much some start is behind its root window.
fn lateness(problem: &Problem, starts: &[u32]) -> u32 {
    let mut late = 0;
    for (start, upper) in starts.iter().zip(problem.upper.iter()) {
        late = start.saturating_sub(*upper).max(late);
    }
    late
}

/// The largest request of each resource.
fn floors_of(alloc: Global, problem: &Problem) -> Result<Vec<u32>, AllocError> {
    let mut floors = Vec::from_elem(alloc, 0, problem.resources.len())?;
    for job in problem.busy.iter() {
        for (floor, request) in floors
            .iter_mut()
            .zip(problem.requests(*job as usize).iter())
        {
            if *floor < *request {
                *floor = *request;
            }
        }
    }
    Ok(floors)
}
