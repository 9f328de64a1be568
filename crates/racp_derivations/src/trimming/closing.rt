//! The derivations whose clauses leave out what is less than a plan.

use racp_clauses::{Domain, Literal};
use racp_learning::Derivations;
use racp_model::Network;
use racp_plan::Plan;
use std::alloc::{AllocError, Global};

/// A plan, with the root bounds with which derivations begin.
#[derive(Clone, Copy)]
pub(crate) struct Shown<'a> {
    pub(crate) net: &'a Network,
    pub(crate) root: &'a Domain,
    pub(crate) plan: &'a Plan,
}

impl Shown<'_> {
    /// How many variables there are.
    fn variables(&self) -> usize {
        self.net.job_count() + self.net.resource_count() + 1
    }

    /// The turn of the variable at a place: the cost, then the units, then the starts.
    fn turn(&self, x: usize) -> usize {
        let (jobs, resources) = (self.net.job_count(), self.net.resource_count());
        if x < jobs {
            x.saturating_add(resources).saturating_add(1)
        } else if x < jobs + resources {
            (x - jobs).saturating_add(1)
        } else {
            0
        }
    }

    /// The place of the variable whose turn it is.
    fn place(&self, turn: usize) -> usize {
        let (jobs, resources) = (self.net.job_count(), self.net.resource_count());
        if turn == 0 {
            jobs + resources
        } else if turn <= resources {
            jobs.saturating_add(turn - 1)
        } else {
            turn.saturating_sub(resources + 1)
        }
    }

    /// The value of the variable at a place.
    fn value(&self, x: usize) -> u64 {
        let units = self.plan.capacities.as_slice();
        if let Some(start) = self.plan.starts.as_slice().get(x) {
            return *start as u64;
        }
        match units.get(x.wrapping_sub(self.net.job_count())) {
            Some(units) => *units as u64,
            None => self.plan.cost,
        }
    }

    /// Whether a clause leaves out what is less by the variable at a place.
    fn leaves_out(&self, literals: &[Literal], x: usize) -> bool {
        literals.iter().all(|literal| match *literal {
            Literal::AtLeast(y, least) => {
                let y = y as usize;
                y == x && self.value(x) <= least
                    || self.turn(y) < self.turn(x) && self.value(y) < least
            }
            Literal::AtMost(y, most) => {
                let y = y as usize;
                self.turn(y) < self.turn(x) && most < self.value(y)
            }
        })
    }

    /// For each variable in turn the derivation of a clause that leaves out what is less, where the root bounds do not, in
    /// rising order. `None` where one is missing.
    pub(crate) fn closing(
        &self,
        alloc: Global,
        derivations: &Derivations,
    ) -> Result<Option<Vec<u32>>, AllocError> {
        let told = derivations.told();
        let mut closing = Vec::new(alloc);
        let mut from = 0;
        for turn in 0..self.variables() {
            let x = self.place(turn);
            if self.value(x) <= self.root.lower_at(x) {
                continue;
            }
            let Some(at) = self.first_that_leaves_out(derivations, told, from, x) else {
                return Ok(None);
            };
            closing.push(told.get(at).copied().unwrap_or(0))?;
            from = at;
        }
        Ok(Some(closing))
    }

    /// The place in a row, from one on, of the first derivation whose clause leaves out what is less by a variable.
    fn first_that_leaves_out(
        &self,
        derivations: &Derivations,
        row: &[u32],
        from: usize,
        x: usize,
    ) -> Option<usize> {
        for at in from..row.len() {
            let derivation = row.get(at).copied().unwrap_or(0) as usize;
            if self.leaves_out(derivations.literals(derivation), x) {
                return Some(at);
            }
        }
        None
    }
}
