//! Neighbourhoods of the schedule of least excess, for a search.

use crate::drafting::Drafting;
use crate::rows::set_number;
use racp_model::Network;
use std::alloc::AllocError;

/// A neighbourhood of a schedule: what starts as in it, and what may start anywhere; and units that cost less than the best
/// draft. Nobody promises that some schedule lies there. Jobs and resources stand by place, from 0.
#[derive(Drop)]
pub struct Neighbourhood {
    /// When each job starts in the schedule, in time units.
    pub starts: Vec<u32>,
    /// Which jobs may start anywhere. The others keep their starts.
    pub is_free: Vec<bool>,
    /// How many units of each resource are aimed at; the greatest number where any will do.
    pub units: Vec<u32>,
}

impl Drafting {
    /// A neighbourhood of the schedule of least excess: free are the jobs that run nearest to where it exceeds the aims,
    /// somewhat by chance. `None` where nothing can cost less. The network is the one that this began with.
    ///
    /// # Errors
    ///
    /// Memory was refused.
    pub fn neighbourhood(&mut self, net: &Network) -> Result<Option<Neighbourhood>, AllocError> {
        if self.polish.best_cost() <= self.problem.least_cost() {
            return Ok(None);
        }
        let (least, aims) = (self.polish.least(), self.polish.aims());
        let is_free = self.around.free(&self.problem, least, aims)?;
        let mut units = Vec::from_elem(self.alloc, u32::MAX, net.resource_count())?;
        for (resource, aim) in self.problem.resources.iter().zip(aims.iter()) {
            set_number(&mut units, resource.place, *aim);
        }
        let ranks = &self.problem.ranks;
        Ok(Some(Neighbourhood {
            starts: ranks.row_placed(self.alloc, least)?,
            is_free: ranks.marks_placed(self.alloc, &is_free)?,
            units,
        }))
    }

    /// Nothing lies in the last neighbourhood: more jobs are free in the next one.
    pub fn grow(&mut self) {
        self.around.grow(&self.problem);
    }

    /// It is not known what lies in the last neighbourhood: fewer jobs are free in the next one.
    pub fn shrink(&mut self) {
        self.around.shrink();
    }
}
