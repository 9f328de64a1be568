//! How far planning has come.

use racp_model::limits::MOST_RESOURCES;
use std::alloc::{AllocError, Global};
use std::fmt;
use std::fmt::{Display, Formatter};
use std::sync::atomic::{AtomicU64, Ordering};

/// How far planning has come: the deadline, the floor of each resource, by place from 0, what the plan costs at least, how
/// many conflicts a search that learns has met and how many clauses it keeps, and how many mebibytes of memory were used when
/// that was last told.
#[derive(Drop)]
pub(crate) struct Told {
    pub(crate) deadline: AtomicU64,
    pub(crate) resources: AtomicU64,
    pub(crate) floors: Vec<AtomicU64>,
    pub(crate) cost: AtomicU64,
    pub(crate) conflicts: AtomicU64,
    pub(crate) clauses: AtomicU64,
    pub(crate) memory: AtomicU64,
}

impl Told {
    /// Nothing is told.
    pub(crate) fn new(alloc: Global) -> Result<Self, AllocError> {
        let mut floors = Vec::with_capacity(alloc, MOST_RESOURCES)?;
        for _ in 0..MOST_RESOURCES {
            floors.push(AtomicU64::new(0))?;
        }
        Ok(Told {
            deadline: AtomicU64::new(0),
            resources: AtomicU64::new(0),
            floors,
            cost: AtomicU64::new(0),
            conflicts: AtomicU64::new(0),
            clauses: AtomicU64::new(0),
            memory: AtomicU64::new(0),
        })
    }
}

impl Display for Told {
    fn fmt<W: fmt::Write>(&self, f: &mut Formatter<W>) -> fmt::Result {
        write!(
            f,
            "deadline {} floors",
            self.deadline.load(Ordering::SeqCst)
        )?;
        let resources = self.resources.load(Ordering::SeqCst) as usize;
        for floor in self.floors.iter().take(resources) {
            write!(f, " {}", floor.load(Ordering::SeqCst))?;
        }
        write!(f, " cost {}", self.cost.load(Ordering::SeqCst))
    }
}
