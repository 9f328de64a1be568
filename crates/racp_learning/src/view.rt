//! What deciding reads.

use crate::activity::Activity;
use crate::bound::Bound;
use crate::problem::Problem;
use crate::trail::Trail;

/// What deciding reads.
#[derive(Clone, Copy)]
pub(crate) struct View<'a> {
    pub(crate) problem: &'a Problem,
    pub(crate) trail: &'a Trail,
    pub(crate) activity: &'a Activity,
    /// Starts to keep to where a job may start before a time or from it on; none if the row is empty.
    pub(crate) guide: &'a [u32],
}

impl View<'_> {
    /// The side of a time on which a job is to start: the guide's, or else from that time on.
    pub(crate) fn side(&self, job: usize, time: i64) -> Bound {
        match self.guide.get(job) {
            Some(&start) if i64::from(start) < time => Bound::at_most(job, time.wrapping_sub(1)),
            _ => Bound::at_least(job, time),
        }
    }
}
