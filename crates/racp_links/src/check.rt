//! Whether all links can be made pairs and waiting jobs.

ghost use Rattle.racp_links.specs.Faults.{IsCounted, IsChecked};

use crate::fault::LinkFault;
use crate::link::{Link, gap, is_apart, names_tasks};
use racp_model::limits::MOST_DURATION;

/// The most tasks and jobs: the greatest number that one can have.
pub(crate) const MOST_NUMBER: usize = 4_294_967_295;

/// Finds the first link that is wrong.
pub(crate) fn check(durations: &[u32], links: &[Link]) -> Result<(), LinkFault>
    ensures { IsChecked durations.now links.now result }
{
    let mut jobs = durations.len();
    for (place, link) in links.iter().enumerate() {
        jobs = jobs_behind(durations, jobs, link, place)?;
    }
    Ok(())
}

/// How many jobs there are with those of a link at a place, if there were so many before it; or why the link is wrong.
fn jobs_behind(
    durations: &[u32],
    jobs: usize,
    link: &Link,
    place: usize,
) -> Result<usize, LinkFault>
    ensures { IsCounted durations.now jobs link.now place result }
{
    if !names_tasks(link, durations.len()) {
        return Err(LinkFault::NoTask(place));
    }
    if !is_apart(durations, link) {
        return Err(LinkFault::Overlap(place));
    }
    let units = gap(durations, link);
    if units == 0 {
        return Ok(jobs);
    }
    if units > u64::from(MOST_DURATION) || jobs >= MOST_NUMBER {
        return Err(LinkFault::TooLong(place));
    }
    Ok(jobs + 1)
}
