//! Waiting jobs, and the pairs that tie them and the tasks.

ghost use Rattle.std.specs.Prelude.{◌+◌, length, IfOk, OnOk};
ghost use Rattle.racp_links.specs.Faults.{IsWell, AreWell, AreMadeOf, IsAdded, IsMapped};

use crate::check::check;
use crate::fault::LinkFault;
use crate::link::{Link, gap};
use std::alloc::{AllocError, Global};

/// A job that only takes time and requests nothing, between the end of a task and the start of another.
#[derive(Clone, Copy)]
pub struct Wait {
    /// How many time units it takes: 1 to 10,000.
    pub duration: u32,
    /// The number of the task that waits for its end.
    pub after: u32,
}

/// What links become in a network: pairs and waiting jobs.
#[derive(Drop)]
pub struct Waits {
    /// Pairs of job numbers, from 1, of which the second job starts only when the first has ended.
    pub pairs: Vec<(u32, u32)>,
    /// The waiting jobs, which are numbered behind all tasks.
    pub waits: Vec<Wait>,
}

impl Waits {
    /// Adds the pairs and the waiting job of a link to those of the links before it.
    fn add(&mut self, durations: &[u32], link: &Link) -> Result<(), AllocError>
        requires { IsWell durations.now (length durations.now + length self.old.waits.items) link.now }
        ensures { OnOk result (IsAdded durations.now link.now self.old self.new) }
    {
        let units = gap(durations, link);
        if units == 0 {
            self.pairs.push((link.before, link.after))?;
            return Ok(());
        }
        let wait = (durations.len() + self.waits.len() + 1) as u32;
        self.pairs.push((link.before, wait))?;
        self.pairs.push((wait, link.after))?;
        self.waits.push(Wait {
            duration: units as u32,
            after: link.after,
        })?;
        Ok(())
    }
}

/// The pairs and the waiting jobs of links.
fn made(alloc: Global, durations: &[u32], links: &[Link]) -> Result<Waits, AllocError>
    requires { AreWell durations.now links.now }
    ensures { IfOk result (AreMadeOf durations.now links.now) }
{
    let mut made = Waits {
        pairs: Vec::new(alloc),
        waits: Vec::new(alloc),
    };
    for link in links {
        made.add(durations, link)?;
    }
    Ok(made)
}

/// Makes the links between tasks of these durations (in time units) pairs of a network and waiting jobs.
///
/// Waiting jobs request nothing. They are numbered behind all tasks, in the order of the links.
///
/// # Errors
///
/// The first link that is wrong: `NoTask`, if it names no task or one task twice; `Overlap`, if its second task could
/// start before the first has ended; `TooLong`, if its waiting job would be longer than 10,000 time units, or have a
/// number above 4,294,967,295. `Memory`, only if no link is wrong.
pub fn with_waits(alloc: Global, durations: &[u32], links: &[Link]) -> Result<Waits, LinkFault>
    ensures { IsMapped durations.now links.now result }
{
    check(durations, links)?;
    Ok(made(alloc, durations, links)?)
}
