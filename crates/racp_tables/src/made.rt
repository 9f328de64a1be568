//! The jobs and pairs that rows make.

ghost use Rattle.std.specs.Prelude.{◌≡◌, ◌+◌, ◌++◌, ◌∷◌, [], if◌then◌else◌, IfOk, OnOk, map};
ghost use Rattle.racp_links.specs.Phases.{is_phase, of_leaves};
ghost use Rattle.racp_tables.specs.Rows.{AreJobsOf, IsOfRows, duration_of, durations_of, job_of, waiting};

use crate::outline::is_phase_at;
use crate::row::Row;
use crate::ties::{Ties, links_of};
use racp_links::{LinkFault, PhaseFault, Wait, Waits, numbered_links, with_waits};
use racp_model::Job;
use std::alloc::{AllocError, Global};

/// The jobs and pairs that rows make, and the jobs that wait, which stand behind those of the rows.
#[derive(Drop)]
pub(crate) struct Made {
    pub(crate) jobs: Vec<Job>,
    pub(crate) pairs: Vec<(u32, u32)>,
    pub(crate) waits: Vec<Wait>,
}

/// Why rows make no jobs and pairs.
#[derive(Clone, Copy)]
pub(crate) enum MadeFault {
    /// What is wrong with links of phases.
    Phase(PhaseFault),
    /// What is wrong with the links between rows that are no phases.
    Link(LinkFault),
    /// Memory ran out.
    Memory,
}

impl From<PhaseFault> for MadeFault {
    ghost use Rattle.std.specs.Prelude.{◌≡◌};
    ghost use Rattle.racp_tables.specs.declared.made.MadeFault.TheVariants.{Phase};

    ghost from_gives = { λ inner fault. fault ≡ Phase inner };

    fn from(fault: PhaseFault) -> MadeFault {
        MadeFault::Phase(fault)
    }
}

impl From<LinkFault> for MadeFault {
    ghost use Rattle.std.specs.Prelude.{◌≡◌};
    ghost use Rattle.racp_tables.specs.declared.made.MadeFault.TheVariants.{Link};

    ghost from_gives = { λ inner fault. fault ≡ Link inner };

    fn from(fault: LinkFault) -> MadeFault {
        MadeFault::Link(fault)
    }
}

impl From<AllocError> for MadeFault {
    ghost use Rattle.std.specs.Prelude.{◌≡◌};
    ghost use Rattle.racp_tables.specs.declared.made.MadeFault.TheVariants.{Memory};

    ghost from_gives = { λ _ fault. fault ≡ Memory };

    fn from(_error: AllocError) -> MadeFault {
        MadeFault::Memory
    }
}

/// What rows make that are parts of each other so, and have these ties, and of which each requests so many resources.
pub(crate) fn made_of(
    alloc: Global,
    rows: &[Row],
    ties: &[Ties],
    parents: &[u32],
    resources: usize,
) -> Result<Made, MadeFault>
    ensures { IfOk result (λ made. IsOfRows parents.now rows.now ties.now resources made.jobs.items made.pairs.items) }
{
    let durations = durations_of(alloc, rows, parents)?;
    let links = links_of(alloc, ties)?;
    let numbered = numbered_links(alloc, parents, &links)?;
    let Waits { pairs, waits } = with_waits(alloc, &durations, &numbered)?;
    let jobs = jobs_of(alloc, rows, parents, &waits, resources)?;
    Ok(Made { jobs, pairs, waits })
}

/// The durations of rows that are no phases.
fn durations_of(alloc: Global, rows: &[Row], parents: &[u32]) -> Result<Vec<u32>, AllocError>
    ensures { IfOk result (λ durations. durations.items ≡ durations_of parents.now rows.now) }
{
    let mut durations = Vec::new(alloc);
    for i in 0..rows.len() {
        push_duration(&mut durations, &rows[i], parents, i)?;
    }
    Ok(durations)
}

/// Adds the duration of the row at a place, unless that is a phase.
fn push_duration(
    durations: &mut Vec<u32>,
    row: &Row,
    parents: &[u32],
    place: usize,
) -> Result<(), AllocError>
    ensures { OnOk result (durations.new.items ≡ durations.old.items ++
        (if is_phase parents.now (place + 1) then [] else duration_of row.now ∷ [])) }
{
    if is_phase_at(parents, place)? {
        return Ok(());
    }
    durations.push(row.duration)?;
    Ok(())
}

/// The jobs of rows that are no phases, and those that wait and request nothing of so many resources.
fn jobs_of(
    alloc: Global,
    rows: &[Row],
    parents: &[u32],
    waits: &[Wait],
    resources: usize,
) -> Result<Vec<Job>, AllocError>
    ensures { IfOk result (λ jobs. AreJobsOf parents.now rows.now waits.now resources jobs.items) }
{
    let mut jobs = Vec::new(alloc);
    push_rows(alloc, &mut jobs, rows, parents)?;
    push_waits(alloc, &mut jobs, waits, resources)?;
    Ok(jobs)
}

/// Adds the jobs of rows that are no phases.
fn push_rows(
    alloc: Global,
    jobs: &mut Vec<Job>,
    rows: &[Row],
    parents: &[u32],
) -> Result<(), AllocError>
    ensures { OnOk result (jobs.new.items ≡ jobs.old.items ++ of_leaves parents.now (map job_of rows.now)) }
{
    for i in 0..rows.len() {
        push_row(alloc, jobs, &rows[i], parents, i)?;
    }
    Ok(())
}

/// Adds the job of the row at a place, unless that is a phase.
fn push_row(
    alloc: Global,
    jobs: &mut Vec<Job>,
    row: &Row,
    parents: &[u32],
    place: usize,
) -> Result<(), AllocError>
    ensures { OnOk result (jobs.new.items ≡ jobs.old.items ++
        (if is_phase parents.now (place + 1) then [] else job_of row.now ∷ [])) }
{
    if is_phase_at(parents, place)? {
        return Ok(());
    }
    let requests = Vec::from_slice(alloc, &row.requests)?;
    jobs.push(Job::new(row.duration, requests))?;
    Ok(())
}

/// Adds jobs that wait and request nothing of so many resources.
fn push_waits(
    alloc: Global,
    jobs: &mut Vec<Job>,
    waits: &[Wait],
    resources: usize,
) -> Result<(), AllocError>
    ensures { OnOk result (jobs.new.items ≡ jobs.old.items ++ map (waiting resources) waits.now) }
{
    for wait in waits {
        push_wait(alloc, jobs, wait, resources)?;
    }
    Ok(())
}

/// Adds a job that waits.
fn push_wait(
    alloc: Global,
    jobs: &mut Vec<Job>,
    wait: &Wait,
    resources: usize,
) -> Result<(), AllocError>
    ensures { OnOk result (jobs.new.items ≡ jobs.old.items ++ waiting resources wait.now ∷ []) }
{
    let requests = vec![in alloc; 0; resources]?;
    jobs.push(Job::new(wait.duration, requests))?;
    Ok(())
}
