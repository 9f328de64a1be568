//! The tables that are read for a network: one, or several that are joined.

use crate::refusing::table_failure;
use crate::texts::network_of;
use crate::warned::{Told, tell_table};
use racp_cli::StreamFault;
use racp_host::failure::Failure;
use racp_host::inputs::{read_file, shown};
use racp_model::Job;
use racp_tables::{Part, Reading, Table, joined, read_table};
use std::alloc::{AllocError, Global};
use std::rt::Files;

/// The table of a network.
#[derive(Drop)]
pub(crate) struct Taken {
    /// How it is told of: by its file, or by that of the network, if several tables are joined to it.
    pub(crate) name: String,
    /// The table.
    pub(crate) table: Table,
    /// What is told of the tables that are joined to it.
    pub(crate) told: Told,
}

/// The table of the files with these paths, which are read so: that of the only one, or the one that theirs are joined to. The path of
/// its network begins with `out`.
pub(crate) fn taken_of<R: Files + AllocGlobal>(
    rt: &R,
    paths: &[&str],
    out: &str,
    reading: &Reading<'_>,
) -> Result<Taken, Failure> {
    if paths.len() > 1 {
        test_names(rt.alloc(), paths)?;
        return joined_of(rt, paths, out, reading);
    }
    match paths.first() {
        Some(path) => alone(rt, path, reading),
        None => alone(rt, "", reading),
    }
}

/// The table of the only file, which has this path.
fn alone<R: Files + AllocGlobal>(
    rt: &R,
    path: &str,
    reading: &Reading<'_>,
) -> Result<Taken, Failure> {
    let name = String::from_str(rt.alloc(), shown(path))?;
    let table = table_in(rt, path, reading)?;
    Ok(Taken {
        name,
        table,
        told: Told::nothing(rt.alloc()),
    })
}

/// The table that those of the files with these paths are joined to.
fn joined_of<R: Files + AllocGlobal>(
    rt: &R,
    paths: &[&str],
    out: &str,
    reading: &Reading<'_>,
) -> Result<Taken, Failure> {
    let alloc = rt.alloc();
    let name = format!(in alloc; "{out}.sm")?;
    let (mut parts, mut told) = (Vec::new(alloc), Told::nothing(alloc));
    add_parts(rt, paths, reading, &mut parts, &mut told)?;
    match joined(alloc, &parts) {
        Ok(table) => Ok(Taken { name, table, told }),
        Err(fault) => Err(table_failure(alloc, &name, fault)),
    }
}

/// Adds the tables of the files with these paths, and what is told of each.
fn add_parts<R: Files + AllocGlobal>(
    rt: &R,
    paths: &[&str],
    reading: &Reading<'_>,
    parts: &mut Vec<Part>,
    told: &mut Told,
) -> Result<(), Failure> {
    for path in paths {
        let table = table_in(rt, path, reading)?;
        tell_part(rt.alloc(), told, shown(path), &table)?;
        push_part(rt.alloc(), parts, path, table)?;
    }
    Ok(())
}

/// The table in the file with this path, which is read so.
fn table_in<R: Files + AllocGlobal>(
    rt: &R,
    path: &str,
    reading: &Reading<'_>,
) -> Result<Table, Failure> {
    let bytes = read_file(rt, path)?;
    match read_table(rt.alloc(), &bytes, reading) {
        Ok(table) => Ok(table),
        Err(fault) => Err(table_failure(rt.alloc(), shown(path), fault)),
    }
}

/// Adds what was understood of a table that is joined to others, and what looks wrong.
fn tell_part(alloc: Global, told: &mut Told, name: &str, table: &Table) -> Result<(), Failure> {
    let (jobs, pairs) = copied(alloc, table)?;
    let network = network_of(alloc, name, &table.resources, jobs, pairs)?;
    let times = (&table.earliest, table.resources.as_slice());
    tell_table(alloc, told, (name, &network), times, &table.notes)?;
    Ok(())
}

/// The jobs and pairs of a table.
fn copied(alloc: Global, table: &Table) -> Result<(Vec<Job>, Vec<(u32, u32)>), AllocError> {
    let mut jobs = Vec::new(alloc);
    for job in &table.jobs {
        let requests = Vec::from_slice(alloc, job.requests())?;
        jobs.push(Job::new(job.duration(), requests))?;
    }
    let pairs = Vec::from_slice(alloc, &table.pairs)?;
    Ok((jobs, pairs))
}

/// Adds the table in the file with this path.
fn push_part(
    alloc: Global,
    parts: &mut Vec<Part>,
    path: &str,
    table: Table,
) -> Result<(), AllocError> {
    let name = part_name(alloc, path)?;
    parts.push(Part { name, table })?;
    Ok(())
}

/// Tests that no two of these tables have the same name.
fn test_names(alloc: Global, paths: &[&str]) -> Result<(), Failure> {
    let mut names: Vec<String> = Vec::new(alloc);
    for path in paths {
        let name = part_name(alloc, path)?;
        if names.iter().any(|other| other.as_str() == name.as_str()) {
            return Err(same_name(alloc, &name));
        }
        keep_name(&mut names, name)?;
    }
    Ok(())
}

/// Adds a name.
fn keep_name(names: &mut Vec<String>, name: String) -> Result<(), AllocError> {
    names.push(name)?;
    Ok(())
}

/// The failure of two tables that are called so.
fn same_name(alloc: Global, name: &str) -> Failure {
    match format!(in alloc;
        "two tables are called '{name}', and tasks of several tables are told apart by the names of their files: rename one"
    ) {
        Ok(words) => Failure::Value(words),
        Err(_) => Failure::Stream(StreamFault::Memory),
    }
}

/// What the table in the file with this path is called beside others: as the file, without its folder and its ending, and with blanks
/// in place of control characters.
fn part_name(alloc: Global, path: &str) -> Result<String, AllocError> {
    let mut name = String::new(alloc);
    for letter in stem_of(shown(path)).chars() {
        name.push(if letter.is_control() { ' ' } else { letter })?;
    }
    let trimmed = name.as_str().trim();
    String::from_str(alloc, if trimmed.is_empty() { "table" } else { trimmed })
}

/// The name of a file without its folder, and without what stands behind its last point, if something stands before that.
fn stem_of(path: &str) -> &str {
    let name = match path.rsplit_once('/') {
        Some((_, name)) => name,
        None => path,
    };
    match name.rsplit_once('.') {
        Some((stem, _)) => { if stem.is_empty() { name } else { stem } }
        None => name,
    }
}
