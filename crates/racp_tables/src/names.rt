//! The names of a table's tasks and resources, as a text.

ghost use Rattle.std.specs.Prelude.{◌≡◌, ◌<◌, ◌==◌, ◌++◌, ◌∷◌, [], if◌then◌else◌, flat_map, length, IfOk, IfSome, OnOk, map, not, replicate, string_bytes};
ghost use Rattle.std.specs.List.{position_from};
ghost use Rattle.racp_tables.specs.Names.{heading_line, is_like_heading, is_no_name, job_lines, jobs_lines, line_above, name_line, names_file, title_part, wait_line};

use crate::heading::Heading;
use std::alloc::{AllocError, Global};

/// The names of jobs, which are tasks up to a place and then wait, and of resources, a line each. Above the tasks stand the lines of
/// headings, and above the jobs that wait a line that says so.
///
/// # Errors
///
/// Memory was refused.
pub fn names_text(
    alloc: Global,
    jobs: &[String],
    headings: &[Heading],
    tasks: usize,
    resources: &[String],
) -> Result<String, AllocError>
    ensures { IfOk result (λ text. string_bytes text ≡
        names_file headings.now tasks (map string_bytes jobs.now) (map string_bytes resources.now)) }
{
    let mut text = String::new(alloc);
    push_jobs(&mut text, jobs, headings, tasks)?;
    push_names(&mut text, resources)?;
    Ok(text)
}

/// Adds the lines of jobs.
fn push_jobs(
    text: &mut String,
    jobs: &[String],
    headings: &[Heading],
    tasks: usize,
) -> Result<(), AllocError>
    ensures { OnOk result (string_bytes text.new ≡ string_bytes text.old ++
        jobs_lines headings.now tasks 0 (map string_bytes jobs.now)) }
{
    for i in 0..jobs.len() {
        push_job(text, jobs[i].as_str(), headings, tasks, i)?;
    }
    Ok(())
}

/// Adds the lines of the job at a place, which is called so.
fn push_job(
    text: &mut String,
    name: &str,
    headings: &[Heading],
    tasks: usize,
    place: usize,
) -> Result<(), AllocError>
    ensures { OnOk result (string_bytes text.new ≡ string_bytes text.old ++ job_lines headings.now tasks place name.now) }
{
    push_headings(text, headings, place)?;
    push_wait_line(text, tasks, place)?;
    push_name(text, name)
}

/// Adds the lines of the headings above the job at a place.
fn push_headings(text: &mut String, headings: &[Heading], place: usize) -> Result<(), AllocError>
    ensures { OnOk result (string_bytes text.new ≡ string_bytes text.old ++ flat_map (line_above place) headings.now) }
{
    for heading in headings {
        push_heading_above(text, heading, place)?;
    }
    Ok(())
}

/// Adds the line of a heading if it stands above the job at a place.
fn push_heading_above(text: &mut String, heading: &Heading, place: usize) -> Result<(), AllocError>
    ensures { OnOk result (string_bytes text.new ≡ string_bytes text.old ++ line_above place heading.now) }
{
    if heading.place == place {
        push_heading(text, heading)
    } else {
        Ok(())
    }
}

/// Adds the line of a heading.
fn push_heading(text: &mut String, heading: &Heading) -> Result<(), AllocError>
    ensures { OnOk result (string_bytes text.new ≡ string_bytes text.old ++ heading_line heading.now) }
{
    push_signs(text, heading.depth)?;
    push_title(text, &heading.title)?;
    text.push_str("\n")
}

/// Adds so many number signs.
fn push_signs(text: &mut String, count: usize) -> Result<(), AllocError>
    ensures { OnOk result (string_bytes text.new ≡ string_bytes text.old ++ replicate count 35) }
{
    for _sign in 0..count {
        text.push_str("#")?;
    }
    Ok(())
}

/// Adds the title of a phase that begins.
fn push_title(text: &mut String, title: &Option<String>) -> Result<(), AllocError>
    ensures { OnOk result (string_bytes text.new ≡ string_bytes text.old ++ title_part title.now) }
{
    match title {
        Some(title) => {
            text.push_str(" ")?;
            text.push_str(title.as_str())
        }
        None => Ok(()),
    }
}

/// Adds the line above the first job that waits, if that is the one at a place.
fn push_wait_line(text: &mut String, tasks: usize, place: usize) -> Result<(), AllocError>
    ensures { OnOk result (string_bytes text.new ≡ string_bytes text.old ++ wait_line tasks place) }
{
    if place == tasks {
        text.push_str("#wait\n")
    } else {
        Ok(())
    }
}

/// Adds a line for each name.
fn push_names(text: &mut String, names: &[String]) -> Result<(), AllocError>
    ensures { OnOk result (string_bytes text.new ≡ string_bytes text.old ++ flat_map name_line (map string_bytes names.now)) }
{
    for i in 0..names.len() {
        push_name(text, names[i].as_str())?;
    }
    Ok(())
}

/// Adds the line of a name.
fn push_name(text: &mut String, name: &str) -> Result<(), AllocError>
    ensures { OnOk result (string_bytes text.new ≡ string_bytes text.old ++ name_line name.now) }
{
    push_blank(text, is_no_name(name))?;
    text.push_str(name)?;
    text.push_str("\n")
}

/// Adds a blank if it is needed.
fn push_blank(text: &mut String, is_needed: bool) -> Result<(), AllocError>
    ensures { OnOk result (string_bytes text.new ≡ string_bytes text.old ++ (if is_needed then 32 ∷ [] else [])) }
{
    if is_needed {
        text.push_str(" ")
    } else {
        Ok(())
    }
}

/// Whether a name would be read as a heading, as an end of phases, or as the line above jobs that wait.
fn is_no_name(name: &str) -> bool
    ensures { result ≡ is_no_name name.now }
{
    is_like_heading(name.as_bytes()) || name.trim_end() == "#wait"
}

/// Whether a name would be read as a heading or as an end of phases.
fn is_like_heading(name: &[u8]) -> bool
    ensures { result ≡ is_like_heading name.now }
{
    match other_sign(name) {
        Some(place) => place != 0 && name[place] == b' ',
        None => !name.is_empty(),
    }
}

/// The place of the first byte that is no number sign, if there is one.
fn other_sign(name: &[u8]) -> Option<usize>
    ensures place { result ≡ position_from (λ sign. not (sign == 35)) 0 name.now }
    ensures inside { IfSome result (λ k. k < length name.now) }
{
    for i in 0..name.len() {
        if name[i] != b'#' {
            return Some(i);
        }
    }
    None
}
