//! What the jobs and the resources are called.

ghost use Rattle.std.specs.Prelude.{◌≡◌, ◌↔◌, ◌+◌, ◌<◌, ◌^◌, [], IfOk, IfSome, IsSome, IsUtf8, OnOk, drop, length, map, option_map, slice_index_or, string_bytes};
ghost use Rattle.std.specs.List.{list_all};
ghost use Rattle.racp_show.specs.Called.{are_names_for, counts, is_empty, is_unprinted, name_at, names_of, printed, with_name};

use crate::lines::is_name;
use racp_model::limits::{MOST_JOBS, MOST_RESOURCES};
use std::alloc::{AllocError, Global};
use std::marker::Model;

/// The most names that a project has.
const MOST_NAMES: usize = MOST_JOBS + MOST_RESOURCES;

/// The names of the jobs and then of the resources, in the order of their numbers. Some or all may be missing.
/// Contracts see the list of their bytes.
#[derive(Drop)]
pub struct Names {
    names: Vec<String>,
}

impl Model for Names {
    ghost use Rattle.std.specs.Prelude.{ℕ, List, map, string_bytes};

    ghost Value = { List (List ℕ) };

    ghost view = { λ names. map string_bytes names.names.items };
}

impl Names {
    /// No names. Takes no memory.
    pub fn none(alloc: Global) -> Names
        ensures { result ≡ [] }
    {
        Names {
            names: Vec::new(alloc),
        }
    }

    /// The names of a text, one a line: first the jobs, then the resources. A byte order mark and control characters are
    /// dropped, so lines may end with CR LF. An empty line is no name, and lines that tell how jobs are shown are passed
    /// over. Names behind the first 528, as many as 512 jobs and 16 resources have, count for nothing, but for one that is
    /// not empty. `None` if the bytes are not UTF-8.
    ///
    /// # Errors
    ///
    /// Memory was refused.
    pub fn read(alloc: Global, bytes: &[u8]) -> Result<Option<Names>, AllocError>
        ensures utf8 { IfOk result (λ names. IsSome names ↔ IsUtf8 bytes.now) }
        ensures names { IfOk result (λ names. IfSome names (λ names. names ≡ names_of bytes.now)) }
    {
        match std::str::from_utf8(bytes) {
            Ok(text) => Ok(Some(Names::of_text(alloc, text)?)),
            Err(_) => Ok(None),
        }
    }

    /// The names of a text, as `read` reads them.
    ///
    /// # Errors
    ///
    /// Memory was refused.
    pub fn of_text(alloc: Global, text: &str) -> Result<Names, AllocError>
        ensures { IfOk result (λ names. names ≡ names_of text.now) }
    {
        let mut names = Vec::new(alloc);
        for line in text.lines() {
            push_name(&mut names, printed(alloc, line)?)?;
        }
        Ok(Names { names })
    }

    /// How many lines they are, also the empty ones.
    pub fn count(&self) -> usize
        ensures { result ≡ length self.now }
    {
        self.names.len()
    }

    /// Whether there are no names, or this many and behind them none. An empty one is none.
    pub fn are_for(&self, count: usize) -> bool
        ensures { result ≡ are_names_for self.now count }
    {
        are_empty(&self.names) || (count <= self.names.len() && are_empty(&self.names[count..]))
    }

    /// The name at this place, from 0, or the empty text if there is none.
    pub fn at(&self, place: usize) -> &str
        ensures { result.now ≡ slice_index_or self.now place [] }
    {
        if place < self.names.len() {
            self.names[place].as_str()
        } else {
            ""
        }
    }

    /// The name of the job at place `i`, from 0, or `None` if it has none.
    pub fn job(&self, i: usize) -> Option<&str>
        ensures { option_map (λ name. name.now) result ≡ name_at self.now i }
    {
        let name = self.at(i);
        if name.is_empty() { None } else { Some(name) }
    }

    /// The name of the resource at place `k`, from 0, of a project with this many jobs, or `None` if it has none.
    pub fn resource(&self, jobs: usize, k: usize) -> Option<&str>
        requires { jobs + k < 2 ^ 64 }
        ensures { option_map (λ name. name.now) result ≡ name_at self.now (jobs + k) }
    {
        self.job(jobs + k)
    }
}

/// Adds a line if it counts as a name.
fn push_name(names: &mut Vec<String>, line: String) -> Result<(), AllocError>
    ensures { OnOk result (map string_bytes names.new.items ≡ with_name (map string_bytes names.old.items) (string_bytes line)) }
{
    if !counts(names.len(), line.as_str()) {
        return Ok(());
    }
    names.push(line)?;
    Ok(())
}

/// Whether a line behind so many names counts as one.
fn counts(before: usize, line: &str) -> bool
    ensures { result ≡ counts before line.now }
{
    is_name(line) && (before < MOST_NAMES || (before == MOST_NAMES && !line.is_empty()))
}

/// Whether all names are empty.
fn are_empty(names: &[String]) -> bool
    ensures { result ≡ list_all is_empty (map string_bytes names.now) }
{
    for name in names {
        if !is_empty(name.as_str()) {
            return false;
        }
    }
    true
}

/// Whether a name is none.
fn is_empty(name: &str) -> bool
    ensures { result ≡ is_empty name.now }
{
    name.is_empty()
}

/// A line as it is printed.
pub(crate) fn printed(alloc: Global, line: &str) -> Result<String, AllocError>
    ensures { IfOk result (λ name. string_bytes name ≡ printed line.now) }
{
    let mut name = String::new(alloc);
    for letter in line.chars() {
        if !is_unprinted(letter) {
            name.push(letter)?;
        }
    }
    Ok(name)
}

/// Whether a character is not printed: a control character, or a byte order mark.
fn is_unprinted(letter: char) -> bool
    ensures { result ≡ is_unprinted letter }
{
    letter.is_control() || letter == '\u{feff}'
}
