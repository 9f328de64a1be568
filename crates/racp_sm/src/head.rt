//! The head of a network text, which says how many jobs and resources there are.

ghost use Rattle.std.specs.Prelude.{◌≡◌, ◌<◌, ◌≤◌, IfOk};
ghost use Rattle.std.specs.List.{before_first};
ghost use Rattle.racp_sm.specs.Head.{begins_with, counts_of, entries_of, first_or_empty, optional, required};
ghost use Rattle.racp_sm.specs.Lines.{words_in};
ghost use Rattle.racp_sm.specs.Reading.{from_first};
ghost use Rattle.racp_sm.specs.Steps.{after_line, has_mark, kept_entry, texts};
ghost use Rattle.racp_sm.specs.declared.part.Part.TheVariants.{Precedence};
ghost use Rattle.racp_sm.specs.declared.part.Mark.TheVariants.{Title};

use crate::cut::{after_words, first_word};
use crate::fault::{SmFault, SmFaultKind};
use crate::line::{Line, Lines};
use crate::part::{Mark, Part};
use crate::word::Word;
use racp_model::limits::{MOST_JOBS, MOST_RESOURCES};
use racp_text::cut_at;
use std::marker::Model;

/// How many jobs and resources there are.
#[derive(Drop)]
pub(crate) struct Counts {
    pub(crate) jobs: u32,
    pub(crate) resources: u32,
}

impl Model for Counts {
    ghost use Rattle.racp_sm.specs.Head as head;

    ghost Value = { head.Counts };

    ghost view = { λ counts. record { jobs = counts.jobs; resources = counts.resources } };
}

/// The values in the head that are read, each of the first line with its key.
#[derive(Drop)]
pub(crate) struct Head<'a> {
    projects: Option<Word<'a>>,
    jobs: Option<Word<'a>>,
    renewable: Option<Word<'a>>,
    nonrenewable: Option<Word<'a>>,
    doubly_constrained: Option<Word<'a>>,
}

impl<'a> Model for Head<'a> {
    ghost use Rattle.racp_sm.specs.Head as head;

    ghost Value = { head.Entries };

    ghost view = { λ entries. record {
      projects = entries.projects;
      jobs = entries.jobs;
      renewable = entries.renewable;
      nonrenewable = entries.nonrenewable;
      doubly_constrained = entries.doubly_constrained;
    } };
}

impl<'a> Head<'a> {
    /// Reads the lines before the title of the precedence part, and leaves it and those after it.
    pub(crate) fn read(lines: &mut Lines<'a>) -> Self
        ensures head { result ≡ entries_of (before_first (has_mark (Title Precedence)) lines.old) }
        ensures rest { lines.new ≡ from_first (has_mark (Title Precedence)) lines.old }
    {
        let mut head = Head {
            projects: None,
            jobs: None,
            renewable: None,
            nonrenewable: None,
            doubly_constrained: None,
        };
        while let Some(line) = lines.next_before(Mark::Title(Part::Precedence)) {
            head.note(&line);
        }
        head
    }

    /// Notes the value of a line, if it is the first with its key.
    fn note(&mut self, line: &Line<'a>)
        ensures { self.new ≡ after_line line.now self.old }
    {
        let Some((key, after)) = cut_at(line.bytes(), b':') else {
            return;
        };
        let value = first_or_empty(after);
        let number = line.number();
        note_value(&mut self.projects, key, &["projects"], number, value);
        note_value(&mut self.jobs, key, &["jobs"], number, value);
        note_value(&mut self.renewable, key, &["-", "renewable"], number, value);
        note_value(
            &mut self.nonrenewable,
            key,
            &["-", "nonrenewable"],
            number,
            value,
        );
        note_value(
            &mut self.doubly_constrained,
            key,
            &["-", "doubly", "constrained"],
            number,
            value,
        );
    }

    /// How many jobs and resources there are.
    ///
    /// # Errors
    ///
    /// The first rule of the head that is broken.
    #[tactic(auto, unfolding(crate::specs::Head::counts_of))]
    pub(crate) fn counts(&self) -> Result<Counts, SmFault>
        ensures counts { result ≡ counts_of self.now }
        ensures most { IfOk result (λ counts. counts.jobs ≤ 512) }
    {
        optional(&self.projects, 1, SmFaultKind::ManyProjects)?;
        let jobs = required(&self.jobs, MOST_JOBS as u32, SmFaultKind::NoJobs)?;
        let resources = required(
            &self.renewable,
            MOST_RESOURCES as u32,
            SmFaultKind::NoRenewable,
        )?;
        optional(&self.nonrenewable, 0, SmFaultKind::OtherResources)?;
        optional(&self.doubly_constrained, 0, SmFaultKind::OtherResources)?;
        Ok(Counts { jobs, resources })
    }
}

/// The first word, or no letters if there is none.
fn first_or_empty(bytes: &[u8]) -> &[u8]
    ensures { result.now ≡ first_or_empty (words_in bytes.now) }
{
    match first_word(bytes) {
        Some((word, _)) => word,
        None => &bytes[..0],
    }
}

/// Keeps a value if its key begins with these words and none is kept yet.
fn note_value<'a>(
    kept: &mut Option<Word<'a>>,
    key: &[u8],
    names: &[&str],
    line: usize,
    value: &'a [u8],
)
    ensures { kept.new ≡ kept_entry kept.old (begins_with (words_in key.now) (texts names.now))
        (record { line = line; bytes = value.now }) }
{
    if kept.is_none() && after_words(key, names).is_some() {
        *kept = Some(Word::new(line, value));
    }
}

/// The number, from 1 to `most`, of an entry that has to be there.
fn required(entry: &Option<Word>, most: u32, missing: SmFaultKind) -> Result<u32, SmFault>
    ensures number { result ≡ required missing 1 most entry.now }
    ensures most { IfOk result (λ n. n ≤ most) }
{
    match entry {
        Some(word) => word.number_within(SmFaultKind::Limit, 1, most),
        None => Err(SmFault::at(missing, 0)),
    }
}

/// Tests that an entry is this number if it is there.
fn optional(entry: &Option<Word>, wanted: u32, other: SmFaultKind) -> Result<u32, SmFault>
    ensures { result ≡ optional other wanted entry.now }
{
    match entry {
        Some(word) => word.number_within(other, wanted, wanted),
        None => Ok(wanted),
    }
}
