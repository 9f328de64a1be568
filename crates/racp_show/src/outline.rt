//! Which jobs are tasks, and in which phases they stand.

ghost use Rattle.std.specs.Prelude.{◌≡◌, ◌+◌, ◌<◌, ◌^◌, IfOk, OnOk, fold, map, nat_lt, string_bytes, true};
ghost use Rattle.std.specs.List.{prefix_len};
ghost use Rattle.racp_show.specs.Called.{printed_lines};
ghost use Rattle.racp_show.specs.Entries.{is_full, line_of, outlined};
ghost use Rattle.racp_show.specs.Outlines.{depth_of, ended, headed, named, nothing, outline_of, with_line, with_more};

use crate::entry::Entry;
use crate::lines::{hashes, is_end, is_heading, is_wait, title_of};
use crate::names::printed;
use std::alloc::{AllocError, Global};
use std::cmp::min;

/// The rows of a chart of tasks, as a names file tells them: the phases and, in the order of their numbers, the tasks.
/// Jobs that wait for links with lags are no tasks. In contracts `outlined` is what they tell.
#[derive(Drop)]
pub struct Outline {
    rows: Vec<Entry>,
    /// The phases that have begun, and have no task yet.
    begun: Vec<Entry>,
    depth: usize,
    tasks: usize,
    is_waiting: bool,
}

impl Outline {
    /// The outline of a project with this many jobs, as the text of its names file tells. A phase begins with a line
    /// `# TITLE` or, in another, `## TITLE` and so on; phases end where another of the same or a lesser depth begins, or at a line
    /// `#`, `##` and so on. Behind a line `#wait` no job is a task. A job without a line is a task, if there is no such line; so all
    /// are without a names file. A phase without a task is left out.
    ///
    /// # Errors
    ///
    /// Memory was refused.
    pub fn of_text(alloc: Global, text: &str, jobs: usize) -> Result<Outline, AllocError>
        ensures { IfOk result (λ outline. outlined outline ≡ outline_of jobs text.now) }
    {
        let mut outline = Outline::of_lines(alloc, text, jobs)?;
        outline.add_jobs(jobs)?;
        Ok(outline)
    }

    /// How many jobs are tasks: so many with the least numbers.
    pub fn task_count(&self) -> usize
        ensures { result ≡ (outlined self.now).tasks }
    {
        self.tasks
    }

    /// The rows.
    pub(crate) fn rows(&self) -> &[Entry]
        ensures { map line_of result.now ≡ (outlined self.now).rows }
    {
        self.rows.as_slice()
    }

    /// What the lines of a text tell.
    fn of_lines(alloc: Global, text: &str, jobs: usize) -> Result<Outline, AllocError>
        ensures { IfOk result (λ outline. outlined outline ≡ fold (with_line jobs) nothing (printed_lines text.now)) }
    {
        let mut outline = Outline::empty(alloc);
        for line in text.lines() {
            let line = printed(alloc, line)?;
            outline.add_line(alloc, line.as_str(), jobs)?;
        }
        Ok(outline)
    }

    /// What is told before the first line.
    fn empty(alloc: Global) -> Outline
        ensures { outlined result ≡ nothing }
    {
        Outline {
            rows: Vec::new(alloc),
            begun: Vec::new(alloc),
            depth: 0,
            tasks: 0,
            is_waiting: false,
        }
    }

    /// Takes in a printed line.
    fn add_line(&mut self, alloc: Global, line: &str, jobs: usize) -> Result<(), AllocError>
        ensures { OnOk result (outlined self.new ≡ with_line jobs (outlined self.old) line.now) }
    {
        if is_wait(line) {
            self.wait();
            return Ok(());
        }
        if is_end(line) {
            self.end_phases(hashes(line).saturating_sub(1));
            return Ok(());
        }
        if is_heading(line) {
            let title = String::from_str(alloc, title_of(line))?;
            return self.begin_phase(hashes(line).saturating_sub(1), title);
        }
        self.add_job(jobs)
    }

    /// Jobs wait from here on.
    fn wait(&mut self)
        ensures { outlined self.new ≡ record (outlined self.old) { waits = true } }
    {
        self.is_waiting = true;
    }

    /// The phases from this depth on end.
    fn end_phases(&mut self, depth: usize)
        ensures { outlined self.new ≡ ended depth (outlined self.old) }
    {
        let count = count_outside(&self.begun, depth);
        self.begun.truncate(count);
        self.depth = min(self.depth, depth);
    }

    /// A phase of this depth begins.
    fn begin_phase(&mut self, depth: usize, title: String) -> Result<(), AllocError>
        requires { depth + 1 < 2 ^ 64 }
        ensures { OnOk result (outlined self.new ≡ headed depth (string_bytes title) (outlined self.old)) }
    {
        self.end_phases(depth);
        self.begun.push(Entry::Heading { depth, title })?;
        self.depth = depth + 1;
        Ok(())
    }

    /// There is a job, and there are so many in all.
    fn add_job(&mut self, jobs: usize) -> Result<(), AllocError>
        ensures { OnOk result (outlined self.new ≡ named jobs (outlined self.old)) }
    {
        if self.is_full(jobs) {
            return Ok(());
        }
        let job = self.tasks + 1;
        self.rows.append(&mut self.begun)?;
        self.rows.push(Entry::Bar {
            depth: self.depth,
            job,
        })?;
        self.tasks = job;
        Ok(())
    }

    /// Whether no more job is a task.
    fn is_full(&self, jobs: usize) -> bool
        ensures { result ≡ is_full jobs (outlined self.now) }
    {
        self.is_waiting || jobs <= self.tasks
    }

    /// There are so many jobs that no line names.
    fn add_jobs(&mut self, jobs: usize) -> Result<(), AllocError>
        ensures { OnOk result (outlined self.new ≡ with_more jobs jobs (outlined self.old)) }
    {
        for _job in 0..jobs {
            self.add_job(jobs)?;
        }
        Ok(())
    }
}

/// In how many of some phases, each of which stands in the one before it, one of this depth stands.
fn count_outside(begun: &[Entry], depth: usize) -> usize
    ensures { result ≡ prefix_len (λ line. nat_lt (depth_of line) depth) (map line_of begun.now) }
{
    for (place, entry) in begun.iter().enumerate() {
        if depth <= entry.depth() {
            return place;
        }
    }
    begun.len()
}
