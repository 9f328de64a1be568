//! What is told of planning while it goes on.

use crate::known::Known;
use crate::progress_told::Told;
use crate::terminal::{CUT, PassedTime, UNCUT, place};
use std::alloc::{AllocError, Global};
use std::fmt;
use std::fmt::{Display, Formatter};
use std::sync::atomic::{AtomicBool, AtomicU64, Ordering};
use std::time::Duration;

/// How many seconds lie between two lines, at least.
const PERIOD: u64 = 2;

/// A line of JSON that tells how far planning has come.
#[derive(Drop)]
struct JsonLine<'a> {
    seconds: u64,
    progress: &'a Progress,
    known: &'a Known,
}

impl<'a> Display for JsonLine<'a> {
    fn fmt<W: fmt::Write>(&self, f: &mut Formatter<W>) -> fmt::Result {
        let told = &self.progress.told;
        let deadline = told.deadline.load(Ordering::SeqCst);
        write!(
            f,
            "{{\"seconds\":{},\"deadline\":{deadline},\"floors\":[",
            self.seconds
        )?;
        let resources = told.resources.load(Ordering::SeqCst) as usize;
        for (k, floor) in told.floors.iter().take(resources).enumerate() {
            if k > 0 {
                write!(f, ",")?;
            }
            write!(f, "{}", floor.load(Ordering::SeqCst))?;
        }
        let cost = told.cost.load(Ordering::SeqCst);
        let (nodes, conflicts) = (self.progress.nodes(), self.progress.conflicts());
        let clauses = told.clauses.load(Ordering::SeqCst);
        let memory = told.memory.load(Ordering::SeqCst);
        write!(
            f,
            "],\"cost\":{cost},\"nodes\":{nodes},\"conflicts\":{conflicts},\"clauses\":{clauses},\"memory\":{memory},"
        )?;
        self.known.write_json(f)?;
        write!(f, "}}")
    }
}

/// What a person reads first: the time that has passed, and what is known of the plan.
#[derive(Drop)]
struct ShortLine<'a> {
    seconds: u64,
    known: &'a Known,
}

impl<'a> Display for ShortLine<'a> {
    fn fmt<W: fmt::Write>(&self, f: &mut Formatter<W>) -> fmt::Result {
        write!(f, "{}  ", PassedTime::of(self.seconds))?;
        self.known.write_short(f)
    }
}

/// All that is counted, in words.
#[derive(Drop)]
struct Counts<'a> {
    progress: &'a Progress,
}

impl<'a> Display for Counts<'a> {
    fn fmt<W: fmt::Write>(&self, f: &mut Formatter<W>) -> fmt::Result {
        let told = &self.progress.told;
        let (nodes, conflicts) = (self.progress.nodes(), self.progress.conflicts());
        let clauses = told.clauses.load(Ordering::SeqCst);
        let memory = told.memory.load(Ordering::SeqCst);
        write!(
            f,
            "{told} nodes {nodes} conflicts {conflicts} clauses {clauses} memory {memory}"
        )
    }
}

/// How it is told how far planning has come.
#[derive(Clone, Copy, PartialEq, Eq)]
pub(crate) enum Pace {
    /// Not at all; it is only counted.
    Silent,
    /// By the time that has passed, in a line in the place of the one before it, where several plans are made side by side.
    Time,
    /// In short lines, each in the place of the one before it, and no wider than the terminal.
    Short,
    /// In lines.
    Lines,
    /// In the same lines as `Short`, with all that is counted behind.
    InPlace,
    /// In lines of JSON.
    Json,
}

/// Counts the nodes of a search, is told how far planning has come, and tells both: every two seconds, if a node is
/// searched then.
#[derive(Drop)]
pub struct Progress {
    nodes: AtomicU64,
    due: AtomicU64,
    is_begun: AtomicBool,
    pace: Pace,
    told: Told,
}

impl Progress {
    /// No node is counted, nothing is told, and the first line is due after two seconds.
    ///
    /// # Errors
    ///
    /// Memory was refused.
    pub(crate) fn new(alloc: Global, pace: Pace) -> Result<Self, AllocError> {
        Ok(Progress {
            nodes: AtomicU64::new(0),
            due: AtomicU64::new(PERIOD),
            is_begun: AtomicBool::new(false),
            pace,
            told: Told::new(alloc)?,
        })
    }

    /// Counts a node that is searched, and says whether a line is due when so much time has passed. It is then this
    /// worker's to tell, and no other's.
    pub(crate) fn count(&self, passed: Duration) -> bool {
        let _ = self.nodes.fetch_add(1, Ordering::SeqCst);
        if self.pace == Pace::Silent {
            return false;
        }
        let seconds = passed.as_secs();
        let due = self.due.load(Ordering::SeqCst);
        due <= seconds && self.takes(due, seconds)
    }

    /// How many nodes are counted.
    pub(crate) fn nodes(&self) -> u64 {
        self.nodes.load(Ordering::SeqCst)
    }

    /// How many conflicts a search that learns has met.
    pub(crate) fn conflicts(&self) -> u64 {
        self.told.conflicts.load(Ordering::SeqCst)
    }

    /// Tells the line that was due when so much time had passed. If that cannot be written, nothing is told.
    pub(crate) fn tell<E: Eprint>(&self, errors: &E, passed: Duration, known: &Known) {
        let seconds = passed.as_secs();
        match self.pace {
            Pace::Silent => {}
            Pace::Json => {
                let _ = errors.eprintln(JsonLine {
                    seconds,
                    progress: self,
                    known,
                });
            }
            Pace::Lines => {
                let counts = Counts { progress: self };
                let _ = errors.eprintln(format_args!(
                    "progress seconds {seconds} {counts} {known}"
                ));
            }
            Pace::Time => {
                let place = self.place();
                let time = PassedTime::of(seconds);
                let _ = errors.eprintln(format_args!("{place}{CUT}{time}  making plans{UNCUT}"));
            }
            Pace::Short => {
                let place = self.place();
                let line = ShortLine { seconds, known };
                let _ = errors.eprintln(format_args!("{place}{CUT}{line}{UNCUT}"));
            }
            Pace::InPlace => {
                let place = self.place();
                let line = ShortLine { seconds, known };
                let counts = Counts { progress: self };
                let _ = errors.eprintln(format_args!("{place}{CUT}{line}  {counts}{UNCUT}"));
            }
        }
    }

    /// What is sent before a line that takes the place of the one above, if there is one.
    fn place(&self) -> &'static str {
        place(self.is_begun.swap(true, Ordering::SeqCst))
    }

    /// Whether the line that was due then is this worker's to tell, and no other's: the next is due two seconds later.
    fn takes(&self, due: u64, seconds: u64) -> bool {
        let next = seconds.saturating_add(PERIOD);
        self.due
            .compare_exchange(due, next, Ordering::SeqCst, Ordering::SeqCst)
            .is_ok()
    }
}

impl Progress {
    /// Notes that a plan for another deadline is made, of whose cost nothing is known.
    pub fn note_deadline(&self, deadline: u32) {
        self.told.deadline.store(deadline as u64, Ordering::SeqCst);
        self.told.cost.store(0, Ordering::SeqCst);
    }

    /// Notes the floors that planning has come to.
    pub fn note_floors(&self, floors: &[u32]) {
        for (told, floor) in self.told.floors.iter().zip(floors) {
            told.store(*floor as u64, Ordering::SeqCst);
        }
        let resources = floors.len() as u64;
        self.told.resources.store(resources, Ordering::SeqCst);
    }

    /// Notes what the plan costs at least.
    pub fn note_cost(&self, cost: u64) {
        let _ = self.told.cost.fetch_max(cost, Ordering::SeqCst);
    }

    /// Notes how far a search that learns has come.
    pub fn note_search(&self, conflicts: u64, clauses: u64) {
        self.told.conflicts.store(conflicts, Ordering::SeqCst);
        self.told.clauses.store(clauses, Ordering::SeqCst);
    }

    /// Notes how many mebibytes of memory are used.
    pub fn note_memory(&self, memory: u64) {
        self.told.memory.store(memory, Ordering::SeqCst);
    }
}
