//! Who hears of the rows of a table: keeps their plans, and knows whether the user wants a stop.

use racp_batch::{Case, Host, Row};
use racp_host::asks::Asks;
use racp_host::bar::Bar;
use racp_host::best::keep;
use racp_plan::{Plan, write_plan};
use racp_whatif::Outcome;
use std::alloc::{AllocError, Global};
use std::cell::Cell;
use std::rt::Files;
use std::time::Clock;

/// What the name of a network's file ends with, and that of a plan's.
const NETWORK: &str = ".sm";

const PLAN: &str = ".plan";

/// What a row or its plan lacked.
#[derive(Clone, Copy)]
pub(crate) enum Lack {
    /// Memory was refused.
    Memory,
    /// No thread could be started.
    Thread,
    /// The file of a plan could not be written.
    Write,
}

/// Keeps the plans of rows in a folder, if that is wanted, hears whether the user wants a stop, shows how many rows are done, and
/// notes what a row or a plan lacked.
#[derive(Drop)]
pub(crate) struct Keeping<'a, R: Clock + Files + Eprint + AllocGlobal + Drop> {
    host: R,
    folder: Option<&'a str>,
    asks: Option<Asks>,
    bar: Option<Bar>,
    lack: Cell<Option<Lack>>,
}

impl<'a, R: Clock + Files + Eprint + AllocGlobal + Drop> Keeping<'a, R> {
    /// Keeps plans in the folder with this path, if there is one, hears the user so, or does not, and shows there how many rows
    /// are done, or nowhere.
    pub(crate) fn of(
        host: R,
        folder: Option<&'a str>,
        asks: Option<Asks>,
        bar: Option<Bar>,
    ) -> Self {
        Keeping {
            host,
            folder,
            asks,
            bar,
            lack: Cell::new(None),
        }
    }

    /// What the first row lacked of those that lacked something.
    pub(crate) fn lack(&self) -> Option<Lack> {
        self.lack.get()
    }

    /// Notes that a row lacked this.
    fn note(&self, lack: Lack) {
        if self.lack.get().is_none() {
            self.lack.set(Some(lack));
        }
    }

    /// Keeps the plan of a case in the folder.
    fn keep_plan(&self, folder: &str, case: &Case<'_>, plan: &Plan) {
        let alloc = self.host.alloc();
        match (path_of(alloc, folder, case), write_plan(alloc, plan)) {
            (Ok(path), Ok(text)) => {
                if !keep(&self.host, &path, &text) {
                    self.leave_bar();
                    self.note(Lack::Write);
                }
            }
            _ => self.note(Lack::Memory),
        }
    }

    /// Leaves the last line of the bar where it is.
    fn leave_bar(&self) {
        if let Some(bar) = &self.bar {
            bar.leave();
        }
    }

    /// Shows how many rows are done, if that is due.
    fn look(&self) {
        if let Some(bar) = &self.bar {
            bar.look(&self.host);
        }
    }

    /// Counts a row for the bar.
    fn step(&self) {
        if let Some(bar) = &self.bar {
            bar.step();
        }
    }
}

impl<'a, R: Clock + Files + Eprint + AllocGlobal + Drop> Host for Keeping<'a, R> {
    ghost use Rattle.std.specs.Prelude.{is_none};

    ghost is_quiet = { λ keeping. is_none keeping.asks };

    fn hear(&self, case: &Case<'_>, row: &Row) {
        self.step();
        match row {
            Row::Answered(answered) => {
                if let (Some(folder), Outcome::Plan(plan)) = (self.folder, &answered.outcome) {
                    self.keep_plan(folder, case, plan);
                }
            }
            Row::Memory => self.note(Lack::Memory),
            Row::NoThread => self.note(Lack::Thread),
            Row::Late { .. } => {}
            Row::Refused => {}
        }
    }

    fn is_asked(&self) -> bool {
        self.look();
        match &self.asks {
            Some(asks) => asks.are_made(&self.host),
            None => false,
        }
    }
}

/// The path of the plan of a case in a folder.
fn path_of(alloc: Global, folder: &str, case: &Case<'_>) -> Result<String, AllocError> {
    let name = name_of(case.file.name);
    let factor = case.multiple.word;
    format!(in alloc; "{folder}/{name}-{factor}{PLAN}")
}

/// The name of a file without its folder, and without what the name of a network ends with.
pub(crate) fn name_of(path: &str) -> &str {
    let name = match path.rsplit_once('/') {
        Some((_, name)) => name,
        None => path,
    };
    name.strip_suffix(NETWORK).unwrap_or(name)
}
