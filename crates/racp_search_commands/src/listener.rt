//! Who hears how far planning has come.

use racp_cli::known_text;
use racp_found::{News, Observer};
use racp_host::best::{keep_told, tell_unkept};
use racp_host::known::Known;
use racp_host::memory::mebibytes_used;
use racp_host::progress::Progress;
use std::cell::Cell;
use std::rt::Files;

/// The plan that is being made, and where the best that is known is kept.
#[derive(Clone, Copy)]
pub(crate) struct Kept<'a> {
    /// The text of the network.
    pub(crate) net: &'a [u8],
    /// The text of the order.
    pub(crate) order: &'a [u8],
    /// The path of the file that keeps the best plan, if there is to be one.
    pub(crate) path: Option<&'a str>,
    /// Whether the best plan is kept in memory too.
    pub(crate) in_memory: bool,
}

/// The best plan that is known.
#[derive(Drop)]
pub(crate) struct Best {
    /// Its text; empty if none is known, or if it is not kept in memory.
    text: Cell<Vec<u8>>,
    /// Whether the last plan could not be kept in its file.
    has_failed: Cell<bool>,
}

impl Best {
    /// One with this text.
    pub(crate) fn of(text: Vec<u8>) -> Self {
        Best {
            text: Cell::new(text),
            has_failed: Cell::new(false),
        }
    }

    /// Its text.
    pub(crate) fn into_text(self) -> Vec<u8> {
        self.text.into_inner()
    }

    /// Tells at the end that the file of this path, if there is one, has not the best plan, if it could not be written.
    pub(crate) fn tell_end<R: Eprint + AllocGlobal>(&self, rt: &R, path: Option<&str>) {
        if let Some(path) = path {
            if self.has_failed.get() {
                tell_unkept(rt, path);
            }
        }
    }
}

/// Hears how far planning has come, and notes it; the best plan that is known for the longest deadline, that of the order,
/// it keeps in a file, if that is wanted.
#[derive(Drop)]
pub(crate) struct Listener<'a, 'b, 'k, R: Files + Eprint + AllocGlobal + Drop> {
    host: R,
    known: &'a Known,
    progress: Option<&'a Progress>,
    kept: Kept<'k>,
    best: &'b Best,
}

impl<'a, 'b, 'k, R: Files + Eprint + AllocGlobal + Drop> Listener<'a, 'b, 'k, R> {
    /// Notes it there, and keeps plans so, and there in memory.
    pub(crate) fn of(
        host: R,
        known: &'a Known,
        progress: Option<&'a Progress>,
        kept: Kept<'k>,
        best: &'b Best,
    ) -> Self {
        Listener {
            host,
            known,
            progress,
            kept,
            best,
        }
    }

    /// Keeps the text of a plan. Why its file cannot be written is told once, and again if it could be written meanwhile.
    fn keep_text(&self, text: Vec<u8>) {
        if let Some(path) = self.kept.path {
            let is_told = !self.best.has_failed.get();
            let is_kept = keep_told(&self.host, path, &text, is_told);
            self.best.has_failed.set(!is_kept);
        }
        if self.kept.in_memory {
            drop(self.best.text.replace(text));
        }
    }

    /// Notes the memory that is used.
    fn look(&self) {
        if let Some(progress) = self.progress {
            progress.note_memory(mebibytes_used(&self.host));
        }
    }

    /// Notes for which deadline a plan is looked for.
    fn note_deadline(&self, deadline: u32) {
        let is_other = self.known.note_deadline(deadline);
        if let Some(progress) = self.progress {
            if is_other {
                progress.note_deadline(deadline);
            }
        }
    }

    /// Notes what the plan costs at least.
    fn note_cost(&self, cost: u64) {
        self.known.note_bound(cost);
        if let Some(progress) = self.progress {
            progress.note_cost(cost);
        }
    }

    /// Notes a plan, and keeps its text, if that is wanted.
    fn note_plan(&self, capacities: &[u32], starts: &[u32], cost: u64) {
        if !self.known.note_plan(cost) || !self.known.is_for_longest() {
            return;
        }
        if self.kept.path.is_none() && !self.kept.in_memory {
            return;
        }
        let text = known_text(
            self.host.alloc(),
            self.kept.net,
            self.kept.order,
            capacities,
            starts,
        );
        if let Ok(Some(text)) = text {
            self.keep_text(text);
        }
    }
}

impl<'a, 'b, 'k, R: Files + Eprint + AllocGlobal + Drop> Observer for Listener<'a, 'b, 'k, R> {
    fn hear(&self, news: News<'_>) {
        match news {
            News::Deadline(deadline) => return self.note_deadline(deadline),
            News::Floors(floors) => {
                if let Some(progress) = self.progress {
                    progress.note_floors(floors.as_slice());
                }
            }
            News::Cost(cost) => self.note_cost(cost),
            News::Plan {
                capacities,
                starts,
                cost,
            } => return self.note_plan(capacities.as_slice(), starts.as_slice(), cost),
            News::Work { conflicts, clauses } => {
                if let Some(progress) = self.progress {
                    progress.note_search(conflicts, clauses);
                }
            }
        }
        self.look();
    }
}
