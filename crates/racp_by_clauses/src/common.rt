//! What searches for one optimum have in common.

ghost use Rattle.std.proofs.Props.{props};
ghost use Rattle.racp_by_clauses.specs.Optima.{AreTasksOf, IsTaskOf};

use crate::from_below::copy_of_clause;
use crate::limits::Limits;
use crate::task::{Task, Tasks};
use racp_clauses::{Clause, OfProblem};
use racp_drafts::Draft;
use racp_learning::Search;
use racp_model::Starts;
use std::alloc::{AllocError, Global};
use std::sync::atomic::{AtomicBool, AtomicU64, Ordering};
use std::sync::{Mutex, Wait};

/// What a clause takes on the board beside its literals, and what a literal takes: about.
const CLAUSE_BYTES: u64 = 64;

const LITERAL_BYTES: u64 = 16;

/// A clause, and which search has learned it.
#[derive(Drop)]
struct Note<N: OfProblem> {
    seat: usize,
    clause: Clause<N>,
}

/// What searches for one optimum have in common: what they look for, short clauses, the best draft, and whether one of them
/// has finished.
#[derive(Drop)]
pub(crate) struct Common<'a, N: OfProblem> {
    pub(crate) task: Task<'a>,
    pub(crate) limits: Limits,
    board: boxcar::Vec<Note<N>>,
    /// About how many bytes the clauses of the board take, and may take.
    bytes: AtomicU64,
    most_bytes: u64,
    best: Mutex<Option<Draft>>,
    is_done: AtomicBool,
    ghost is_of: { IsTaskOf N.problem task } by { Prim.hlevel props },
}

impl<'a, N: OfProblem> Common<'a, N> {
    /// Nothing yet. The clauses of the board take at most so many bytes, about.
    pub(crate) fn new(task: Task<'a>, limits: Limits, most_bytes: u64) -> Result<Self, AllocError>
        requires { IsTaskOf N.problem task }
    {
        let board = boxcar::Vec::new(task.alloc)?;
        Ok(Common {
            task,
            limits,
            board,
            bytes: AtomicU64::new(0),
            most_bytes,
            best: Mutex::new(None),
            is_done: AtomicBool::new(false),
        })
    }

    /// What is looked for: the order is its own part.
    pub(crate) fn tasks(&self) -> Tasks<'a>
        ensures { AreTasksOf N.problem N.problem result }
    {
        Tasks {
            whole: self.task,
            part: self.task,
        }
    }

    /// Whether one has finished, or all are to stop.
    pub(crate) fn is_done(&self) -> bool {
        self.is_done.load(Ordering::SeqCst)
    }

    /// Lets all stop.
    pub(crate) fn finish(&self) {
        self.is_done.store(true, Ordering::SeqCst);
    }

    /// Shows the others the short clauses that a search has learned.
    pub(crate) fn show<R: Wait>(&self, rt: &R, seat: usize, search: &mut Search<N>) {
        for clause in search.take_short() {
            self.show_clause(rt, Note { seat, clause });
        }
    }

    /// Shows the others a copy of a clause.
    pub(crate) fn show_copy<R: Wait>(
        &self,
        rt: &R,
        seat: usize,
        clause: &Clause<N>,
    ) -> Result<(), AllocError> {
        if let Some(clause) = copy_of_clause(self.task, clause)? {
            self.show_clause(rt, Note { seat, clause });
        }
        Ok(())
    }

    /// The clause at a place of the board.
    pub(crate) fn clause_at(&self, place: usize) -> Option<&Clause<N>> {
        self.board.get(place).map(|note| &note.clause)
    }

    /// Shows the others a clause, if there is room for it.
    fn show_clause<R: Wait>(&self, rt: &R, note: Note<N>) {
        let literals = note.clause.literals().len() as u64;
        let bytes = CLAUSE_BYTES.saturating_add(LITERAL_BYTES.saturating_mul(literals));
        let before = self.bytes.fetch_add(bytes, Ordering::SeqCst);
        if before < self.most_bytes {
            drop(self.board.push(rt, note));
        } else {
            self.bytes.fetch_sub(bytes, Ordering::SeqCst);
        }
    }

    /// Lets a search learn what others have shown from a place on, and gives the place up to which it did.
    pub(crate) fn read(
        &self,
        seat: usize,
        from: usize,
        search: &mut Search<N>,
    ) -> Result<usize, AllocError> {
        for place in from..self.board.count() {
            let Some(note) = self.board.get(place) else {
                return Ok(place);
            };
            if note.seat != seat {
                search.learn_from(self.task.net, self.task.order, &note.clause)?;
            }
        }
        Ok(self.board.count().max(from))
    }

    /// The better one of the best draft of all and one of a search, which all know from now on.
    pub(crate) fn better<R: Wait>(
        &self,
        rt: &R,
        mine: &Option<Draft>,
    ) -> Result<Option<Draft>, AllocError> {
        let mut best = self.best.lock(rt);
        exchanged(self.task.alloc, &mut *best, mine)
    }
}

/// The better one of the best draft of all and one of a search, if that is not its own; else its own is the best from now on.
fn exchanged(
    alloc: Global,
    best: &mut Option<Draft>,
    mine: &Option<Draft>,
) -> Result<Option<Draft>, AllocError> {
    let Some(draft) = mine else {
        return copy_of_some(alloc, best);
    };
    if is_better(best, draft) {
        return copy_of_some(alloc, best);
    }
    *best = Some(copy_of(alloc, draft)?);
    Ok(None)
}

/// Whether there is a draft, and it is less than another.
fn is_better(best: &Option<Draft>, draft: &Draft) -> bool {
    match best {
        Some(best) => is_less(best, draft),
        None => false,
    }
}

/// Whether a draft costs less than another, or as much with capacities or starts that come before.
fn is_less(one: &Draft, other: &Draft) -> bool {
    let (a, b) = (one.capacities.as_slice(), other.capacities.as_slice());
    one.cost < other.cost
        || one.cost == other.cost
            && (a < b || a == b && one.starts.as_slice() < other.starts.as_slice())
}

/// A copy of a draft, if there is one.
fn copy_of_some(alloc: Global, draft: &Option<Draft>) -> Result<Option<Draft>, AllocError> {
    match draft {
        Some(draft) => Ok(Some(copy_of(alloc, draft)?)),
        None => Ok(None),
    }
}

/// A copy of a draft.
fn copy_of(alloc: Global, draft: &Draft) -> Result<Draft, AllocError> {
    let starts = draft.starts.as_slice().to_vec(alloc)?;
    let capacities = draft.capacities.copy()?;
    Ok(Draft {
        starts: Starts::new(starts),
        capacities,
        cost: draft.cost,
    })
}
