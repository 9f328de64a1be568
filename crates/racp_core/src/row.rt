//! A question that was asked, with its open windows and the pieces of it that are out.

ghost use Rattle.std.specs.Prelude.{◌≡◌, ◌↔◌, ◌+◌, ◌<◌, ◌≤◌, [], ◌∷◌, ◌++◌, None, length, vec_capacity, slice_index_or, if◌then◌else◌, IsTrue, IfOk, IfErr, OnOk, OnErr, IfSome, IfNone, Contains};
ghost use Rattle.racp_search.specs.Truth.{rest_windows};
ghost use Rattle.racp_core.specs.Machine.{IsDone};
ghost use Rattle.racp_core.specs.Steps.{IsBack, out_of, shut, listed};
ghost use Rattle.racp_core.specs.Rows.{IsCut, IsPlace, no_out};

use racp_model::{Capacities, OfNetwork, Question, Window};
use racp_search::{Collector, Finding, Piece, Rest};
use std::alloc::{AllocError, Global};
use std::marker::Model;

/// A piece that is out: its number, the seat of the worker that took it, and its window.
#[derive(Drop)]
struct Out {
    number: u64,
    seat: usize,
    window: Window,
}

impl Model for Out {
    ghost use Rattle.racp_core.specs.Machine.{PieceOut};

    ghost Value = { PieceOut };

    ghost view = { λ o. record { number = o.number; seat = o.seat; window = o.window } };
}

impl Out {
    /// Whether it is this piece.
    fn is<N: OfNetwork>(&self, piece: &Piece<N>) -> bool
        ensures { IsTrue result ↔ (self.now ≡ out_of piece.now) }
    {
        self.number == piece.number()
            && self.seat == piece.seat()
            && is_same(&self.window, &piece.question().window)
    }
}

/// Whether two windows are one.
fn is_same(a: &Window, b: &Window) -> bool
    ensures { IsTrue result ↔ (a.now ≡ b.now) }
{
    a.lower() == b.lower() && a.upper() == b.upper()
}

/// A question that was asked. Each piece of it that is out can come back whole without memory.
#[derive(Drop)]
pub(crate) struct Row {
    question: Question,
    ready: Vec<Window>,
    out: Vec<Out>,
}

impl Model for Row {
    ghost use Rattle.std.specs.Prelude.{◌+◌, ◌≤◌, length, vec_capacity};
    ghost use Rattle.racp_core.specs.Machine.{QuestionRow};

    ghost Value = { QuestionRow };

    ghost view = { λ r. record { question = r.question; ready = r.ready.items; out = r.out.items } };

    ghost invariant = { λ r. length r.ready.items + length r.out.items ≤ vec_capacity r.ready };
}

impl Collector for Row {}

impl Row {
    /// A question of which these windows are open.
    pub(crate) fn new(alloc: Global, question: Question, ready: Vec<Window>) -> Self
        ensures { result ≡ record { question = question; ready = ready.items; out = [] } }
    {
        Row {
            question,
            ready,
            out: Vec::new(alloc),
        }
    }

    /// The question.
    pub(crate) fn question(&self) -> &Question
        ensures { result.now ≡ self.now.question }
    {
        &self.question
    }

    /// Whether a window is open.
    pub(crate) fn has_open(&self) -> bool
        ensures { IsTrue result ↔ (0 < length self.now.ready) }
    {
        !self.ready.is_empty()
    }

    /// Whether nothing is open or out.
    pub(crate) fn is_done(&self) -> bool
        ensures { IsTrue result ↔ (length self.now.ready + length self.now.out ≡ 0) }
    {
        self.ready.is_empty() && self.out.is_empty()
    }

    /// Takes an open window out, as a piece of this number, seat and place. Makes the room that it needs to come back.
    pub(crate) fn take<N: OfNetwork>(
        &mut self,
        number: u64,
        seat: usize,
        index: usize,
    ) -> Result<Piece<N>, AllocError>
        requires { 0 < length self.old.ready }
        ensures ok { IfOk result (λ piece. IsCut number seat index self.old piece self.new) }
        ensures err { IfErr result (λ _. self.new ≡ self.old) }
    {
        self.out.reserve(1)?;
        let capacities = self.question.capacities.copy()?;
        let copy = self.ready[self.ready.len() - 1].copy()?;
        let window = self.ready.take_last();
        self.out.push_reserved(Out {
            number,
            seat,
            window,
        });
        let question = Question {
            capacities,
            window: copy,
        };
        Ok(Piece::new(number, seat, index as u64, question))
    }

    /// Where the piece stands among those that are out.
    pub(crate) fn place_of<N: OfNetwork>(&self, piece: &Piece<N>) -> Option<usize>
        ensures some { IfSome result (IsPlace self.now piece.now) }
        ensures none { IfNone result (piece.now.question.capacities ≡ self.now.question.capacities →
            Contains self.now.out (out_of piece.now) → ⊥) }
    {
        if piece.question().capacities.as_slice() != self.question.capacities.as_slice() {
            return None;
        }
        for at in 0..self.out.len() {
            let out = &self.out[at];
            if out.is(piece) {
                return Some(at);
            }
        }
        None
    }

    /// The piece at this place is in, and what the finding leaves is open in its place, if windows may open.
    ///
    /// # Errors
    ///
    /// Memory was refused, for windows that are left; the finding comes back.
    pub(crate) fn put<N: OfNetwork>(
        &mut self,
        at: usize,
        finding: Finding<N>,
        opens: bool,
    ) -> Result<(), (Finding<N>, AllocError)>
        requires { at < length self.old.out }
        ensures ok { IfOk result (λ _. IsBack (slice_index_or self.old.out at no_out)
            (if opens then rest_windows finding.piece.question.window finding.rest else []) self.old self.new) }
        ensures err { IfErr result (λ e. (self.new ≡ self.old) × (e.0 ≡ finding) × (0 < listed finding.rest)) }
    {
        if !opens {
            // Dropped here once, not at each way out.
            drop(finding.into_found());
            self.close(at);
            return Ok(());
        }
        if let Err(error) = make_room(&mut self.ready, &self.out, finding.rest()) {
            return Err((finding, error));
        }
        let (piece, rest, _found) = finding.into_parts();
        let question = piece.into_question::<Row>();
        drop(self.out.swap_remove(at));
        open_rest(&mut self.ready, question.window, rest);
        Ok(())
    }

    /// The piece at this place is in, and this window is open in its place, if windows may open.
    pub(crate) fn put_whole(&mut self, at: usize, window: Window, opens: bool)
        requires { at < length self.old.out }
        ensures { IsBack (slice_index_or self.old.out at no_out) (if opens then window ∷ [] else []) self.old self.new }
    {
        if !opens {
            self.close(at);
            return;
        }
        drop(self.out.swap_remove(at));
        self.ready.push_reserved(window);
    }

    /// The piece at this place is in, and nothing is open in its place.
    pub(crate) fn close(&mut self, at: usize)
        requires { at < length self.old.out }
        ensures { IsBack (slice_index_or self.old.out at no_out) [] self.old self.new }
    {
        drop(self.out.swap_remove(at));
    }

    /// Discards the open windows.
    pub(crate) fn shut(&mut self)
        ensures { self.new ≡ shut self.old }
    {
        self.ready.clear();
    }

    /// The capacities of the question.
    pub(crate) fn into_capacities(self) -> Capacities
        ensures { result ≡ self.question.capacities }
    {
        self.question.capacities
    }
}

/// Makes room for a piece that comes back with this rest.
fn make_room(ready: &mut Vec<Window>, out: &Vec<Out>, rest: &Rest) -> Result<(), AllocError>
    requires { length ready.old.items + length out.now.items ≤ vec_capacity ready.old }
    ensures items { ready.new.items ≡ ready.old.items }
    ensures room { length ready.new.items + length out.now.items ≤ vec_capacity ready.new }
    ensures ok { OnOk result
        (length ready.new.items + listed rest.now + length out.now.items ≤ vec_capacity ready.new) }
    ensures err { OnErr result (0 < listed rest.now) }
{
    match rest {
        Rest::Whole => Ok(()),
        Rest::Windows(windows) => {
            if windows.is_empty() {
                return Ok(());
            }
            ready.reserve(windows.len() + out.len())
        }
    }
}

/// Puts what is left of a window after the open ones, for which there is room.
fn open_rest(ready: &mut Vec<Window>, window: Window, rest: Rest)
    requires { length ready.old.items + listed rest < vec_capacity ready.old }
    ensures items { ready.new.items ≡ ready.old.items ++ rest_windows window rest }
    ensures length { length ready.new.items ≤ length ready.old.items + listed rest + 1 }
    ensures room { vec_capacity ready.old ≤ vec_capacity ready.new }
{
    match rest {
        Rest::Whole => ready.push_reserved(window),
        Rest::Windows(windows) => {
            let mut windows = windows;
            let fits = ready.append(&mut windows).is_ok();
            prove!(fits);
        }
    }
}
