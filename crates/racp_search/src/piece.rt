ghost use Rattle.std.specs.Prelude.{◌≡◌};

use racp_model::{OfNetwork, Question};
use std::marker::{Model, PhantomData};

/// Takes back pieces that were handed out. Whoever takes a piece apart has to be named as one, so that no worker loses
/// a piece by an oversight.
pub trait Collector {}

/// A piece of work: a question to be searched about the network that `N` names, the number that it was given, from 0,
/// the seat of the worker that took it, from 0, and the place, from 0, of the question to which it belongs in the
/// series of questions. It cannot be dropped, so that no part of a question is lost: `explore` makes it a finding, and
/// a collector takes it back. Contracts see a `SearchPiece`.
pub struct Piece<N: OfNetwork> {
    number: u64,
    seat: usize,
    index: u64,
    question: Question,
    of: PhantomData<N>,
}

impl<N: OfNetwork> Model for Piece<N> {
    ghost use Rattle.racp_search.specs.Truth.{SearchPiece};

    ghost Value = { SearchPiece };

    ghost view = { λ p. record { number = p.number; seat = p.seat; index = p.index; question = p.question } };
}

impl<N: OfNetwork> Piece<N> {
    /// The piece of this number, seat, place in the series and question. Takes no memory.
    pub fn new(number: u64, seat: usize, index: u64, question: Question) -> Self
        ensures { result ≡ record { number = number; seat = seat; index = index; question = question } }
    {
        Piece {
            number,
            seat,
            index,
            question,
            of: PhantomData,
        }
    }

    /// The number of the piece, from 0.
    pub fn number(&self) -> u64
        ensures { result ≡ self.now.number }
    {
        self.number
    }

    /// The seat of the worker, from 0.
    pub fn seat(&self) -> usize
        ensures { result ≡ self.now.seat }
    {
        self.seat
    }

    /// The place, from 0, of the question in its series.
    pub fn index(&self) -> u64
        ensures { result ≡ self.now.index }
    {
        self.index
    }

    /// The question: some part of the question of the series.
    pub fn question(&self) -> &Question
        ensures { result.now ≡ self.now.question }
    {
        &self.question
    }

    /// Spends the piece in the hands of a collector, and gives its question back. Takes no memory.
    pub fn into_question<C: Collector>(self) -> Question
        ensures { result ≡ self.question }
    {
        self.question_of()
    }

    /// The question alone.
    pub(crate) fn question_of(self) -> Question
        ensures { result ≡ self.question }
    {
        let Piece {
            number: _,
            seat: _,
            index: _,
            question,
            of: _,
        } = self;
        question
    }
}
