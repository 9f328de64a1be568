ghost use Rattle.std.specs.Prelude.{◌≡◌, IfOk, IfErr, option_copied, true};
ghost use Rattle.racp_model.specs.Formed.{HasBounds};
ghost use Rattle.racp_search.specs.Truth.{IsFoundOrLeft, IsTrueFinding};
ghost use Rattle.racp_search.specs.Ends.{finding_after, short_of, untouched};

use crate::ended::Ended;
use crate::piece::Piece;
use racp_model::{OfNetwork, Starts, Window};
use std::alloc::AllocError;
use std::marker::{Model, PhantomData};

/// The windows in which a search has still to look.
#[derive(Drop)]
pub enum Rest {
    /// The window of the piece itself.
    Whole,
    /// These windows.
    Windows(Vec<Window>),
}

/// What a search of a piece found, of the network that `N` names. It is true: either the found starts answer the
/// piece's question and nothing is left to be searched, or nothing is found, and whatever answers lies in a window of
/// the rest. Contracts see a `SearchFinding`.
pub struct Finding<N: OfNetwork> {
    piece: Piece<N>,
    rest: Rest,
    found: Option<Starts>,
    nodes: u64,
    stopped: bool,
    short: bool,
    of: PhantomData<N>,
}

impl<N: OfNetwork> Model for Finding<N> {
    ghost use Rattle.racp_search.specs.Truth.{SearchFinding, IsFoundOrLeft, rest_windows};

    ghost Value = { SearchFinding };

    ghost view = { λ f. record {
      piece = f.piece;
      rest = f.rest;
      found = f.found;
      nodes = f.nodes;
      stopped = f.stopped;
      short = f.short;
    } };

    ghost invariant = { λ f. IsFoundOrLeft N.network f.piece.question.capacities f.piece.question.window f.found
        (rest_windows f.piece.question.window f.rest) };
}

impl<N: OfNetwork> Finding<N> {
    /// What a search of a piece found and left, after so many nodes; or the whole window of the piece, where memory was
    /// refused. Takes no memory.
    pub(crate) fn after(piece: Piece<N>, end: Result<Ended, AllocError>, nodes: u64) -> Self
        requires is_true { IfOk end (λ ended.
            IsFoundOrLeft N.network piece.question.capacities piece.question.window ended.found ended.rest.items) }
        requires bounds { HasBounds N.network piece.question.window }
        ensures ok { IfOk end (λ ended. result ≡ finding_after piece ended nodes) }
        ensures err { IfErr end (λ _. result ≡ short_of piece nodes) }
    {
        match end {
            Ok(ended) => Finding {
                piece,
                rest: Rest::Windows(ended.rest),
                found: ended.found,
                nodes,
                stopped: ended.stopped,
                short: false,
                of: PhantomData,
            },
            Err(_) => Finding::short_of(piece, nodes),
        }
    }

    /// Nothing found, and the whole window of the piece left, since it may search no node. Takes no memory.
    pub(crate) fn whole(piece: Piece<N>) -> Self
        requires { HasBounds N.network piece.question.window }
        ensures { result ≡ untouched piece }
    {
        Finding {
            piece,
            rest: Rest::Whole,
            found: None,
            nodes: 0,
            stopped: false,
            short: false,
            of: PhantomData,
        }
    }

    /// Nothing found after so many nodes, and the whole window of the piece left, since memory was refused. Takes no memory.
    pub(crate) fn short_of(piece: Piece<N>, nodes: u64) -> Self
        requires { HasBounds N.network piece.question.window }
        ensures { result ≡ short_of piece nodes }
    {
        Finding {
            piece,
            rest: Rest::Whole,
            found: None,
            nodes,
            stopped: false,
            short: true,
            of: PhantomData,
        }
    }

    /// The piece that was searched.
    pub fn piece(&self) -> &Piece<N>
        ensures piece { result.now ≡ self.now.piece }
        ensures is_true { IsTrueFinding N.network self.now }
    {
        &self.piece
    }

    /// The windows in which is still to be looked.
    pub fn rest(&self) -> &Rest
        ensures rest { result.now ≡ self.now.rest }
        ensures is_true { IsTrueFinding N.network self.now }
    {
        &self.rest
    }

    /// The starts that answer the piece's question, if such were found.
    pub fn found(&self) -> Option<&Starts>
        ensures { option_copied result ≡ self.now.found }
    {
        self.found.as_ref()
    }

    /// How many nodes were searched: windows that were looked at, also those that are refuted at once. Stays at the greatest
    /// `u64` once there.
    pub fn nodes(&self) -> u64
        ensures { result ≡ self.now.nodes }
    {
        self.nodes
    }

    /// Whether the search was stopped.
    pub fn stopped(&self) -> bool
        ensures { result ≡ self.now.stopped }
    {
        self.stopped
    }

    /// Whether memory was refused to the search.
    pub fn short(&self) -> bool
        ensures { result ≡ self.now.short }
    {
        self.short
    }

    /// Gives the piece back. Takes no memory.
    pub fn into_piece(self) -> Piece<N>
        ensures { result ≡ self.piece }
    {
        let (piece, _rest, _found) = self.into_parts();
        piece
    }

    /// Spends the piece, and answers what was found. Takes no memory.
    pub fn into_found(self) -> Option<Starts>
        ensures found { result ≡ self.found }
        ensures is_true { IsTrueFinding N.network self }
    {
        let (piece, _rest, found) = self.into_parts();
        let _ = piece.question_of();
        found
    }

    /// Gives the piece back, with what was left of it and what was found. Takes no memory.
    pub fn into_parts(self) -> (Piece<N>, Rest, Option<Starts>)
        ensures piece { result.0 ≡ self.piece }
        ensures rest { result.1 ≡ self.rest }
        ensures found { result.2 ≡ self.found }
        ensures is_true { IsTrueFinding N.network self }
    {
        let Finding {
            piece,
            rest,
            found,
            nodes: _,
            stopped: _,
            short: _,
            of: _,
        } = self;
        (piece, rest, found)
    }
}
