//! What the calls of the collector answer.

use racp_model::Starts;

/// What asking answers.
#[derive(Drop)]
pub enum Asked {
    /// The question at this place of the series was asked.
    Question(usize),
    /// The series has ended.
    End,
    /// A yes is known, so that no later question matters.
    Enough,
    /// The collector was halted.
    Halted,
}

/// What taking a piece answers, where `P` are the pieces.
pub enum Reply<P> {
    /// A piece to be searched.
    Piece(P),
    /// No window is open now.
    Nothing,
    /// The answer is known.
    Done,
    /// The collector was halted.
    Halted,
}

/// What handing in a finding, or giving back a piece, answers.
#[derive(Drop)]
pub enum Merged {
    /// It was taken in.
    Taken,
    /// No piece of that number, seat, place and question is out; nothing has changed.
    Stale,
}

/// What is known of the series.
#[derive(Drop)]
pub enum Verdict<'a> {
    /// The question at this place is a yes, answered by these starts, and each question before it is infeasible.
    First {
        /// The place of the question.
        index: usize,
        /// Starts that answer it.
        starts: &'a Starts,
    },
    /// Each question of the series is infeasible.
    NoYes,
    /// Not known yet: each question before this place is infeasible.
    Pending {
        /// The place of the first asked question that is not decided, or the number of asked questions.
        first_open: usize,
    },
}

/// What was known of the series at the end.
#[derive(Drop)]
pub enum Outcome {
    /// The question at this place is a yes, answered by these starts, and each question before it is infeasible.
    First {
        /// The place of the question.
        index: usize,
        /// Starts that answer it.
        starts: Starts,
    },
    /// Each question of the series is infeasible.
    NoYes,
    /// Not known: each question before this place is infeasible.
    Open {
        /// The place of the first asked question that is not decided, or the number of asked questions.
        first_open: usize,
    },
}
