//! What may be tried.

/// A threshold of a variable, its score, and of a job that is put off at a time when it starts and how much later it may.
#[derive(Clone, Copy)]
pub(crate) struct Candidate {
    pub(crate) variable: usize,
    pub(crate) threshold: i64,
    pub(crate) score: f64,
    pub(crate) time: i64,
    pub(crate) start: i64,
    pub(crate) slack: i64,
}

impl Candidate {
    /// None yet: each other one is better.
    pub(crate) fn none() -> Candidate {
        Candidate::of(usize::MAX, 0, -1.0)
    }

    /// A threshold of a variable with a score.
    #[inline]
    pub(crate) fn of(variable: usize, threshold: i64, score: f64) -> Candidate {
        Candidate {
            variable,
            threshold,
            score,
            time: -1,
            start: 0,
            slack: 0,
        }
    }

    /// Whether there is one.
    pub(crate) fn is_some(&self) -> bool {
        self.variable != usize::MAX
    }

    /// Whether it is better than another: by its score; and of jobs at one time the one that starts last, so that those that
    /// run stay, and of these the one with most slack.
    #[inline]
    pub(crate) fn is_better(&self, other: &Candidate) -> bool {
        if self.score != other.score || self.time != other.time {
            return other.score < self.score;
        }
        other.start < self.start || other.start == self.start && other.slack < self.slack
    }
}
