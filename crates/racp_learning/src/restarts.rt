//! When a search begins anew.

/// So many conflicts are a unit of time.
const UNIT: u64 = 100;

/// When to begin anew: after 100 times 1, 1, 2, 1, 1, 2, 4, .. conflicts (Luby, Sinclair and Zuckerman 1993; the
/// recurrence is Knuth's).
#[derive(Drop)]
pub(crate) struct Restarts {
    round: u64,
    length: u64,
    left: u64,
}

impl Restarts {
    pub(crate) fn new() -> Restarts {
        Restarts {
            round: 1,
            length: 1,
            left: UNIT,
        }
    }

    /// Counts a conflict.
    pub(crate) fn count(&mut self) {
        self.left = self.left.saturating_sub(1);
    }

    /// Whether it is time.
    pub(crate) fn is_due(&self) -> bool {
        self.left == 0
    }

    /// Begins the next round.
    pub(crate) fn begin(&mut self) {
        if self.round & self.round.wrapping_neg() == self.length {
            self.round = self.round.wrapping_add(1);
            self.length = 1;
        } else {
            self.length = self.length.wrapping_mul(2);
        }
        self.left = self.length.wrapping_mul(UNIT);
    }
}
