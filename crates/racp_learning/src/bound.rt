//! Bounds on the sides of variables, and why each was put.

/// A bound on a side of a variable: side 2 x is the lower bound of the variable at place x, side 2 x + 1 its negated upper
/// bound. Each side only grows. A bound says that the side is at least a value; it is a literal of a clause.
#[derive(Clone, Copy)]
pub(crate) struct Bound {
    pub(crate) side: u32,
    pub(crate) value: i64,
}

impl Bound {
    /// The variable is at least so much.
    #[inline]
    pub(crate) fn at_least(x: usize, value: i64) -> Bound {
        Bound {
            side: lower_side(x),
            value,
        }
    }

    /// The variable is at most so much.
    #[inline]
    pub(crate) fn at_most(x: usize, value: i64) -> Bound {
        Bound {
            side: upper_side(x),
            value: value.wrapping_neg(),
        }
    }

    /// What is true where this bound is not.
    #[inline]
    pub(crate) fn negated(self) -> Bound {
        Bound {
            side: self.side ^ 1,
            value: 1i64.wrapping_sub(self.value),
        }
    }

    /// The place of the variable.
    #[inline]
    pub(crate) fn variable(self) -> usize {
        self.side as usize / 2
    }

    /// Whether it is one from below.
    #[inline]
    pub(crate) fn is_lower(self) -> bool {
        self.side & 1 == 0
    }

    /// The least value of the variable with which it is true, if it is one from below, or else with which it is false.
    #[inline]
    pub(crate) fn threshold(self) -> i64 {
        if self.is_lower() {
            self.value
        } else {
            1i64.wrapping_sub(self.value)
        }
    }
}

/// The lower side of the variable at a place.
#[inline]
pub(crate) fn lower_side(x: usize) -> u32 {
    u32::try_from(x).unwrap_or(0).wrapping_mul(2)
}

/// The upper side of the variable at a place.
#[inline]
pub(crate) fn upper_side(x: usize) -> u32 {
    lower_side(x) | 1
}

/// Why a bound was put.
#[derive(Clone, Copy)]
pub(crate) enum Why {
    /// It was assumed, or tried.
    Decision,
    /// By the pair at a place of the precedence relation.
    Arc(u32),
    /// The core usage leaves no room for the job at some times. A lower bound goes behind these times: this is the first of
    /// them. An upper bound goes before them: this is the first time behind them.
    Usage(u32),
    /// The units of a resource are at least the core usage at a time.
    Peak(u32),
    /// The units of a resource are at least what the work at some times takes: from one to before another.
    Energy(u32, u32),
    /// By prices.
    Cost,
    /// By the clause of a number.
    Clause(u32),
}

/// The literal at a place.
#[inline]
pub(crate) fn literal_at(row: &[Bound], i: usize) -> Bound {
    if i < row.len() {
        row[i]
    } else {
        Bound { side: 0, value: 0 }
    }
}

/// Writes a literal at a place.
#[inline]
pub(crate) fn set_literal(row: &mut [Bound], i: usize, literal: Bound) {
    if i < row.len() {
        row[i] = literal;
    }
}
