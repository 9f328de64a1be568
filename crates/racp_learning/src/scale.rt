//! Rows by value that stay short: values stand in groups.

use crate::rows::{place, stored};

/// A range with more values than may have a place each is split into groups: at most so many.
const MOST_GROUPS: usize = 256;

/// The values of a variable, in groups of equal width, a power of two. The groups stand in a row, from a first place on.
#[derive(Clone, Copy)]
pub(crate) struct Scale {
    base: i64,
    shift: u32,
    first: u32,
    count: u32,
}

impl Scale {
    /// The values from one to another, with a group for each if these are at most so many.
    pub(crate) fn new(from: i64, until: i64, most: usize, first: usize) -> Scale {
        let values = place(until.wrapping_sub(from));
        let shift = if values < most { 0 } else { shift_for(values) };
        Scale {
            base: from,
            shift,
            first: stored(first),
            count: stored((values >> shift.min(63)).wrapping_add(1)),
        }
    }

    /// Where the group of a value stands; the first or last one for a value beyond them.
    #[inline]
    pub(crate) fn at(&self, value: i64) -> usize {
        let within = place(value.wrapping_sub(self.base)) >> self.shift.min(63);
        let last = (self.count as usize).wrapping_sub(1);
        (self.first as usize).wrapping_add(within.min(last))
    }

    /// The least value of the group at a place.
    #[inline]
    pub(crate) fn value(&self, at: usize) -> i64 {
        let within = i64::from(stored(at).wrapping_sub(self.first));
        self.base.wrapping_add(within.wrapping_shl(self.shift))
    }

    /// Where the first group stands.
    pub(crate) fn first(&self) -> usize {
        self.first as usize
    }

    /// The place behind the last group.
    pub(crate) fn end(&self) -> usize {
        (self.first as usize).wrapping_add(self.count as usize)
    }
}

/// How wide groups have to be that there are few of them, as a power of two.
fn shift_for(values: usize) -> u32 {
    for shift in 0..63u32 {
        if values >> shift < MOST_GROUPS {
            return shift;
        }
    }
    63
}
