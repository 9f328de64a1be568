//! Units of four resources at a time.

/// The units of four resources.
#[derive(Clone, Copy)]
pub(crate) struct Lanes {
    pub(crate) lanes: [u32; 4],
}

impl Lanes {
    /// No units.
    #[inline]
    pub(crate) fn none() -> Lanes {
        Lanes { lanes: [0; 4] }
    }

    /// The units of a resource, by its place among these four or among all.
    #[inline]
    pub(crate) fn of(self, k: usize) -> u32 {
        self.lanes[k % 4]
    }

    /// The sum.
    #[inline]
    pub(crate) fn with(self, other: Lanes) -> Lanes {
        let mut lanes = [0u32; 4];
        for k in 0..4usize {
            lanes[k] = self.lanes[k].wrapping_add(other.lanes[k]);
        }
        Lanes { lanes }
    }

    /// The difference.
    #[inline]
    pub(crate) fn without(self, other: Lanes) -> Lanes {
        let mut lanes = [0u32; 4];
        for k in 0..4usize {
            lanes[k] = self.lanes[k].wrapping_sub(other.lanes[k]);
        }
        Lanes { lanes }
    }

    /// The greater ones.
    #[inline]
    pub(crate) fn most(self, other: Lanes) -> Lanes {
        let mut lanes = [0u32; 4];
        for k in 0..4usize {
            lanes[k] = self.lanes[k].max(other.lanes[k]);
        }
        Lanes { lanes }
    }

    /// Whether none is above the other.
    #[inline]
    pub(crate) fn are_within(self, units: Lanes) -> bool {
        let mut within = true;
        for k in 0..4usize {
            within &= self.lanes[k] <= units.lanes[k];
        }
        within
    }

    /// Whether there is any unit.
    pub(crate) fn are_some(self) -> bool {
        !self.are_within(Lanes::none())
    }
}

/// The units at a place, none beyond the end.
#[inline]
pub(crate) fn lanes_at(row: &[Lanes], i: usize) -> Lanes {
    if i < row.len() { row[i] } else { Lanes::none() }
}

/// Writes units at a place.
#[inline]
pub(crate) fn set_lanes(row: &mut [Lanes], i: usize, lanes: Lanes) {
    if i < row.len() {
        row[i] = lanes;
    }
}

/// Writes the units of a resource, by its place among all.
#[inline]
pub(crate) fn set_units(row: &mut [Lanes], k: usize, units: i64) {
    let mut lanes = lanes_at(row, k / 4);
    lanes.lanes[k % 4] = u32::try_from(units).unwrap_or(0);
    set_lanes(row, k / 4, lanes);
}
