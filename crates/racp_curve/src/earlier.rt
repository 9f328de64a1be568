//! Whether capacities are enough for an earlier deadline.

/// What is known of whether capacities are enough for a deadline.
#[derive(Clone, Copy)]
pub(crate) enum Earlier {
    /// They are enough for this one, which is that deadline or an earlier one.
    Enough(u32),
    /// They are not enough.
    NotEnough,
    /// Neither is known.
    Unknown,
}
