//! Rows that are read and written at any place: beyond the end there is 0, and nothing is written.

/// The value at a place.
#[inline]
pub(crate) fn value_at(row: &[i64], i: usize) -> i64 {
    if i < row.len() { row[i] } else { 0 }
}

/// Writes a value at a place.
#[inline]
pub(crate) fn set_value(row: &mut [i64], i: usize, value: i64) {
    if i < row.len() {
        row[i] = value;
    }
}

/// The number at a place.
#[inline]
pub(crate) fn number_at(row: &[u32], i: usize) -> u32 {
    if i < row.len() { row[i] } else { 0 }
}

/// Writes a number at a place.
#[inline]
pub(crate) fn set_number(row: &mut [u32], i: usize, number: u32) {
    if i < row.len() {
        row[i] = number;
    }
}

/// A place as it is stored; the greatest number where it is too great.
#[inline]
pub(crate) fn stored(i: usize) -> u32 {
    u32::try_from(i).unwrap_or(u32::MAX)
}

/// A value as a place; 0 where it is none.
#[inline]
pub(crate) fn place(value: i64) -> usize {
    usize::try_from(value).unwrap_or(0)
}

/// A value as it is stored; 0 where it is too great or below 0.
#[inline]
pub(crate) fn short(value: i64) -> u32 {
    u32::try_from(value).unwrap_or(0)
}

/// A stored number as a value.
#[inline]
pub(crate) fn value_of(number: u32) -> i64 {
    i64::from(number)
}

/// Writes a row over another one of the same length.
pub(crate) fn copy_values(row: &mut [i64], other: &[i64]) {
    if row.len() == other.len() {
        row.copy_from_slice(other);
    }
}

/// Writes a row over another one of the same length.
pub(crate) fn copy_numbers(row: &mut [u32], other: &[u32]) {
    if row.len() == other.len() {
        row.copy_from_slice(other);
    }
}
