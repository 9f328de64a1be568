//! What a thread has read of the board.

use crate::board::Board;
use crate::index::{Entry, Index, Place};
use crate::nogood::Nogood;
use racp_model::OfNetwork;

/// How many places of the board, after those of the records that are still to be read, are looked at. A place stays
/// empty if the push to it was refused.
const EMPTY_PLACES: usize = 8;

/// How far the board has been read.
#[derive(Clone, Copy, Drop)]
pub(crate) struct Reading {
    /// The place from which to read the next time: after the last that had a record.
    next: usize,
    /// How many records were read.
    records: usize,
}

impl Reading {
    /// Nothing has been read.
    pub(crate) fn nothing() -> Self {
        Reading {
            next: 0,
            records: 0,
        }
    }
}

/// The entry of a record that stands at a place.
pub(crate) fn entry_of<N: OfNetwork>(nogood: &Nogood<N>, place: Place) -> Entry {
    Entry {
        place,
        outline: nogood.outline(),
    }
}

/// Enters the records of the board that were not read, and answers how far it has been read. Places that are empty are
/// read past if a record stands after them.
pub(crate) fn read_from<N: OfNetwork>(
    reading: Reading,
    index: &mut Index,
    board: &Board<N>,
) -> Reading {
    let mut read = reading;
    let unread = board.count().saturating_sub(read.records);
    if unread == 0 {
        return read;
    }
    let end = read
        .next
        .saturating_add(unread)
        .saturating_add(EMPTY_PLACES);
    for i in read.next..end {
        if let Some(nogood) = board.record(i) {
            index.forget_written(board, nogood);
            index.enter(nogood.key(), entry_of(nogood, Place::Board(i)));
            read = Reading {
                next: i + 1,
                records: read.records.saturating_add(1),
            };
        }
    }
    read
}
