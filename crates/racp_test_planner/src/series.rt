//! The questions of small series, one by one.

use crate::series::boxes::{BOXES, Boxed};
use crate::series::parts::{Parts, is_box, parts_of};
use racp_candidates::{One, Singles, Starts1, Vectors};
use racp_model::{Capacities, Question, Window};
use racp_questions::Series;
use racp_samples::{parallel, root_window};
use std::alloc::{AllocError, Global};

pub(crate) mod boxes;
pub(crate) mod parts;

/// This many units; or `None` if memory is refused.
fn capacities(alloc: Global, units: &[u32]) -> Option<Capacities> {
    match units.to_vec(alloc) {
        Ok(units) => Some(Capacities::new(units)),
        Err(_) => None,
    }
}

/// The series of the vectors of a box; or `None` if it is no box, or memory is refused.
fn series_of(alloc: Global, parts: Parts, root: &Window) -> Option<Vectors> {
    if !is_box(&parts) {
        return None;
    }
    let Parts {
        order,
        floors,
        roofs,
        pairs,
    } = parts;
    Vectors::new(alloc, &order, floors, roofs, pairs, root).ok()
}

/// Whether a question has these capacities, if any are given.
fn has_units(question: &Question, units: Option<&[u32]>) -> bool {
    match units {
        Some(units) => question.capacities.as_slice() == units,
        None => false,
    }
}

/// Whether a question has these capacities, or there is none if none are given; or `None` if memory is refused.
fn is_asked(next: Result<Option<Question>, AllocError>, units: Option<&[u32]>) -> Option<bool> {
    match next {
        Ok(Some(question)) => Some(has_units(&question, units)),
        Ok(None) => Some(units.is_none()),
        Err(_) => None,
    }
}

/// Whether that is so of the next question of a series. It is asked for once more if memory is refused.
fn is_next<S: Series>(series: &mut S, units: Option<&[u32]>) -> bool {
    match is_asked(series.next(), units) {
        Some(asked) => asked,
        None => is_asked(series.next(), units) == Some(true),
    }
}

/// Whether the questions of a series are of these capacities: all of them, or the first ones.
fn gives<S: Series>(series: &mut S, vectors: &[&[u32]], all: bool) -> bool {
    for units in vectors {
        if !is_next(series, Some(*units)) {
            return false;
        }
    }
    !all || is_next(series, None)
}

/// The series of the vectors of a row; or `None` if it is no box, or memory is refused.
fn series_of_row(alloc: Global, row: &Boxed, root: &Window) -> Option<Vectors> {
    match parts_of(alloc, row) {
        Some(parts) => series_of(alloc, parts, root),
        None => None,
    }
}

/// Whether a box has the vectors of its row, in this order; or `None` if it is no box, or memory is refused.
fn has_vectors(alloc: Global, row: &Boxed, root: &Window) -> Option<bool> {
    match series_of_row(alloc, row, root) {
        Some(mut series) => Some(gives(&mut series, row.vectors, row.all)),
        None => None,
    }
}

/// Whether it has them. A series that cannot be made is made once more.
fn is_ordered(alloc: Global, row: &Boxed, root: &Window) -> bool {
    match has_vectors(alloc, row, root) {
        Some(ordered) => ordered,
        None => has_vectors(alloc, row, root) == Some(true),
    }
}

/// The root window of five jobs for the deadline 4, which is made once more if memory is refused.
fn root(alloc: Global) -> Option<Window> {
    match root_once(alloc) {
        Some(root) => Some(root),
        None => root_once(alloc),
    }
}

fn root_once(alloc: Global) -> Option<Window> {
    match parallel(alloc) {
        Ok(net) => root_window(alloc, &net, 4).ok(),
        Err(_) => None,
    }
}

/// Whether the vectors of a box come in order, each with the root window.
fn is_ordered_in_root(alloc: Global, row: &Boxed) -> bool {
    match root(alloc) {
        Some(root) => is_ordered(alloc, row, &root),
        None => false,
    }
}

#[test]
fn orders_boxes(rt: HostRuntime) {
    for (place, row) in BOXES.iter().enumerate() {
        assert!(rt; is_ordered_in_root(rt.alloc(), row), "box {place}");
    }
}

/// Whether the series of the units of the first resource, from 3 to 4, asks for each, with the roof of the second one.
fn has_singles(alloc: Global, floors: &Capacities, root: &Window) -> bool {
    match capacities(alloc, &[4, 2]) {
        Some(roofs) => has_singles_between(alloc, floors, &roofs, root),
        None => false,
    }
}

fn has_singles_between(
    alloc: Global,
    floors: &Capacities,
    roofs: &Capacities,
    root: &Window,
) -> bool {
    if floors.as_slice().is_empty() || roofs.as_slice().is_empty() {
        return false;
    }
    match Singles::new(alloc, floors, roofs, 0, root) {
        Ok(mut series) => gives(&mut series, &[&[3, 2], &[4, 2]], true),
        Err(_) => false,
    }
}

/// Whether the series of one question asks for 3 units and one, once.
fn has_one(alloc: Global, units: &Capacities, root: &Window) -> bool {
    match One::new(alloc, units, root) {
        Ok(mut series) => gives(&mut series, &[&[3, 1]], true),
        Err(_) => false,
    }
}

/// Whether the series of the starts of the third job asks for the starts 0, 1 and 2.
fn has_starts(alloc: Global, units: &Capacities, root: &Window) -> bool {
    if root.lower().len() <= 2 || root.upper().len() <= 2 {
        return false;
    }
    match Starts1::new(alloc, units, root, 2) {
        Ok(mut starts) => {
            is_next_start(&mut starts, 0)
                && is_next_start(&mut starts, 1)
                && is_next_start(&mut starts, 2)
                && is_next(&mut starts, None)
        }
        Err(_) => false,
    }
}

/// Whether the third job starts at this time in the next question, and all else is as in the root window.
fn is_next_start(starts: &mut Starts1, start: u32) -> bool {
    match starts.next() {
        Ok(Some(question)) => is_at(&question, start),
        _ => false,
    }
}

fn is_at(question: &Question, start: u32) -> bool {
    let (lower, upper) = (question.window.lower(), question.window.upper());
    question.capacities.as_slice() == [3, 1].as_slice()
        && lower == [0, 0, start, 0, 3].as_slice()
        && upper == [1, 1, start, 2, 4].as_slice()
}

/// Whether the three small series ask for what they are to ask in a window.
fn have_questions(alloc: Global, root: &Window) -> bool {
    match capacities(alloc, &[3, 1]) {
        Some(units) => {
            has_singles(alloc, &units, root)
                && has_one(alloc, &units, root)
                && has_starts(alloc, &units, root)
        }
        None => false,
    }
}

/// Whether the three small series ask for what they are to ask in the root window.
fn have_questions_in_root(alloc: Global) -> bool {
    match root(alloc) {
        Some(root) => have_questions(alloc, &root),
        None => false,
    }
}

#[test]
fn asks_single_values(rt: HostRuntime) {
    assert!(rt; have_questions_in_root(rt.alloc()));
}
