//! Lines of trees that refute questions.

use racp_samples::{parallel, question};
use racp_search::{Step, refute};
use std::alloc::Global;

/// When each of the five jobs starts at the latest, units, and the lines that show that these are not enough, each a letter
/// with its number; no lines where they are.
struct Row {
    latest: &'static [u32],
    units: u32,
    lines: &'static [(u8, u32)],
}

/// At the time 0 the jobs 2, 3 and 4 need 2, 1 and 1 units. They take 3, 2 and 2 time units.
const ROWS: &[Row] = &[
    Row {
        latest: &[0, 0, 1, 1, 3],
        units: 3,
        lines: &[(b'D', 0), (b'L', 2), (b'L', 3), (b'L', 4)],
    },
    Row {
        latest: &[1, 1, 2, 2, 4],
        units: 2,
        lines: &[(b'D', 0), (b'L', 2), (b'L', 3)],
    },
    Row {
        latest: &[1, 1, 2, 2, 4],
        units: 3,
        lines: &[],
    },
    Row {
        latest: &[2, 2, 3, 3, 5],
        units: 2,
        lines: &[],
    },
];

/// Whether steps are these lines.
fn are_lines(steps: &[Step], lines: &[(u8, u32)]) -> bool {
    for (step, line) in steps.iter().zip(lines) {
        let found = match step {
            Step::L(job) => (b'L', *job),
            Step::D(time) => (b'D', *time),
            Step::C(node) => (b'C', *node),
        };
        if found != *line {
            return false;
        }
    }
    steps.len() == lines.len()
}

/// Whether the units of a row are refuted by its lines, or are enough if it has none.
fn is_refuted(alloc: Global, row: &Row) -> bool {
    let Ok(net) = parallel(alloc) else {
        return false;
    };
    let Ok(asked) = question(alloc, &net, &[row.units], &[0, 0, 0, 0, 3], row.latest) else {
        return false;
    };
    match refute(alloc, &net, &asked) {
        Ok(Some(steps)) => !row.lines.is_empty() && are_lines(&steps, row.lines),
        Ok(None) => row.lines.is_empty(),
        Err(_) => false,
    }
}

#[test]
fn writes_down_why_units_are_not_enough(rt: HostRuntime) {
    for (place, row) in ROWS.iter().enumerate() {
        assert!(rt; is_refuted(rt.alloc(), row), "row {place}");
    }
}
