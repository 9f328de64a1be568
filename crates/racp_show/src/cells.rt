//! The cells of a chart in a text.

ghost use Rattle.std.specs.Prelude.{◌≤◌, ◌<◌};
ghost use Rattle.racp_show.specs.Levels.{IsLevel};

use crate::scale::Bar;
use std::cmp::min;

/// Eighths of a capacity.
const EIGHTHS: [char; 9] = [' ', '▁', '▂', '▃', '▄', '▅', '▆', '▇', '█'];

/// Ninths of a capacity, in ASCII.
const NINTHS: [char; 10] = [' ', '1', '2', '3', '4', '5', '6', '7', '8', '9'];

/// The cell of a job in a column, from 0.
pub(crate) fn bar_cell(bar: &Bar, column: u32, ascii: bool) -> char {
    if bar.covers(column) {
        if ascii { '#' } else { '█' }
    } else if bar.count == 0 && column == bar.first {
        '|'
    } else {
        ' '
    }
}

/// The cell of a usage: eighths of the capacity, rounded up, or in ASCII ninths of it.
pub(crate) fn level_cell(units: u32, capacity: u32, ascii: bool) -> char {
    if ascii {
        NINTHS[level(9, units, capacity) as usize]
    } else {
        EIGHTHS[level(8, units, capacity) as usize]
    }
}

/// How many of this many steps of the capacity a usage is, rounded up.
fn level(steps: u32, units: u32, capacity: u32) -> u32
    requires { steps < 10 }
    ensures { IsLevel steps units capacity result }
{
    if capacity == 0 {
        return 0;
    }
    let level = (steps as u64 * units as u64).div_ceil(capacity as u64);
    min(level, steps as u64) as u32
}
