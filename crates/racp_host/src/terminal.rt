//! Lines on a terminal, each in the place of the one before it.

use std::fmt;
use std::fmt::{Display, Formatter};

/// What a terminal is sent before a line that takes the place of the one above: up one line, and clear it.
const IN_PLACE: &str = "\x1b[A\x1b[K";

/// What it is sent before a line that it is to cut at its width, and behind that line.
pub(crate) const CUT: &str = "\x1b[?7l";

pub(crate) const UNCUT: &str = "\x1b[?7h";

/// What is sent before a line: if there is one already, it takes the place of that.
pub(crate) fn place(is_begun: bool) -> &'static str {
    if is_begun { IN_PLACE } else { "" }
}

/// The time that has passed, in minutes and seconds, as `1:05`.
#[derive(Drop)]
pub(crate) struct PassedTime {
    seconds: u64,
}

impl PassedTime {
    /// So many seconds.
    pub(crate) fn of(seconds: u64) -> Self {
        PassedTime { seconds }
    }
}

impl Display for PassedTime {
    fn fmt<W: fmt::Write>(&self, f: &mut Formatter<W>) -> fmt::Result {
        let (minutes, seconds) = (self.seconds / 60, self.seconds % 60);
        let zero = if seconds < 10 { "0" } else { "" };
        write!(f, "{minutes}:{zero}{seconds}")
    }
}
