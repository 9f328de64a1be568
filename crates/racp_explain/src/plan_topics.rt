//! What is said of the faults of plan texts.

use crate::topic::Topic;
use racp_plan::TextFaultKind;

/// The command that reads the file of an example.
const READ: &str = "racp check examples/a.sm examples/a4.toml FILE";

/// What is said of a fault of a plan text.
pub(crate) fn plan_topic(kind: TextFaultKind) -> &'static Topic {
    match kind {
        TextFaultKind::Syntax => &SYNTAX,
        TextFaultKind::Range => &RANGE,
        TextFaultKind::Memory => &MEMORY,
    }
}

const SYNTAX: Topic = Topic {
    short: "a line is missing or not of its form",
    meaning: "A line of the plan is missing or not of its form, or something stands behind the last line. The lines are
deadline T, critical C, cost X, then capacity k a for each resource k, then start j s for each job j, then end. There is
one blank between words and numbers, numbers have no leading zeros, and each line ends with a line feed, without a
carriage return before it. No byte order mark stands at the head.",
    command: READ,
    file: "deadline 4\ncritical 3\ncost 030\n",
    cure: "Write the line that --explain names. Where the plan has more or fewer resources or jobs than the network, it
is one of another network. Where an editor has put a byte order mark or carriage returns into it, save it as UTF-8
without BOM and with line ends LF, as on Unix, or run dos2unix on it. A file that begins with stopped has no plan:
plan --best FILE keeps the cheapest that is known.",
};

const RANGE: Topic = Topic {
    short: "a number is out of range",
    meaning: "A number of the plan is too great: the cost is at most 1,000,000,000,000,000, all other numbers are at most
10,000,000.",
    command: READ,
    file: "deadline 10000001\n",
    cure: "Write a number in the range.",
};

const MEMORY: Topic = Topic {
    short: "memory ran out",
    meaning: "There was not enough memory to read the plan. The program prints the line memory for it.",
    command: "",
    file: "",
    cure: "End other programs, or raise a limit that was set, as by ulimit.",
};
