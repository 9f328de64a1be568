//! What is said of a subject.

use crate::line_topics::line_topic;
use crate::order_topics::order_topic;
use crate::plan_topics::plan_topic;
use crate::sm_topics::sm_topic;
use crate::subject::Subject;

/// What is said of a subject.
pub struct Topic {
    /// What it means, in a few words.
    pub short: &'static str,
    /// What it means.
    pub meaning: &'static str,
    /// A command that gives it, in a folder with the folder examples; empty if none does each time.
    pub command: &'static str,
    /// The text of the file that the command calls FILE; empty if it calls none.
    pub file: &'static str,
    /// What helps.
    pub cure: &'static str,
}

/// What is said of names that are not UTF-8.
const NAMES: Topic = Topic {
    short: "the names are not UTF-8",
    meaning: "The file of --names is not UTF-8.",
    command: "printf '\\377' | racp show examples/a.sm examples/a4.toml examples/a4.plan --names /dev/stdin",
    file: "",
    cure: "Save the names as UTF-8, one a line: first the jobs, then the resources.",
};

/// What is said of names of another number than there are jobs and resources.
const NAMES_COUNT: Topic = Topic {
    short: "there are too few names, or too many",
    meaning: "The file of --names has neither no line nor a line for each job and each resource. Empty lines behind these do
not count.",
    command: "printf 'Start\\nDig\\n' | racp show examples/a.sm examples/a4.toml examples/a4.plan --names -",
    file: "",
    cure: "Give one name a line: first the jobs, in the order of their numbers, then the resources. A line may be empty.",
};

/// What is said of a curve that is not UTF-8.
const CURVE: Topic = Topic {
    short: "the curve is not UTF-8",
    meaning: "The file of --curve is not UTF-8.",
    command: "printf '\\377' | racp report examples/a.sm examples/a4.toml examples/a4.plan --curve /dev/stdin",
    file: "",
    cure: "Give the file that racp curve has written.",
};

/// What is said of a curve without a line for a deadline.
const CURVE_STEPS: Topic = Topic {
    short: "no line tells what a deadline costs",
    meaning: "No line of the file of --curve begins with deadline, or one that does has not a deadline, a cost and the units of each resource.",
    command: "printf 'end\\n' | racp report examples/a.sm examples/a4.toml examples/a4.plan --curve -",
    file: "",
    cure: "Give the file that racp curve has written for the network, as text and not as a picture.",
};

/// What is said of a text of changes that is not UTF-8.
const CHANGES: Topic = Topic {
    short: "the text of changes is not UTF-8",
    meaning: "The file of --whatif is not UTF-8.",
    command: "printf '\\377' | racp report examples/a.sm examples/a4.toml examples/a4.plan --whatif /dev/stdin",
    file: "",
    cure: "Give the file that racp whatif has written.",
};

/// What is said of a text of changes of another plan.
const CHANGES_PLAN: Topic = Topic {
    short: "the changes are told beside another plan",
    meaning: "The file of --whatif does not begin with the line of the plan: its deadline and its cost.",
    command: "printf 'deadline 5: cost 20\\nend\\n' | racp report examples/a.sm examples/a4.toml examples/a4.plan --whatif -",
    file: "",
    cure: "Give the file that racp whatif has written of the same network, order and plan, as text and not as JSON.",
};

/// What is said of a subject.
pub fn topic_of(subject: Subject) -> &'static Topic {
    match subject {
        Subject::Sm(kind) => sm_topic(kind),
        Subject::Order(fault) => order_topic(fault),
        Subject::Plan(kind) => plan_topic(kind),
        Subject::Names => &NAMES,
        Subject::NamesCount => &NAMES_COUNT,
        Subject::Curve => &CURVE,
        Subject::CurveSteps => &CURVE_STEPS,
        Subject::Changes => &CHANGES,
        Subject::ChangesPlan => &CHANGES_PLAN,
        Subject::Line(line) => line_topic(line),
    }
}
