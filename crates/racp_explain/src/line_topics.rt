//! What is said of the lines without a number.

use crate::subject::Line;
use crate::topic::Topic;

/// The command that checks the file of an example.
const CHECK: &str = "racp check examples/a.sm examples/a4.toml FILE";

/// The command that plans with the file of an example.
const PLAN: &str = "racp plan examples/a.sm FILE";

/// What is said of a line without a number.
pub(crate) fn line_topic(line: Line) -> &'static Topic {
    match line {
        Line::Head => &HEAD,
        Line::Cost => &COST,
        Line::Late => &LATE,
        Line::Order => &ORDER,
        Line::Over => &OVER,
        Line::Ceiling => &CEILING,
        Line::Early => &EARLY,
        Line::TooLate => &TOO_LATE,
        Line::Due => &DUE,
        Line::NoRoom => &NO_ROOM,
        Line::Unproved => &UNPROVED,
        Line::Stopped => &STOPPED,
        Line::NoThread => &NO_THREAD,
        Line::Memory => &MEMORY,
        Line::Read => &READ,
        Line::Write => &WRITE,
        Line::TooLong => &TOO_LONG,
    }
}

const HEAD: Topic = Topic {
    short: "the deadline or the critical length of a plan is wrong",
    meaning: "The plan names another deadline than the order, or another critical length than the project has from the
release times on.",
    command: CHECK,
    file: "deadline 5\ncritical 3\ncost 30\ncapacity 1 3
start 1 0\nstart 2 0\nstart 3 0\nstart 4 2\nstart 5 4\nend\n",
    cure: "The plan was made for another order or another network: check it with that one, or make it anew.",
};

const COST: Topic = Topic {
    short: "the cost of a plan is wrong",
    meaning: "The cost of the plan is not the sum, over the resources, of price times units that are not owned.",
    command: CHECK,
    file: "deadline 4\ncritical 3\ncost 31\ncapacity 1 3
start 1 0\nstart 2 0\nstart 3 0\nstart 4 2\nstart 5 4\nend\n",
    cure: "Write the cost that --explain names, or the capacities that were meant.",
};

const LATE: Topic = Topic {
    short: "a job of a plan ends too late",
    meaning: "A job of the plan ends after its due time, or after the deadline.",
    command: CHECK,
    file: "deadline 4\ncritical 3\ncost 30\ncapacity 1 3
start 1 0\nstart 2 0\nstart 3 0\nstart 4 2\nstart 5 5\nend\n",
    cure: "Start the job earlier, or allow more time in the order.",
};

const ORDER: Topic = Topic {
    short: "a job of a plan does not wait for another",
    meaning: "The second job starts before the first has ended, which it has to wait for.",
    command: CHECK,
    file: "deadline 4\ncritical 3\ncost 30\ncapacity 1 3
start 1 0\nstart 2 0\nstart 3 0\nstart 4 2\nstart 5 3\nend\n",
    cure: "Start the second job when the first has ended, or later.",
};

const OVER: Topic = Topic {
    short: "a plan uses more units than it has",
    meaning: "The jobs that run at this time, the second number, use more units of the resource, the first number, than
the plan has.",
    command: CHECK,
    file: "deadline 4\ncritical 3\ncost 30\ncapacity 1 3
start 1 0\nstart 2 0\nstart 3 0\nstart 4 1\nstart 5 4\nend\n",
    cure: "Move one of the jobs that run then, or have more units; --explain names them.",
};

const CEILING: Topic = Topic {
    short: "a plan has more units than the order allows",
    meaning: "The plan has more units of a resource than its ceiling in the order.",
    command: "racp check examples/b.sm examples/b3-ceiling.toml FILE",
    file: "deadline 3\ncritical 2\ncost 4\ncapacity 1 3\ncapacity 2 1
start 1 0\nstart 2 0\nstart 3 0\nstart 4 1\nstart 5 2\nstart 6 3\nend\n",
    cure: "Plan with fewer units, or raise the ceiling in the order.",
};

const EARLY: Topic = Topic {
    short: "a job of a plan starts too early",
    meaning: "A job of the plan starts before its release time.",
    command: "racp check examples/a.sm examples/a5-release.toml FILE",
    file: "deadline 5\ncritical 4\ncost 20\ncapacity 1 2
start 1 0\nstart 2 0\nstart 3 3\nstart 4 3\nstart 5 5\nend\n",
    cure: "Start the job later, or give it an earlier release time in the order.",
};

const TOO_LATE: Topic = Topic {
    short: "the project takes longer than the deadline",
    meaning: "The project takes longer than the deadline, however many units there are: the critical length is that of
the longest chain of jobs, from the release times on.",
    command: PLAN,
    file: "deadline = 2\nprices = [10]\n",
    cure: "Set the deadline to the critical length or later, or shorten jobs of that chain.",
};

const DUE: Topic = Topic {
    short: "a job cannot end by its due time",
    meaning: "A job cannot end by its due time, however many units there are: the jobs before it, and its own duration,
take longer.",
    command: PLAN,
    file: "version = 2\ndeadline = 5\nprices = [10]\ndue = [5, 2, 5, 5, 5]\n",
    cure: "Set the due time to the earliest end, which --explain names, or later.",
};

const NO_ROOM: Topic = Topic {
    short: "the ceilings are too low",
    meaning: "The project cannot end by the deadline with as few units as the ceilings allow.",
    command: PLAN,
    file: "version = 2\ndeadline = 4\nprices = [10]\nceiling = [1]\n",
    cure: "Raise a ceiling, or allow more time. Without ceilings, plan shows how many units would be bought.",
};

const UNPROVED: Topic = Topic {
    short: "a text is no certificate, or none could be made",
    meaning: "verify: nothing is wrong with the plan, and the text is no certificate for it; or, of three files, the third
is no certificate of a bound. prove: the certificate would have more than 16,777,216 bytes, or it was stopped.",
    command: "racp verify examples/a.sm examples/a4.toml examples/a4.plan FILE",
    file: "proof\nend\n",
    cure: "Make the certificate with racp prove, of the network and the order of the plan. That of a large project may
be too long to be written.",
};

const STOPPED: Topic = Topic {
    short: "planning was stopped before the plan was known",
    meaning: "Planning was stopped, by --turns, --time-limit or Ctrl-C, before the plan was known. No capacities that are enough
stand before these, so the plan costs at least as much. Of verify the line stands alone: whether the text is a
certificate was not known when the time was up.",
    command: "racp plan examples/b.sm examples/b3.toml --turns 4",
    file: "",
    cure: "Allow more turns or more time, use more workers, or plan for a later deadline.",
};

const NO_THREAD: Topic = Topic {
    short: "a worker could not be started",
    meaning: "The system refused to start one of the threads that --workers asks for.",
    command: "",
    file: "",
    cure: "Ask for fewer workers, or raise the limit of threads, as by ulimit -u.",
};

const MEMORY: Topic = Topic {
    short: "memory ran out",
    meaning: "There was not enough memory, for the words, the inputs or the answer.",
    command: "",
    file: "",
    cure: "Give the records of the search less by --memory, end other programs, or raise a limit that was set, as by
ulimit -v.",
};

const READ: Topic = Topic {
    short: "a file cannot be opened or read",
    meaning: "A file cannot be opened, or cannot be read. It may be missing, a folder, or not allowed to be read.",
    command: "racp cpm no-such-file.sm",
    file: "",
    cure: "Look at the path and at who may read the file; standard error names it, and what the system says. Standard
input is named -.",
};

const WRITE: Topic = Topic {
    short: "standard output takes no more",
    meaning: "Standard output took no more: it is closed, the disk is full, or nobody reads the pipe. What was written
is a beginning of the answer.",
    command: "racp cpm examples/a.sm > /dev/full",
    file: "",
    cure: "Make room, or let the next program of the pipe read to the end.",
};

const TOO_LONG: Topic = Topic {
    short: "an input is too long",
    meaning: "An input has more than 16,777,216 bytes.",
    command: "racp cpm /dev/zero",
    file: "",
    cure: "Look whether the file is the one that was meant: a network of 512 jobs has far fewer.",
};
