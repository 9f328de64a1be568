//! What is said of the faults of network texts.

use crate::topic::Topic;
use racp_sm::SmFaultKind;

/// The command that reads the file of an example.
const READ: &str = "racp cpm FILE";

/// What is said of a fault of a network text.
pub(crate) fn sm_topic(kind: SmFaultKind) -> &'static Topic {
    match kind {
        SmFaultKind::NoJobs => &NO_JOBS,
        SmFaultKind::NoRenewable => &NO_RENEWABLE,
        SmFaultKind::ManyProjects => &MANY_PROJECTS,
        SmFaultKind::OtherResources => &OTHER_RESOURCES,
        SmFaultKind::NoPrecedence => &NO_PRECEDENCE,
        SmFaultKind::NoRequests => &NO_REQUESTS,
        SmFaultKind::BadNumber => &BAD_NUMBER,
        SmFaultKind::Limit => &LIMIT,
        SmFaultKind::BadRow => &BAD_ROW,
        SmFaultKind::NotSingleMode => &NOT_SINGLE_MODE,
        SmFaultKind::BadSuccessor => &BAD_SUCCESSOR,
        SmFaultKind::TooFew => &TOO_FEW,
        SmFaultKind::TooMany => &TOO_MANY,
        SmFaultKind::Cycle => &CYCLE,
        SmFaultKind::Memory => &MEMORY,
    }
}

const NO_JOBS: Topic = Topic {
    short: "the number of jobs is missing",
    meaning: "The head of the network does not say how many jobs there are. The head is what stands before the line
PRECEDENCE RELATIONS: and there no line begins with the word jobs and has a colon.",
    command: READ,
    file: "number of jobs: 2\n- renewable: 1\n",
    cure: "Write a line as 'jobs: 2'. Where the file is an order, it stands in the wrong place: the network comes first.",
};

const NO_RENEWABLE: Topic = Topic {
    short: "the number of renewable resources is missing",
    meaning: "The head of the network does not say how many resources there are: no line begins with the words
'- renewable', with a blank between them, and has a colon.",
    command: READ,
    file: "jobs: 2\n-renewable: 1\n",
    cure: "Write a line as '- renewable: 1'.",
};

const MANY_PROJECTS: Topic = Topic {
    short: "there is another number of projects than 1",
    meaning: "The head of the network says that there are more projects than one, or none.",
    command: READ,
    file: "projects: 2\njobs: 2\n- renewable: 1\n",
    cure: "Write each project into a file of its own. The line may be left out.",
};

const OTHER_RESOURCES: Topic = Topic {
    short: "there are resources that are not renewable",
    meaning: "The head of the network says that there are nonrenewable or doubly constrained resources. Only renewable
ones can be planned.",
    command: READ,
    file: "jobs: 2\n- renewable: 1\n- nonrenewable: 2\n",
    cure: "Leave these resources out, with their columns of requests, and write 0 or no line.",
};

const NO_PRECEDENCE: Topic = Topic {
    short: "the precedence relations are missing",
    meaning: "There is no line PRECEDENCE RELATIONS: in these letters, with nothing else on it.",
    command: READ,
    file: "jobs: 2\n- renewable: 1\nprecedence relations:\njob modes successors\n1 1 1 2\n2 1 0\n",
    cure: "Write the title as 'PRECEDENCE RELATIONS:', then a line for the heading, then the row of each job: its
number, 1, how many successors it has, and these.",
};

const NO_REQUESTS: Topic = Topic {
    short: "the requests and durations are missing",
    meaning: "Behind the precedence part there is no line REQUESTS/DURATIONS: in these letters, with nothing else on it.",
    command: READ,
    file: "jobs: 1\n- renewable: 1\nPRECEDENCE RELATIONS:\njob modes successors\n1 1 0\n****\nREQUESTS AND DURATIONS:\n",
    cure: "Write the title as 'REQUESTS/DURATIONS:', then a line for the heading, then the row of each job: its number,
1, its duration, and its request of each resource.",
};

const BAD_NUMBER: Topic = Topic {
    short: "a number is missing, or a word is not a number",
    meaning: "A word stands where a whole number has to, or behind the last number of a part; or nothing stands behind
the colon of a key. A number is made of decimal digits alone: no point, no sign, no brackets.",
    command: READ,
    file: "jobs: 1\n- renewable: 1\nPRECEDENCE RELATIONS:\njob modes successors\n1 1 0
REQUESTS/DURATIONS:\njob mode duration R 1\n1 1 4.5 2\n",
    cure: "Write a whole number in that line; where durations are parts of a unit, count in a smaller unit. One line
behind each title is taken for the heading, and an empty one counts.",
};

const LIMIT: Topic = Topic {
    short: "a number is out of range",
    meaning: "A number is out of its range: 1 to 512 jobs, 1 to 16 resources, at most 512 successors, durations and
requests of at most 10,000.",
    command: READ,
    file: "jobs: 513\n- renewable: 1\n",
    cure: "Split the project, or count in a greater unit.",
};

const BAD_ROW: Topic = Topic {
    short: "a row is not that of the next job",
    meaning: "A row does not begin with the number of the next job. Both parts have a row for each job, in the order of
the numbers from 1 on, and a row that is too short or too long shifts what comes behind it.",
    command: READ,
    file: "jobs: 2\n- renewable: 1\nPRECEDENCE RELATIONS:\njob modes successors\n1 1 1 2\n3 1 0\n",
    cure: "Number the rows 1, 2, 3 and so on. Look at the row before, too: how many successors does it promise, and how
many requests has it?",
};

const NOT_SINGLE_MODE: Topic = Topic {
    short: "a number of modes, or a mode, is not 1",
    meaning: "A job has another number of modes than 1, or a row is one of another mode. Only single-mode networks can
be planned.",
    command: READ,
    file: "jobs: 1\n- renewable: 1\nPRECEDENCE RELATIONS:\njob modes successors\n1 2 0\n",
    cure: "Choose a mode for each job, and write 1 in the second column of both parts.",
};

const BAD_SUCCESSOR: Topic = Topic {
    short: "a successor is no job",
    meaning: "A successor is not the number of a job: it is 0, or greater than the number of jobs.",
    command: READ,
    file: "jobs: 1\n- renewable: 1\nPRECEDENCE RELATIONS:\njob modes successors\n1 1 1 2\n",
    cure: "Write a number from 1 to the number of jobs. The third column says how many successors follow.",
};

const TOO_FEW: Topic = Topic {
    short: "a part ends too early",
    meaning: "A part ends before its last number. The precedence part has, for each job, its number, 1, how many
successors it has, and these; the requests part its number, 1, its duration, and a request of each resource. The line
is that of the part's title.",
    command: READ,
    file: "jobs: 1\n- renewable: 1\nPRECEDENCE RELATIONS:\njob modes successors\n1 1 0
REQUESTS/DURATIONS:\njob mode duration R 1\n1 1 4\n",
    cure: "Add what is missing at the end of the part: a row, or the requests of a resource. Or the head says that there
are more jobs or resources than there are.",
};

const TOO_MANY: Topic = Topic {
    short: "a number stands after the last one of a part",
    meaning: "A number stands behind the last one of a part.",
    command: READ,
    file: "jobs: 1\n- renewable: 1\nPRECEDENCE RELATIONS:\njob modes successors\n1 1 0
REQUESTS/DURATIONS:\njob mode duration R 1\n1 1 4 2 2\n",
    cure: "Leave it out. Or the head says that there are fewer jobs or resources than there are.",
};

const CYCLE: Topic = Topic {
    short: "a job has to wait for itself",
    meaning: "A job would have to wait for itself: it stands among its own successors, or a chain of successors leads
back to it.",
    command: READ,
    file: "jobs: 2\n- renewable: 1\nPRECEDENCE RELATIONS:\njob modes successors\n1 1 1 2\n2 1 1 1
REQUESTS/DURATIONS:\njob mode duration R 1\n1 1 4 2\n2 1 3 1\n",
    cure: "Follow the successors of the job that --explain names, and leave one of them out.",
};

const MEMORY: Topic = Topic {
    short: "memory ran out",
    meaning: "There was not enough memory to read the network. The program prints the line memory for it.",
    command: "",
    file: "",
    cure: "End other programs, or raise a limit that was set, as by ulimit.",
};
