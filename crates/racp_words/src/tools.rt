//! The commands of the program that go with plans, and their words, in two tables.

use crate::batch_words::BATCH;
use crate::most::{MOST_WIDTH, MOST_WORKERS};
use crate::table::{
    EXPLAIN, JSON, Line, MEMORY, NET, ORDER, PLAN, PROGRESS, QUIET, TIME_LIMIT, TURNS, Word,
};
use crate::table_words::{CALENDAR, CEILING, IMPORT, OWNED, START_DATE, TIMES, UNIT, WORKDAYS};

/// How many workers make several plans.
const CREW: Word = Word::Lettered(
    'j',
    "workers",
    "N",
    MOST_WORKERS,
    "How many workers make the plans, 1 to 64, or 0 for one for each processor [default: 1]",
);

/// The names of jobs and resources.
const NAMES: Word = Word::Text(
    "names",
    "FILE",
    "Names of the jobs and then of the resources, one a line",
);

/// Whether a picture is written.
const SVG: Word = Word::Flag("svg", "Writes a picture for a browser, SVG");

/// The commands that go with plans, in the order of help.
pub(crate) const TOOLS: &[Line] = &[
    Line {
        name: "show",
        about: "Draws a plan that is right: a chart of the jobs, and the use of each resource",
        words: &[
            NET,
            ORDER,
            PLAN,
            NAMES,
            Word::Number(
                "width",
                "N",
                MOST_WIDTH,
                "How many columns a line has at most, 1 to 1,000 [default: as COLUMNS says, or 80]",
            ),
            Word::Flag("ascii", "Draws with the characters that every terminal has"),
            SVG,
            Word::Flag(
                "links",
                "With --svg, draws an arrow from each job to each that waits for it",
            ),
            CALENDAR,
            START_DATE,
            WORKDAYS,
            UNIT,
            Word::Flag("json", "Writes the plan as JSON"),
            Word::Flag("csv", "Writes a row for each job as CSV"),
            EXPLAIN,
            QUIET,
        ],
        example: "Example: racp show net.sm order.toml net.plan --names net.names --svg > plan.svg",
    },
    Line {
        name: "report",
        about: "Writes a page about a plan that is right, in HTML: to be read and to be printed",
        words: &[
            NET,
            ORDER,
            PLAN,
            NAMES,
            Word::Text(
                "curve",
                "FILE",
                "What each deadline costs, as curve prints it",
            ),
            Word::Text("whatif", "FILE", "What changes cost, as whatif prints it"),
            Word::Text(
                "proof",
                "FILE",
                "A certificate for the plan, or of a bound, as prove prints it",
            ),
            CALENDAR,
            START_DATE,
            WORKDAYS,
            UNIT,
            EXPLAIN,
            QUIET,
        ],
        example: "Example: racp report net.sm order.toml net.plan --names net.names > plan.html",
    },
    Line {
        name: "export",
        about: "Writes a plan that is right for other programs: planners, calendars, spreadsheets",
        words: &[
            NET,
            ORDER,
            PLAN,
            Word::Needed("to", "FORMAT", "ics, csv, md, mspdi or tjp"),
            Word::Needed(
                "calendar",
                "FILE",
                "The first day, the working days and the holidays: which days times are",
            ),
            NAMES,
            EXPLAIN,
            QUIET,
        ],
        example: "Example: racp export net.sm order.toml net.plan --to ics --calendar net.calendar > net.ics",
    },
    Line {
        name: "curve",
        about: "Prints what each deadline costs, from the critical length to the order's",
        words: &[
            NET,
            ORDER,
            CREW,
            TURNS,
            MEMORY,
            TIME_LIMIT,
            PROGRESS,
            Word::Text(
                "best",
                "FILE",
                "Keeps in FILE the cheapest plan that is known for the deadline of the order",
            ),
            SVG,
            Word::Text(
                "calendar",
                "FILE",
                "With --svg or --json, tells days of deadlines; FILE has the first day, the working days and the holidays",
            ),
            JSON,
            EXPLAIN,
            QUIET,
        ],
        example: "Example: racp curve net.sm order.toml > net.curve",
    },
    Line {
        name: "soonest",
        about: "Plans the project so that it ends as soon as the units that there are admit",
        words: &[
            NET, ORDER, CREW, TURNS, MEMORY, TIME_LIMIT, JSON, EXPLAIN, QUIET,
        ],
        example: "Example: racp soonest net.sm team.toml > net.plan",
    },
    Line {
        name: "whatif",
        about: "Tells what one unit fewer, one owned unit more and one time unit cost or save",
        words: &[
            NET,
            ORDER,
            Word::Optional("PLAN", "The plan; else that of the order is made"),
            NAMES,
            CREW,
            TURNS,
            MEMORY,
            TIME_LIMIT,
            CALENDAR,
            JSON,
            EXPLAIN,
            QUIET,
        ],
        example: "Example: racp whatif net.sm order.toml net.plan --names net.names",
    },
];

/// The commands that make orders, tables of results and networks, and the one that explains, in the order of help, behind those
/// that go with plans.
pub(crate) const MAKERS: &[Line] = &[
    Line {
        name: "order",
        about: "Writes an order for a network: a deadline and prices",
        words: &[
            NET,
            NAMES,
            Word::Text(
                "factor",
                "F",
                "The deadline as so many times the critical length, rounded down: 1.2",
            ),
            Word::Text(
                "deadline",
                "T",
                "The deadline, 0 to 10,000,000, or with --calendar a date: 2026-11-27",
            ),
            Word::Needed(
                "prices",
                "N,..",
                "What a unit of each resource costs: 9,30 or Masons=9,Cranes=30",
            ),
            OWNED,
            CEILING,
            TIMES,
            JSON,
            EXPLAIN,
            QUIET,
        ],
        example: "Example: racp order net.sm --factor 1.2 --prices 3,5 > order.toml",
    },
    Line {
        name: "batch",
        about: "Writes a table of what each network costs with each deadline, as CSV",
        words: BATCH,
        example: "Example: racp batch *.sm --factors 1.0,1.2 --time-limit 60 > table.csv",
    },
    Line {
        name: "import",
        about: "Makes a network of a table of tasks, or of several, and an order if there are prices",
        words: IMPORT,
        example: "Example: racp import tasks.csv --out net --prices 3,5 --factor 1.2",
    },
    Line {
        name: "explain",
        about: "Says what a fault means, with an example and what helps; without words, lists them",
        words: &[
            Word::Optional(
                "FORMAT",
                "The kind of text, the first word of a line, or a name: sm, impossible, TooFew",
            ),
            Word::Optional(
                "FAULT",
                "The number or the name of a fault of that kind: 12, TooFew, critical",
            ),
        ],
        example: "Example: racp explain sm 12",
    },
];
