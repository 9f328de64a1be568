//! The commands of the program that plan and check, and their words, in a table.

use crate::most::{MOST_MEBIBYTES, MOST_TURNS, MOST_WORKERS};

/// A word of a command: its name first, and what help says of it last.
#[derive(Clone, Copy)]
pub(crate) enum Word<'a> {
    /// A word that has to be there, and names a file.
    File(&'a str, &'a str),
    /// One word or more, each of which names a file.
    Files(&'a str, &'a str),
    /// A word that may be left out.
    Optional(&'a str, &'a str),
    /// An option whose word is a number from 1 to the one given; help shows it by the second name.
    Number(&'a str, &'a str, u64, &'a str),
    /// An option whose word is a number from 0 to the one given, and which a letter names too.
    Lettered(char, &'a str, &'a str, u64, &'a str),
    /// An option whose word is any text; help shows it by the second name.
    Text(&'a str, &'a str, &'a str),
    /// An option that has to be there, and whose word is any text; help shows it by the second name.
    Needed(&'a str, &'a str, &'a str),
    /// An option without a word.
    Flag(&'a str, &'a str),
    /// An option without a word, which a letter names too.
    Switch(char, &'a str, &'a str),
}

/// A command: its name, what help says of it, its words, and an example of it.
pub(crate) struct Line<'a> {
    pub(crate) name: &'a str,
    pub(crate) about: &'a str,
    pub(crate) words: &'a [Word<'a>],
    pub(crate) example: &'a str,
}

/// The word for a network.
pub(crate) const NET: Word = Word::File("NET", "The network");

/// The word for an order.
pub(crate) const ORDER: Word = Word::File("ORDER", "The order: a deadline and prices, TOML");

/// The word for a plan.
pub(crate) const PLAN: Word = Word::File("PLAN", "The plan");

/// How many workers make a plan.
const WORKERS: Word = Word::Lettered(
    'j',
    "workers",
    "N",
    MOST_WORKERS,
    "How many workers make the plan, 1 to 64, or 0 for one for each processor [default: 1]",
);

/// How many turns workers take.
pub(crate) const TURNS: Word = Word::Number(
    "turns",
    "N",
    MOST_TURNS,
    "How many turns they take at most, 1 to 1,000,000,000,000; a turn is a piece of the search, of at most 1,000 nodes",
);

/// How much memory records take.
pub(crate) const MEMORY: Word = Word::Number(
    "memory",
    "MIB",
    MOST_MEBIBYTES,
    "How many mebibytes records take at most, about, 1 to 1,048,576 [default: 1,024]",
);

/// After how long a command stops.
pub(crate) const TIME_LIMIT: Word = Word::Text(
    "time-limit",
    "S",
    "After how many seconds it stops, up to 1,000,000,000: 60 or 0.5",
);

/// The option for a calendar of working days, whose days stand beside times in JSON.
pub(crate) const JSON_DAYS: Word = Word::Text(
    "calendar",
    "FILE",
    "With --json, tells days of times too; FILE has the first day, the working days and the holidays",
);

/// Whether it is told how far planning has come.
pub(crate) const PROGRESS: Word = Word::Flag(
    "progress",
    "Tells on standard error, every two seconds, how far planning has come",
);

/// Whether a certificate is one by clauses.
const FACTS: Word = Word::Flag(
    "facts",
    "Prints one by clauses instead: that the plan is the plan of the order, starts and all; if it is stopped, of a bound",
);

/// Whether an answer is written as JSON.
pub(crate) const JSON: Word = Word::Flag("json", "Writes the answer as one object of JSON");

/// Whether faults are explained.
pub(crate) const EXPLAIN: Word = Word::Switch(
    'v',
    "explain",
    "Says on standard error which file is at fault, what was wanted and what is there",
);

/// Whether nothing is told of faults.
pub(crate) const QUIET: Word = Word::Switch(
    'q',
    "quiet",
    "Says nothing on standard error of what is wrong with the files",
);

/// The commands that plan and check, in the order of help, before those that go with plans.
pub(crate) const COMMANDS: &[Line] = &[
    Line {
        name: "cpm",
        about: "Prints the critical length and the early starts of a network",
        words: &[
            Word::Optional(
                "NET",
                "The network; standard input where it is - or left out",
            ),
            JSON,
            EXPLAIN,
            QUIET,
        ],
        example: "Example: racp cpm net.sm",
    },
    Line {
        name: "plan",
        about: "Prints the cheapest capacities that meet an order, with the least starts",
        words: &[
            NET,
            ORDER,
            WORKERS,
            TURNS,
            Word::Flag(
                "stats",
                "Tells on standard error how many pieces and nodes were searched",
            ),
            MEMORY,
            TIME_LIMIT,
            PROGRESS,
            Word::Text(
                "best",
                "FILE",
                "Keeps in FILE the cheapest plan that is known, while the plan is made",
            ),
            JSON_DAYS,
            JSON,
            EXPLAIN,
            QUIET,
        ],
        example: "Example: racp plan net.sm order.toml --best net.best --time-limit 60 > net.plan",
    },
    Line {
        name: "prove",
        about: "Prints a certificate that no capacities before those of the plan are enough",
        words: &[NET, ORDER, FACTS, TIME_LIMIT, EXPLAIN, QUIET],
        example: "Example: racp prove net.sm order.toml --facts > net.proof",
    },
    Line {
        name: "check",
        about: "Checks a plan against a network and an order",
        words: &[NET, ORDER, PLAN, JSON, EXPLAIN, QUIET],
        example: "Example: racp check net.sm order.toml net.plan",
    },
    Line {
        name: "verify",
        about: "Checks a plan and a certificate that no cheaper capacities would do, or one of a bound",
        words: &[
            NET,
            ORDER,
            Word::File("PLAN", "The plan, or alone a certificate of a bound"),
            Word::Optional("PROOF", "The certificate for the plan"),
            TIME_LIMIT,
            JSON,
            EXPLAIN,
            QUIET,
        ],
        example: "Example: racp verify net.sm order.toml net.plan net.proof",
    },
];
