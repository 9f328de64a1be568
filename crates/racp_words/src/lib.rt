//! The words of the command line of the program `racp`, and what they ask for.
//!
//! The library `clap` reads the words: `command` in `commands` tells it the commands of the program and their words,
//! from the tables in `table` and `tools`, and `asked` turns what it found into a `Task`. The crate is apart from the others, so that a change of
//! a help text leaves them as they were proved. The first of the words is the program's name; words are UTF-8.
//!
//! ```text
//! words                                    asked(alloc, &words) answers
//! racp                                     Cpm(StandardInput)
//! racp cpm -                               Cpm(StandardInput)
//! racp cpm a.sm                            Cpm(File) with the path a.sm
//! racp plan b.sm b3.toml                   Plan with the paths b.sm and b3.toml, 1,024 MiB, and None: one thread
//! racp plan b.sm b3.toml --workers 4       the same, and a CrewOptions of 4 workers
//! racp plan b.sm b3.toml --memory 64       the same on one thread, with 64 MiB
//! racp prove b.sm b3.toml                  Prove with the paths b.sm and b3.toml
//! racp check a.sm a4.toml p                Check with the paths a.sm, a4.toml and p
//! racp verify a.sm a4.toml p q             Verify with the paths a.sm, a4.toml, p and q, and None: no limit of time
//! racp verify a.sm a4.toml p q --time-limit 5  the same, and the word 5 for the limit
//! racp verify a.sm a4.toml q               VerifyBound with the paths a.sm, a4.toml and q, and None: no limit of time
//! racp show a.sm a4.toml p --svg           Tool, Show with these paths, no names, no width and the form Svg
//! racp report a.sm a4.toml p --names n     Tool, Report with these paths, the names n, no curve, no changes
//! racp export a.sm a4.toml p --to ics --calendar c  Tool, Export with these paths, the words ics and c, no names
//! racp curve b.sm b3.toml                  Tool, Curve with these paths, 1,024 MiB, one thread, and no picture
//! racp curve b.sm b3.toml --workers 4      the same, and a CrewOptions of 4 workers
//! racp whatif a.sm a4.toml p               Tool, WhatIf with these paths, 1,024 MiB, one thread, and no names
//! racp order a.sm --factor 1.2 --prices 3  Tool, Order with the path a.sm, no names, the factor 1.2 and the prices 3, as words
//! racp batch a.sm b.sm --factors 1.0,1.5   Tool, Batch with the paths a.sm and b.sm, the word 1.0,1.5 and 1,024 MiB
//! racp import t.csv u.csv --out t          Tool, Import with the paths t.csv and u.csv and the word t for the files
//! racp explain sm 12                       Tool, Explain with the words sm and 12
//! racp plan b.sm b3.toml --workers 65      an error: this is no number from 0 to 64
//! racp plan b.sm                           an error: a word is missing
//! racp --help                              an error of the kind DisplayHelp
//! ```
//!
//! Each of the options `--workers N` (or `-j N`), `--turns N`, `--stats`, `--time-limit S`, `--progress` and `--best FILE`
//! asks for a crew: 1 worker, 1,000,000,000,000 turns, no limit of time, nothing told and no file of the best plan, unless
//! the others say otherwise. With `--workers 0` there are to be as many workers as there are processors, which the
//! program counts. `--memory MIB` says how much memory the records of a search take at most, with or without a crew.
//! `curve` takes all of these but `--stats`, `soonest` and `whatif` none of `--stats`, `--progress` and `--best`, `verify` takes
//! `--time-limit`. A limit of time is a word here; the program reads it.
//!
//! What is asked for is a `Task`: a request; how much is told of what is wrong, which the flags `--quiet` and `--explain`
//! of each command that reads a file say; and whether the answer is written as JSON, which the flag `--json` says.
//!
//! The commands stand in `specs/` a second time, as values of the library's definitions: `racp`, `cpm`, `plan`,
//! `of_order`, `of_plan`, `check`, `verify`, `show`, `report`, `export`, `curve`, `soonest`, `whatif`, `order`, `batch`, `import_table` and `explain`. What `clap` is proved to do with
//! them says what any words ask for.
//!
//! Proved: without words, with `cpm`, and with `cpm` and a word that does not begin with a hyphen or is a hyphen alone,
//! `cpm` is asked for, of standard input or of the file with that path; with `plan` or `prove` and two paths, `check`
//! and three, and `verify` and four, that command of these files, `plan` on one thread and `verify` without a limit; with
//! `verify` and three, that command of a bound;
//! with `--workers` and a number from 0 to 64 after the two paths, `plan` by a crew of that many workers. In these
//! cases only memory can fail. A path here is a word that is not empty and does not begin with a hyphen. For any other
//! words `asked` answers what `clap` is proved to find, or refuses with the kind of error that it is proved to give:
//! `plan` asks for a crew exactly if `clap` finds one of the six options, and a number that it finds and that is in
//! range is that of the crew or of the memory; `show`, `report`, `export`, `curve`, `soonest`, `whatif`, `order`, `batch`, `import` and `explain` ask for what their
//! words and flags say (`IsToolOf`); nothing is told of faults exactly if it finds `--quiet`, and else all exactly if it
//! finds `--explain`; JSON is asked for exactly if it finds `--json`. No crew has more than 64
//! workers or 1,000,000,000,000 turns, and no more than 1,048,576 MiB are asked for. Tested alone, over the built
//! program: the texts of help, of the version and of errors.
#![tactic(auto)]

mod batch_words;
mod command_line;
mod commands;
mod most;
mod options;
mod request;
mod table;
mod table_requests;
mod table_words;
mod tool_words;
mod tools;
mod verify_words;

pub use command_line::asked;
pub use commands::command_list;
pub use request::{
    BoundFiles, CrewOptions, Dates, ExportWords, Look, Memory, NamedNet, OrderFiles, PlanFiles,
    ProofFiles, ReportWords, Request, Source, Task, Telling, Terms, Tool, WhatIfWords,
};
pub use table_requests::{BatchWords, TableWords};
