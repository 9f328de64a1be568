//! The program `racp`: runs the command that the words of its command line name.
//!
//! It plans the capacities of a project.
//!
//! - `racp plan NET ORDER` prints the cheapest capacities under which the project ends in time, and the least starts.
//! - `racp prove NET ORDER` prints a certificate that no capacities before those of the plan are enough.
//! - `racp check NET ORDER PLAN` says whether a plan is right, whoever made it.
//! - `racp verify NET ORDER PLAN PROOF` says whether a text is such a certificate, whoever made it, and
//!   `racp verify NET ORDER PROOF` what each plan costs at least, as a text shows.
//! - `racp show NET ORDER PLAN` draws a plan.
//! - `racp report NET ORDER PLAN` writes a page about a plan.
//! - `racp export NET ORDER PLAN --to FORMAT --calendar FILE` writes a plan for other programs.
//! - `racp curve NET ORDER` says what each deadline costs.
//! - `racp soonest NET ORDER` prints the plan that ends as soon as the units that there are admit.
//! - `racp whatif NET ORDER` says what becomes of an order if one term is changed.
//! - `racp order NET` writes an order.
//! - `racp batch NET.. --factors F,..` writes a table of what networks cost with deadlines.
//! - `racp import FILE.. --out PROJECT` makes a network of tables of tasks.
//! - `racp cpm NET` prints the critical length and the early starts.
//! - `racp explain` says what faults mean.
//!
//! What the commands do is proved in racp_cli, over any readers and any writer. racp_search_commands, racp_plan_commands and
//! racp_input_commands hand them files and standard streams, which racp_host opens. This crate calls the one that the words
//! name, and ends with the status.
//!
//! ```text
//! racp plan b.sm b3.toml             what examples/b3.plan has                    status 0
//! racp plan a.sm a2.toml             impossible critical 3 deadline 2             status 3
//! racp plan a.sm b3.toml             refused order 6 Count                        status 5
//! racp check a.sm a4.toml a4.plan    ok                                           status 0
//! racp plan a.sm                     nothing; standard error has what is wrong    status 2
//! ```
//!
//! Each input is read whole before its bytes are handed to racp_cli, so that racp_explain can tell on standard error what
//! is wrong with them: in one line, in several with `--explain`, and not at all with `--quiet`. A file with the path `-` is
//! standard input.
//!
//! Files are opened in the order of the words, before the first is read; those of `batch` and `import` one after another.
//! A file that cannot be opened counts as a read that failed, and is a row of the table of `batch`. Answers go to
//! standard output, and so do help and the version. Words that are refused, a file or a stream that failed, and lack of
//! memory for the words or the inputs are told on standard error. If nothing can be written there, the status alone
//! tells.
//!
//! Proved: `run::status` answers a status that some answer or some reason has, and racp_host which status goes with which reason.
//! Not proved, and tested over the built program: that each command reads its own files in their order, that the bytes of files and of standard input are
//! those that racp_cli is handed, which stream each text goes to, which status goes with which words, and that what is told
//! changes neither standard output nor the status. Trusted: the toolchain, the C library and the machine.
#![tactic(auto)]

mod commands;
mod explain;
mod run;

use std::io::IsTerminal;
use std::process::ExitCode;

fn main(rt: HostRuntime) -> ExitCode {
    let terminals = run::Terminals {
        input: rt.stdin().is_terminal(),
        output: rt.stdout().is_terminal(),
        errors: rt.stderr().is_terminal(),
    };
    ExitCode::from(run::status(&rt, terminals))
}
