//! What workers tell of one question.

ghost use Rattle.std.specs.Prelude.{◌≡◌, min, false, IfOk};
ghost use Rattle.racp_model.specs.Formed.{AreFormed, IsFormed};
ghost use Rattle.racp_candidates.specs.AnySeries.{any_questions};
ghost use Rattle.racp_desk.specs.Closing.{IsRunClosed};

use crate::desk::stops::AtCall;
use racp_by_questions::{Crowd, OfTurns};
use racp_candidates::AnySeries;
use racp_cutset::Board;
use racp_desk::{Closed, DeskFault, Open, RunLimits, run};
use racp_found::Unheard;
use racp_model::{Network, OfNetwork, Question};
use racp_questions::{AskStop, Asker, Probe};
use racp_samples::{SampleFault, crossed, question, root_window};
use std::alloc::{AllocError, Global};
use std::marker::Brand;
use std::sync::Wait;
use std::thread::Threads;

/// What is told of a question.
#[derive(Clone, Copy, PartialEq)]
enum Told {
    Yes,
    No,
    Open,
    Stopped,
    Refused,
}

fn told_by(probe: Result<Probe, AskStop>) -> Told {
    match probe {
        Ok(Probe::Yes(_)) => Told::Yes,
        Ok(Probe::No) => Told::No,
        Ok(Probe::Open) => Told::Open,
        Err(AskStop::Stopped { reached: _ }) => Told::Stopped,
        Err(AskStop::Memory | AskStop::NoThread) => Told::Refused,
    }
}

/// Units of the second resource in a question of the project beside one of the first, the bound on its nodes, how many
/// turns there are, whether a stop is asked for at each call, and what is told.
struct Row {
    second: u32,
    most: Option<u64>,
    turns: u64,
    stops: bool,
    told: Told,
}

const YES: Row = Row {
    second: 2,
    most: None,
    turns: 1_000,
    stops: false,
    told: Told::Yes,
};

const ROWS: &[Row] = &[
    YES,
    Row {
        second: 1,
        told: Told::No,
        ..YES
    },
    Row {
        most: Some(64_000),
        ..YES
    },
    Row {
        most: Some(0),
        told: Told::Open,
        ..YES
    },
    Row {
        turns: 0,
        told: Told::Stopped,
        ..YES
    },
    Row {
        stops: true,
        told: Told::Stopped,
        ..YES
    },
    Row {
        most: Some(64_000),
        stops: true,
        told: Told::Stopped,
        ..YES
    },
];

/// Whether two workers tell of a question what the row says, and took a turn if that is a yes or infeasible.
fn tell<N: OfNetwork + Send + Sync, M: OfTurns, R: Threads + Wait + Sync>(
    rt: &R,
    alloc: Global,
    net: &Network,
    board: &Board<N>,
    question: Question,
    row: &Row,
) -> bool
    requires named { net.now ≡ N.network }
    requires named_turns { min row.now.turns 1000 ≡ M.turns }
    requires unquiet { M.quiet ≡ false }
    requires formed { IsFormed net.now question }
{
    let turns = row.turns.min(1_000);
    let stop = &AtCall::each(row.stops);
    let mut crowd: Crowd<'_, N, M, AtCall, Unheard, _> = Crowd::new(
        2,
        turns,
        Unheard,
        |series: AnySeries, limits: RunLimits| -> Result<Closed, DeskFault>
            requires { (net.now ≡ N.network) × AreFormed net.now (any_questions series) }
            ensures { IfOk result (IsRunClosed net.entry.now (any_questions series) limits.turns false) }
        {
            let RunLimits {
                workers,
                quantum,
                turns,
            } = limits;
            run(
                rt, alloc, net, series, workers, quantum, turns, board, &Open, stop,
            )
        },
    );
    let told = told_by(crowd.probe(net, question, row.most));
    let took = crowd.left() < turns;
    told == row.told && (took || !matches!(told, Told::Yes | Told::No))
}

/// The question of this many units of the second resource beside one of the first, by the deadline 3.
fn asked(alloc: Global, net: &Network, second: u32) -> Result<Question, SampleFault>
    ensures { IfOk result (IsFormed net.now) }
{
    let root = root_window(alloc, net, 3)?;
    question(alloc, net, &[1, second], root.lower(), root.upper())
}

/// Whether a row holds.
fn holds<N: OfNetwork + Send + Sync, R: Threads + Wait + Sync>(
    rt: &R,
    alloc: Global,
    net: &Network,
    row: &Row,
) -> bool
    requires { net.now ≡ N.network }
{
    let Ok(board): Result<Board<N>, AllocError> = Board::new(alloc, net) else {
        return false;
    };
    let holds = match asked(alloc, net, row.second) {
        Ok(question) => tell::<N, Brand, R>(rt, alloc, net, &board, question, row),
        Err(_) => false,
    };
    drop(board);
    holds
}

/// Whether a row holds for the six jobs.
fn holds_of_six<R: Threads + Wait + Sync>(rt: &R, alloc: Global, row: &Row) -> bool {
    match crossed(alloc) {
        Ok(net) => holds::<Brand, R>(rt, alloc, &net, row),
        Err(_) => false,
    }
}

#[test]
fn probes_tell(rt: HostRuntime) {
    for (place, row) in ROWS.iter().enumerate() {
        assert!(rt; holds_of_six(&rt, rt.alloc(), row), "row {place}");
    }
}
