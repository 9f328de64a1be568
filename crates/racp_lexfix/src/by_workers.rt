//! From the texts of a network and an order to the text of the answer, by workers.

ghost use Rattle.std.specs.Prelude.{◌≡◌, ◌≤◌, ℕ, List, Ok, IfOk, IfErr};
ghost use Rattle.racp_model.specs.Formed.{AreFormed};
ghost use Rattle.racp_candidates.specs.AnySeries.{any_questions};
ghost use Rattle.racp_sm.specs.Reading.{IsReading};
ghost use Rattle.racp_desk.specs.Closing.{IsRunClosed};
ghost use Rattle.racp_lexfix.specs.Answers.{IsAnswer};
ghost use Rattle.racp_found.specs.Told.{MayBeTold};
ghost use Rattle.racp_lexfix.specs.Printing.{IsAnswerPrinted, IsCrowdPrinting, IsCrowdStop, MayBeToldOf, MayBeToldOfOrder};

use crate::answer::Answer;
use crate::planning::plan_after;
use crate::printed::{Printed, Refusal, answer_printed};
use crate::searches::by_searches;
use racp_by_questions::{Crowd, Effort, OfTurns, PlanStop};
use racp_candidates::AnySeries;
use racp_cutset::MemoryLimit;
use racp_desk::{Closed, DeskFault, Gate, Records, RunBounds, RunLimits};
use racp_found::{News, Observer};
use racp_model::{Network, OfNetwork, Stop};
use racp_prices::read_order;
use racp_questions::Leeway;
use racp_root::Task;
use racp_sm::read_sm;
use std::alloc::Global;
use std::marker::Brand;
use std::sync::Wait;
use std::thread::Threads;

/// So many turns are no bound.
const MOST_TURNS: u64 = 1000000000000;

/// How a plan is made by workers.
#[derive(Drop)]
pub struct Crew<'a, G: Gate, P: Stop, O: Observer> {
    /// How many workers there are, 1 to 64.
    pub workers: usize,
    /// How many pieces they take at most, up to 1,000,000,000,000.
    pub turns: u64,
    /// How many mebibytes the clauses of the search that learns, and after it all records of refuted nodes, take at most,
    /// about, up to 1,048,576. Where there is no room for a further one, some give way, and the answer stays the same.
    pub memory: usize,
    /// The gate that a worker enters before it searches a piece.
    pub gate: &'a G,
    /// Whether planning is to stop: asked before each node, and every few conflicts of the search that learns.
    pub stop: &'a P,
    /// Who is told how far planning has come.
    pub observer: &'a O,
    pub ghost workers_some: { 1 ≤ workers },
    pub ghost workers_few: { workers ≤ 64 },
    pub ghost turns_few: { turns ≤ 1000000000000 },
    pub ghost memory_few: { memory ≤ 1048576 },
}

impl<'a, G: Gate, P: Stop, O: Observer> Crew<'a, G, P, O> {
    /// How much planning may search by itself: as much as it likes, if there are so many turns that they are no bound, and
    /// else nothing, so that all work is counted by turns.
    pub fn leeway(&self) -> Leeway {
        if self.turns < MOST_TURNS {
            return Leeway::none();
        }
        Leeway {
            conflicts: u64::MAX,
            bytes: (self.memory as u64).saturating_mul(1 << 20),
        }
    }
}

/// The answer to the texts of a network and an order, made by such workers: what `plan_crowd` answers, whose records take
/// at most 1,024 mebibytes.
///
/// # Errors
///
/// As with `plan_crowd`.
pub fn plan_crowd_by<G: Gate + Sync, P: Stop + Sync, O: Observer, R: Threads + Wait + Sync>(
    rt: &R,
    alloc: Global,
    net_bytes: &[u8],
    order_text: &[u8],
    crew: Crew<'_, G, P, O>,
) -> Result<(Printed, Effort), Refusal>
    requires heard { MayBeToldOf net_bytes.now order_text.now O.may_hear }
    ensures { IsCrowdPrinting crew.entry.turns (P.is_quiet crew.entry.stop.now) net_bytes.now order_text.now result }
{
    let net = read_sm(alloc, net_bytes)?;
    answer_order_by(rt, alloc, &net, order_text, &crew)
}

/// The answer to the text of an order for a network, made by workers, and how much work they did.
fn answer_order_by<G: Gate + Sync, P: Stop + Sync, O: Observer, R: Threads + Wait + Sync>(
    rt: &R,
    alloc: Global,
    net: &Network,
    order_text: &[u8],
    crew: &Crew<'_, G, P, O>,
) -> Result<(Printed, Effort), Refusal>
    requires heard { MayBeToldOfOrder net.now order_text.now O.may_hear }
    ensures { (text : List ℕ) → IsReading text (Ok net.now) →
        IsCrowdPrinting crew.now.turns (P.is_quiet crew.now.stop.now) text order_text.now result }
{
    let order = read_order(alloc, order_text, net.resource_count(), net.job_count())?;
    let task = Task {
        alloc,
        net,
        order: &order,
    };
    let printed = answer_plan_by(rt, &task, crew);
    // Dropped here once, not at each way out.
    drop(order);
    Ok(printed?)
}

/// The text of the plan of an order, or of why there is none, made by workers, and how much work they did.
fn answer_plan_by<G: Gate + Sync, P: Stop + Sync, O: Observer, R: Threads + Wait + Sync>(
    rt: &R,
    task: &Task,
    crew: &Crew<'_, G, P, O>,
) -> Result<(Printed, Effort), PlanStop>
    requires heard { MayBeTold task.now.net.now task.now.order.now O.may_hear }
    ensures answer { IfOk result (λ done. IsAnswerPrinted task.now.net.now task.now.order.now done.0.text.items
        done.0.status) }
    ensures stop { IfErr result (IsCrowdStop crew.now.turns (P.is_quiet crew.now.stop.now) task.now.net.now
        task.now.order.now) }
{
    let (answer, effort) = plan_by::<Brand, Brand, G, P, O, R>(rt, task, crew)?;
    let printed = answer_printed(task.alloc, task.order, &answer);
    // Dropped here once, not at each way out.
    drop(answer);
    Ok((printed?, effort))
}

/// The plan of an order, or why there is none, made by these workers: the answer of `plan_alone`, as a value. Their
/// observer is told for which deadline it is made, and then how far planning has come.
///
/// # Errors
///
/// No turn is left, or the stop was asked for, which it never is where it is quiet; memory was refused; or a worker could
/// not be started.
pub fn plan_by_crew<G: Gate + Sync, P: Stop + Sync, O: Observer, R: Threads + Wait + Sync>(
    rt: &R,
    task: &Task,
    crew: &Crew<'_, G, P, O>,
) -> Result<Answer, PlanStop>
    requires heard { MayBeTold task.now.net.now task.now.order.now O.may_hear }
    ensures answer { IfOk result (IsAnswer task.now.net.now task.now.order.now) }
    ensures stop { IfErr result (IsCrowdStop crew.now.turns (P.is_quiet crew.now.stop.now) task.now.net.now
        task.now.order.now) }
{
    let (answer, _) = plan_by::<Brand, Brand, G, P, O, R>(rt, task, crew)?;
    Ok(answer)
}

/// The plan of an order, or why there is none, made by workers, and how much work they did: by runs of a desk over one
/// board of records. The network is the one that `N` names; the turns, and whether the stop is quiet, are as `M` says.
fn plan_by<
    N: OfNetwork + Send + Sync,
    M: OfTurns,
    G: Gate + Sync,
    P: Stop + Sync,
    O: Observer,
    R: Threads + Wait + Sync,
>(rt: &R, task: &Task, crew: &Crew<'_, G, P, O>) -> Result<(Answer, Effort), PlanStop>
    requires named { task.now.net.now ≡ N.network }
    requires turns { crew.now.turns ≡ M.turns }
    requires quiet { P.is_quiet crew.now.stop.now ≡ M.quiet }
    requires heard { MayBeTold task.now.net.now task.now.order.now O.may_hear }
    ensures answer { IfOk result (λ done. IsAnswer task.now.net.now task.now.order.now done.0) }
    ensures stop { IfErr result (IsCrowdStop M.turns M.quiet task.now.net.now task.now.order.now) }
{
    let (alloc, net, order) = (task.alloc, task.net, task.order);
    crew.observer.hear(News::Deadline(order.deadline));
    let limit = MemoryLimit {
        mebibytes: crew.memory,
        workers: crew.workers,
    };
    let records: Records<N> = Records::within(alloc, net, limit)?;
    let crowd: Crowd<'_, N, M, P, &O, _> = Crowd::new(
        crew.workers,
        crew.turns,
        crew.observer,
        |series: AnySeries, limits: RunLimits| -> Result<Closed, DeskFault>
            requires { (net.now ≡ N.network) × AreFormed net.now (any_questions series) }
            ensures { IfOk result (IsRunClosed net.entry.now (any_questions series) limits.turns
                (P.is_quiet crew.entry.now.stop.now)) }
        {
            let bounds = RunBounds {
                limits,
                gate: crew.gate,
                stop: crew.stop,
            };
            records.run(rt, alloc, net, series, &bounds)
        },
    );
    let mut crowd = crowd.with_search(crew.leeway(), crew.stop);
    let optimum = by_searches(rt, task, crew.workers, &crowd)?;
    match plan_after(task, optimum, &mut crowd, &mut None) {
        Ok(answer) => Ok((answer, crowd.effort())),
        Err(stop) => Err(stop),
    }
}
