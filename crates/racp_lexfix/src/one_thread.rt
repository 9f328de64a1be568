//! From the texts of a network and an order to the text of the answer, on the calling thread.

ghost use Rattle.std.specs.Prelude.{◌≡◌, ◌≤◌, ℕ, List, Ok, IfOk, IfErr};
ghost use Rattle.racp_sm.specs.Reading.{IsReading};
ghost use Rattle.racp_lexfix.specs.Answers.{IsAnswer};
ghost use Rattle.racp_lexfix.specs.Printing.{IsAnswerPrinted, IsPrinting};
ghost use Rattle.racp_by_questions.specs.declared.stop.PlanStop.TheVariants.{Memory};

use crate::answer::Answer;
use crate::planning::plan;
use crate::printed::{Printed, Refusal, answer_printed};
use racp_by_questions::{Alone, PlanStop};
use racp_model::{Network, OfNetwork};
use racp_prices::read_order;
use racp_root::Task;
use racp_sm::read_sm;
use std::alloc::Global;
use std::marker::Brand;

/// The answer to the texts of a network and an order, as `plan_alone` gives it. The clauses of the search that learns, and
/// after it the records of refuted nodes, take at most about so many mebibytes, up to 1,048,576; those of `plan_alone` take
/// 1,024. Where there is no room for a further one, some give way, and the answer stays the same.
///
/// # Errors
///
/// As with `plan_alone`.
pub fn plan_alone_within(
    alloc: Global,
    net_bytes: &[u8],
    order_text: &[u8],
    mebibytes: usize,
) -> Result<Printed, Refusal>
    requires { mebibytes ≤ 1048576 }
    ensures { IsPrinting net_bytes.now order_text.now result }
{
    let net = read_sm(alloc, net_bytes)?;
    answer_order(alloc, &net, order_text, mebibytes)
}

/// The answer to the text of an order for a network, made on the calling thread.
fn answer_order(
    alloc: Global,
    net: &Network,
    order_text: &[u8],
    mebibytes: usize,
) -> Result<Printed, Refusal>
    requires { mebibytes ≤ 1048576 }
    ensures { (text : List ℕ) → IsReading text (Ok net.now) → IsPrinting text order_text.now result }
{
    let order = read_order(alloc, order_text, net.resource_count(), net.job_count())?;
    let task = Task {
        alloc,
        net,
        order: &order,
    };
    let printed = answer_plan(&task, mebibytes);
    // Dropped here once, not at each way out.
    drop(order);
    Ok(printed?)
}

/// The text of the plan of an order, or of why there is none, made on the calling thread.
fn answer_plan(task: &Task, mebibytes: usize) -> Result<Printed, PlanStop>
    requires memory { mebibytes ≤ 1048576 }
    ensures answer { IfOk result (λ printed. IsAnswerPrinted task.now.net.now task.now.order.now printed.text.items
        printed.status) }
    ensures stop { IfErr result (λ stop. stop ≡ Memory) }
{
    let answer = plan_named::<Brand>(task, mebibytes)?;
    let printed = answer_printed(task.alloc, task.order, &answer);
    // Dropped here once, not at each way out.
    drop(answer);
    Ok(printed?)
}

/// The plan of an order, or why there is none, made on the calling thread. The network is the one that `N` names.
fn plan_named<N: OfNetwork>(task: &Task, mebibytes: usize) -> Result<Answer, PlanStop>
    requires named { task.now.net.now ≡ N.network }
    requires memory { mebibytes ≤ 1048576 }
    ensures answer { IfOk result (IsAnswer task.now.net.now task.now.order.now) }
    ensures stop { IfErr result (λ stop. stop ≡ Memory) }
{
    let mut alone: Alone<N> = Alone::within(task.alloc, task.net, mebibytes)?;
    let planned = plan(task.alloc, task.net, task.order, &mut alone);
    // Dropped here once, not at each way out.
    drop(alone);
    planned
}
