//! What is needed above the ceilings of an order that leave no plan.

ghost use Rattle.racp_model.specs.Terms.{AreTermsOf};

use racp_desk::Open;
use racp_explain::{Input as Text, order_cause};
use racp_found::Unheard;
use racp_host::limit::Limit;
use racp_host::machine::Crewed;
use racp_lexfix::Crew;
use racp_model::Network;
use racp_prices::{Order, read_order};
use racp_sm::read_sm;
use racp_whatif::{Need, Outcome, outcome_by_crew};
use std::alloc::{AllocError, Global};
use std::time::Duration;

/// How the line of a cause begins that tells what is there.
const FOUND: &str = "racp: there: ";

/// How many jobs of a need are named at most.
const MOST_NAMED: usize = 8;

/// Why there is no plan for these texts, and which units are needed above a ceiling, if that is seen without a search.
///
/// # Errors
///
/// Memory was refused.
pub(crate) fn cause_of<R: Crewed>(
    rt: &R,
    net: &Text<'_>,
    order: &Text<'_>,
) -> Result<String, AllocError> {
    let cause = order_cause(rt.alloc(), net, order)?;
    match need_in(rt, net.bytes, order.bytes) {
        Some(need) => with_need(rt.alloc(), &cause, &need),
        None => Ok(cause),
    }
}

/// The need above a ceiling that is seen of these texts.
fn need_in<R: Crewed>(rt: &R, net: &[u8], order: &[u8]) -> Option<Need> {
    let network = read_sm(rt.alloc(), net).ok()?;
    let order = read_order(
        rt.alloc(),
        order,
        network.resource_count(),
        network.job_count(),
    )
    .ok()?;
    need_of(rt, &network, &order)
}

/// The need above a ceiling that is seen of an order. Planning stops before it searches.
fn need_of<R: Crewed>(rt: &R, net: &Network, order: &Order) -> Option<Need>
    requires { AreTermsOf net.now order.now }
{
    let until = Limit::of(rt, Some(Duration::ZERO), None, None);
    let crew = Crew {
        workers: 1,
        turns: 1,
        memory: 1,
        gate: &Open,
        stop: &until,
        observer: &Unheard,
    };
    let outcome = outcome_by_crew(rt, rt.alloc(), net, order, &crew);
    // Dropped here once, not at each way out.
    drop(until);
    match outcome {
        Ok(Outcome::NoneEnough { need }) => need,
        _ => None,
    }
}

/// A cause with the words for a need behind what is there.
fn with_need(alloc: Global, cause: &str, need: &Need) -> Result<String, AllocError> {
    let words = words_of(alloc, need)?;
    let mut text = String::new(alloc);
    for line in cause.lines() {
        text.push_str(line)?;
        if line.starts_with(FOUND) {
            write!(text, "; {words}")?;
        }
        text.push('\n')?;
    }
    Ok(text)
}

/// The words for a need: how many units of which resource, when, and by which jobs, or by how many if they are more than eight.
fn words_of(alloc: Global, need: &Need) -> Result<String, AllocError> {
    let (units, resource) = (need.units, need.place.saturating_add(1));
    let mut text = format!(in alloc; "{units} of resource {resource} needed")?;
    if need.jobs.len() > 1 {
        let (from, until) = (need.from, need.until);
        write!(text, " between {from} and {until}")?;
    }
    push_jobs(&mut text, &need.jobs)?;
    Ok(text)
}

/// Adds by which jobs.
fn push_jobs(text: &mut String, jobs: &[u32]) -> Result<(), AllocError> {
    let count = jobs.len();
    if count > MOST_NAMED {
        return write!(text, " by {count} jobs");
    }
    for (place, job) in jobs.iter().enumerate() {
        let before = if place == 0 { " by" } else { "," };
        write!(text, "{before} job {job}")?;
    }
    Ok(())
}
