//! The least starts: the jobs are fixed one after another at the least start with which the others can still be placed.

ghost use Rattle.std.specs.Prelude.{◌≡◌, ◌+◌, ◌<◌, ◌≤◌, IfOk, IfErr, All, length, slice_index, set};
ghost use Rattle.racp_model.specs.Limits.{most_bound, most_start};
ghost use Rattle.racp_model.specs.Formed.{HasBounds};
ghost use Rattle.racp_model.specs.Path.{IsEarly};
ghost use Rattle.racp_model.specs.Plan.{IsLeast};
ghost use Rattle.racp_model.specs.Terms.{IsLexBefore};
ghost use Rattle.racp_model.specs.Window.{Answers, IsYes};
ghost use Rattle.racp_questions.specs.FirstYes.{MayGiveUp};
ghost use Rattle.racp_candidates.specs.Questions.{window_at};
ghost use Rattle.racp_by_questions.specs.Fixing.{HasSchedule, IsSettledEarly, IsLeastStart};

use racp_candidates::{AnySeries, Starts1};
use racp_cpm::settle_early;
use racp_model::{Capacities, Network, Starts, Window};
use racp_questions::{AskStop, Asker, First};
use std::alloc::{AllocError, Global};

/// The lexicographically least starts in the window that keep precedence and the capacities. Some starts do.
///
/// # Errors
///
/// The asker gave up, or memory was refused.
pub(crate) fn least_starts<A: Asker<AnySeries>>(
    alloc: Global,
    net: &Network,
    capacities: &Capacities,
    root: &Window,
    asker: &mut A,
) -> Result<Starts, AskStop>
    requires named { A.about asker.old net.now }
    requires capacities { length capacities.now ≡ net.now.resources }
    requires root { HasBounds net.now root.now }
    requires yes { IsYes net.now capacities.now root.now }
    ensures network { A.about asker.new net.now }
    ensures least { IfOk result (IsLeast IsLexBefore (Answers net.now capacities.now root.now)) }
    ensures no_fewer { A.answered asker.old ≤ A.answered asker.new }
    ensures stop { IfErr result (MayGiveUp (A.may_stop asker.new) (A.may_want_thread asker.new)) }
{
    let mut window = root.copy()?;
    for j in 0..net.job_count() {
        window = settled(net, window);
        let start = least_start(alloc, net, capacities, &window, j, asker)?;
        window = fixed(window, j, start);
    }
    let (starts, _) = window.into_bounds();
    Ok(starts)
}

/// The window with its early starts as lower bounds.
fn settled(net: &Network, window: Window) -> Window
    requires bounds { HasBounds net.now window }
    requires schedule { HasSchedule net.now window }
    ensures { IsSettledEarly net.now window result }
{
    prove!(window.upper().len() == net.job_count());
    let (lower, upper) = window.into_bounds();
    Window::new(early_of(net, lower), upper)
}

/// The early starts above these lower bounds, in their memory.
fn early_of(net: &Network, lower: Starts) -> Starts
    requires places { length lower ≡ length net.now.jobs }
    requires small { All (λ x. x ≤ most_bound) lower }
    ensures { IsEarly net.now (slice_index lower) result }
{
    let mut list = lower.into_vec();
    settle_early(net, &mut list);
    Starts::new(list)
}

/// The least start of a job, by place from 0, with which the others can still be placed in the window.
fn least_start<A: Asker<AnySeries>>(
    alloc: Global,
    net: &Network,
    capacities: &Capacities,
    window: &Window,
    j: usize,
    asker: &mut A,
) -> Result<u32, AskStop>
    requires named { A.about asker.old net.now }
    requires capacities { length capacities.now ≡ net.now.resources }
    requires window { HasBounds net.now window.now }
    requires job { j < length net.now.jobs }
    requires yes { IsYes net.now capacities.now window.now }
    ensures network { A.about asker.new net.now }
    ensures least { IfOk result (IsLeastStart net.now capacities.now window.now j) }
    ensures no_fewer { A.answered asker.old ≤ A.answered asker.new }
    ensures stop { IfErr result (MayGiveUp (A.may_stop asker.new) (A.may_want_thread asker.new)) }
{
    let values = Starts1::new(alloc, capacities, window, j)?;
    match asker.first(net, AnySeries::Starts1(values))? {
        First::Yes { index, .. } => Ok(start_at(window, j, index)),
        First::None => unreachable!(),
    }
}

/// The start at an index, from 0, among those of one job from its lower to its upper bound.
fn start_at(window: &Window, j: usize, index: usize) -> u32
    requires lower { j < length window.now.lower }
    requires upper { j < length window.now.upper }
    requires within { slice_index window.now.lower j + index ≤ slice_index window.now.upper j }
    ensures { result ≡ slice_index window.now.lower j + index }
{
    prove!(index <= window.upper()[j] as usize);
    window.lower()[j] + index as u32
}

/// The window with both bounds of a job at one start.
fn fixed(window: Window, j: usize, start: u32) -> Window
    requires lower { j < length window.lower }
    requires upper { j < length window.upper }
    requires small { start ≤ most_start }
    ensures { result ≡ window_at window j start }
{
    let (lower, upper) = window.into_bounds();
    Window::new(with(lower, j, start), with(upper, j, start))
}

/// These starts with another one of one job.
fn with(starts: Starts, j: usize, start: u32) -> Starts
    requires { j < length starts }
    ensures { result ≡ set starts j start }
{
    let mut list = starts.into_vec();
    list[j] = start;
    Starts::new(list)
}
