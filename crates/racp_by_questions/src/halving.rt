//! The search of a box by halves.

ghost use Rattle.std.specs.Prelude.{◌≡◌, ℕ, None, IfOk, IfErr, length};
ghost use Rattle.racp_model.specs.Formed.{HasBounds};
ghost use Rattle.racp_model.specs.Plan.{IsLeast};
ghost use Rattle.racp_model.specs.Terms.{AreTermsOf, IsBefore};
ghost use Rattle.racp_found.specs.declared.observer.News.TheVariants.{Cost};
ghost use Rattle.racp_questions.specs.FirstYes.{IsProbeStop};
ghost use Rattle.racp_by_questions.specs.Enough.{AreFloorsOf, IsAtMost, IsEnoughWithin, IsLeastCost};
ghost use Rattle.racp_by_questions.specs.Searched.{AreSpans, CostAtLeast, HasAllBelow, IsBetterKnown, IsKnown, IsLeftOf, IsSearched, IsSpan, IsSubject, IsTold};

use crate::ahead::foresee;
use crate::cut::cut;
use crate::known::{Known, Told};
use crate::span::{Span, halved, push_copy, widest};
use crate::subject::Subject;
use crate::task::Task;
use racp_candidates::AnySeries;
use racp_found::News;
use racp_model::Capacities;
use racp_prices::cost_of;
use racp_questions::{AskStop, Asker};

/// How many nodes a question about a box of more than one vector may take.
const MOST_NODES: u64 = 64000;

/// How many nodes a question takes at most before the asker is told what comes next: to find that out takes as long.
const FEW_NODES: u64 = 256;

/// The first vector, by cost and then lexicographically, of those that are within the roofs and with which some starts
/// in the root window fit. All of these are at or above the floors, and the roofs are one of them. Resources stand by place,
/// from 0.
///
/// # Errors
///
/// The asker gave up, or memory was refused.
pub(crate) fn first_enough<A: Asker<AnySeries>>(
    task: &Task,
    floors: &Capacities,
    roofs: &Capacities,
    asker: &mut A,
) -> Result<Capacities, AskStop>
    requires named { A.about asker.old task.now.net.now }
    requires terms { AreTermsOf task.now.net.now task.now.order.now }
    requires root { HasBounds task.now.net.now task.now.root.now }
    requires floors { AreFloorsOf task.now.net.now task.now.root.now floors.now roofs.now }
    requires roofs { IsEnoughWithin task.now.net.now task.now.root.now roofs.now roofs.now }
    requires heard { (least : ℕ) → IsLeastCost task.now.net.now task.now.order.now task.now.root.now roofs.now least →
        A.may_hear (Cost least) }
    ensures network { A.about asker.new task.now.net.now }
    ensures first { IfOk result (IsLeast (IsBefore task.now.order.now)
        (IsEnoughWithin task.now.net.now task.now.root.now roofs.now)) }
    ensures answered { A.answered asker.new ≡ A.answered asker.old }
    ensures stop { IfErr result (IsProbeStop (A.told asker.new) (A.may_stop asker.new) (A.may_want_thread asker.new)) }
{
    let mut known = Known::of(task.alloc, task.net, task.order, roofs)?;
    let whole = Span::of(floors, roofs)?;
    let subject = Subject {
        alloc: task.alloc,
        net: task.net,
        order: task.order,
        root: task.root,
        roofs,
    };
    let mut pending = Vec::new(task.alloc);
    search(&subject, &mut known, whole, &mut pending, u64::MAX, asker)?;
    Ok(known.best)
}

/// Searches a box of vectors: what is then known as the best vector is none that another one of the box, with which
/// some starts fit, stands before. All vectors within the roofs with which some starts fit and that cost less than
/// `rest` are in the box. The asker is told what they cost at least.
fn search<A: Asker<AnySeries>>(
    subject: &Subject,
    known: &mut Known,
    span: Span,
    pending: &mut Vec<Span>,
    rest: u64,
    asker: &mut A,
) -> Result<(), AskStop>
    requires named { A.about asker.old subject.now.net.now }
    requires subject { IsSubject subject.now }
    requires span { IsSpan subject.now span }
    requires known { IsKnown subject.now known.old }
    requires pending { AreSpans subject.now pending.old.items }
    requires rest { HasAllBelow subject.now span rest }
    requires heard { (least : ℕ) → CostAtLeast subject.now least → A.may_hear (Cost least) }
    ensures network { A.about asker.new subject.now.net.now }
    ensures searched { IfOk result (λ _. IsSearched subject.now span known.old known.new) }
    ensures pending { IfOk result (λ _. AreSpans subject.now pending.new.items) }
    ensures answered { A.answered asker.new ≡ A.answered asker.old }
    ensures stop { IfErr result (IsProbeStop (A.told asker.new) (A.may_stop asker.new) (A.may_want_thread asker.new)) }
{
    let Some((high, k)) = cut_and_ask(subject, known, &span, pending, rest, asker)? else {
        return Ok(());
    };
    let (below, above) = halved(span, high, k)?;
    let other = cost_of(subject.net, subject.order, above.low.as_slice());
    let rest_of_below = rest.min(known.cost).min(other);
    push_copy(pending, &above)?;
    search(subject, known, below, pending, rest_of_below, asker)?;
    drop(pending.pop());
    let rest_of_above = rest.min(known.cost);
    search(subject, known, above, pending, rest_of_above, asker)
}

/// Cuts a box, and asks for its high vector: the high numbers that are left and the resource, by place, along which the
/// box is then to be halved. `None` if no vector of the box that stands before the best one is left to be found. The
/// asker is told what all vectors within the roofs, with which some starts fit, cost at least.
fn cut_and_ask<A: Asker<AnySeries>>(
    subject: &Subject,
    known: &mut Known,
    span: &Span,
    pending: &Vec<Span>,
    rest: u64,
    asker: &mut A,
) -> Result<Option<(Capacities, usize)>, AskStop>
    requires named { A.about asker.old subject.now.net.now }
    requires subject { IsSubject subject.now }
    requires span { IsSpan subject.now span.now }
    requires known { IsKnown subject.now known.old }
    requires pending { AreSpans subject.now pending.now.items }
    requires rest { HasAllBelow subject.now span.now rest }
    requires heard { (least : ℕ) → CostAtLeast subject.now least → A.may_hear (Cost least) }
    ensures network { A.about asker.new subject.now.net.now }
    ensures left { IfOk result (IsLeftOf subject.now span.now known.old known.new) }
    ensures answered { A.answered asker.new ≡ A.answered asker.old }
    ensures stop { IfErr result (IsProbeStop (A.told asker.new) (A.may_stop asker.new) (A.may_want_thread asker.new)) }
{
    let (net, order) = (subject.net, subject.order);
    let least = cost_of(net, order, span.low.as_slice()).min(rest);
    asker.hear(News::Cost(least));
    let Some(high) = cut(subject.alloc, net, order, known, &span.low, &span.high)? else {
        return Ok(None);
    };
    let lane = widest(order, &span.low, &high);
    let most = most_nodes(lane);
    let told = ask_about(subject, known, &high, most, pending, asker)?;
    if told.is_refuted() {
        return Ok(None);
    }
    let Some(k) = lane else {
        return Ok(None);
    };
    Ok(Some((high, k)))
}

/// Asks for a vector, over a few nodes at first. If that is open the asker is told what is asked for next, and asked
/// for the vector with its own bound on the nodes.
fn ask_about<A: Asker<AnySeries>>(
    subject: &Subject,
    known: &mut Known,
    units: &Capacities,
    most: Option<u64>,
    pending: &Vec<Span>,
    asker: &mut A,
) -> Result<Told, AskStop>
    requires named { A.about asker.old subject.now.net.now }
    requires subject { IsSubject subject.now }
    requires known { IsKnown subject.now known.old }
    requires units { length units.now ≡ subject.now.net.now.resources }
    requires within { IsAtMost subject.now.net.now units.now subject.now.roofs.now }
    requires pending { AreSpans subject.now pending.now.items }
    ensures network { A.about asker.new subject.now.net.now }
    ensures better { IfOk result (λ _. IsBetterKnown subject.now known.old known.new) }
    ensures told { IfOk result (IsTold subject.now units.now most known.new.best) }
    ensures answered { A.answered asker.new ≡ A.answered asker.old }
    ensures stop { IfErr result (IsProbeStop (A.told asker.new) (A.may_stop asker.new) (A.may_want_thread asker.new)) }
{
    match known.ask(subject, units, Some(FEW_NODES), asker)? {
        Told::Enough => Ok(Told::Enough),
        Told::Refuted => Ok(Told::Refuted),
        Told::Open => {
            foresee(subject, known, pending, asker)?;
            known.ask(subject, units, most, asker)
        }
    }
}

/// How many nodes a question about a box may take: there is no bound if the box has one vector.
fn most_nodes(lane: Option<usize>) -> Option<u64>
    ensures { lane ≡ None → result ≡ None }
{
    match lane {
        Some(_) => Some(MOST_NODES),
        None => None,
    }
}
