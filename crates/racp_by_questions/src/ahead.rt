//! What the asker is told of questions that come next.

ghost use Rattle.std.specs.Prelude.{◌≡◌, IfOk, IfSome, length};
ghost use Rattle.racp_model.specs.Formed.{IsFormed};
ghost use Rattle.racp_by_questions.specs.Searched.{AreSpans, IsKnown, IsSpan, IsSubject};

use crate::cut::cut;
use crate::known::Known;
use crate::span::{Span, halved, widest};
use crate::subject::Subject;
use racp_candidates::AnySeries;
use racp_model::{Capacities, Question};
use racp_questions::Asker;
use std::alloc::AllocError;
use std::collections::VecDeque;

/// How many questions the asker is told that come next.
const MOST_FORESEEN: usize = 7;

/// How often a box is halved at most to find what is asked of it first.
const MOST_HALVINGS: usize = 64;

/// Tells the asker what is asked for next as long as each box is refuted: what is asked of the last boxes that are
/// pending first, as they would be cut now.
pub(crate) fn foresee<A: Asker<AnySeries>>(
    subject: &Subject,
    known: &Known,
    pending: &Vec<Span>,
    asker: &mut A,
) -> Result<(), AllocError>
    requires named { A.about asker.old subject.now.net.now }
    requires subject { IsSubject subject.now }
    requires known { IsKnown subject.now known.now }
    requires pending { AreSpans subject.now pending.now.items }
    ensures network { A.about asker.new subject.now.net.now }
    ensures answered { A.answered asker.new ≡ A.answered asker.old }
{
    let mut ahead = VecDeque::new(subject.alloc);
    for back in 0..pending.len().min(MOST_FORESEEN) {
        let span = &pending[pending.len() - 1 - back];
        if let Some(question) = first_question(subject, known, span)? {
            ahead.push_back(question)?;
        }
    }
    asker.foresee(subject.net, ahead);
    Ok(())
}

/// What is asked of a box first, as it would be cut now. If its high vector is known to be enough, that is what is
/// asked of its half with fewer units. `None` if nothing is asked, or none was found within this many halvings.
fn first_question(
    subject: &Subject,
    known: &Known,
    span: &Span,
) -> Result<Option<Question>, AllocError>
    requires subject { IsSubject subject.now }
    requires known { IsKnown subject.now known.now }
    requires span { IsSpan subject.now span.now }
    ensures { IfOk result (λ question. IfSome question (IsFormed subject.now.net.now)) }
{
    let mut part = span.copy()?;
    for _halving in 0..MOST_HALVINGS {
        let Some(high) = cut(
            subject.alloc,
            subject.net,
            subject.order,
            known,
            &part.low,
            &part.high,
        )?
        else {
            // Dropped here once, not at each way out.
            drop(part);
            return Ok(None);
        };
        if !known.is_enough(&high) {
            // Dropped here once, not at each way out.
            drop(part);
            return question_unless_refuted(subject, known, high);
        }
        let Some(k) = widest(subject.order, &part.low, &high) else {
            // Dropped here once, not at each way out.
            drop(part);
            return Ok(None);
        };
        let (below, _) = halved(part, high, k)?;
        part = below;
    }
    Ok(None)
}

/// The question about a vector, unless it is at most a refuted one.
fn question_unless_refuted(
    subject: &Subject,
    known: &Known,
    units: Capacities,
) -> Result<Option<Question>, AllocError>
    requires subject { IsSubject subject.now }
    requires known { IsKnown subject.now known.now }
    requires units { length units ≡ subject.now.net.now.resources }
    ensures { IfOk result (λ question. IfSome question (IsFormed subject.now.net.now)) }
{
    if known.refutes(&units) {
        return Ok(None);
    }
    Ok(Some(Question {
        capacities: units,
        window: subject.root.copy()?,
    }))
}
