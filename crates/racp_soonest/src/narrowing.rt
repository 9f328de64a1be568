//! A span of deadlines, made narrower.

ghost use Rattle.std.specs.Prelude.{◌<◌, ◌≤◌, ℕ, IfNone, IfSome};
ghost use Rattle.racp_model.specs.Project.{Project};
ghost use Rattle.racp_model.specs.Terms.{Terms};
ghost use Rattle.racp_soonest.specs.Soonest.{IsSpan};
ghost use Rattle.racp_soonest.specs.Steps.{IsBeforeKnown, IsClosed, IsTried, room};

use crate::soonest::Span;
use crate::trying::Trial;

/// The deadline to be tried next, if the span is open: the last one, until a plan is known; then one in the middle.
pub(crate) fn next_of(span: Span, last: u32) -> Option<u32>
    requires known { IfSome span.known (λ known. known ≤ last) }
    ensures some { IfSome result (λ deadline. (span.least ≤ deadline) × (deadline ≤ last)) }
    ensures sooner { IfSome result (IsBeforeKnown span.known) }
    ensures none { IfNone result (IsClosed span last) }
{
    match span.known {
        None => { if span.least <= last { Some(last) } else { None } }
        Some(known) => {
            if span.least < known {
                Some(span.least + (known - span.least) / 2)
            } else {
                None
            }
        }
    }
}

/// The span after a deadline of it was tried.
pub(crate) fn after(span: Span, deadline: u32, tried: Trial) -> Span
    requires { deadline ≤ 10000000 }
    ensures room { (p : Project) (terms : Terms) (last : ℕ) → IsTried p terms deadline tried → span.least ≤ deadline → deadline ≤ last
        → IsBeforeKnown span.known deadline → room result last < room span last }
    ensures span { (p : Project) (terms : Terms) → IsSpan p terms span → IsTried p terms deadline tried → deadline ≤ terms.deadline
        → IsSpan p terms result }
{
    match tried {
        Trial::Fits(end) => Span {
            least: span.least,
            known: Some(end),
        },
        Trial::NoneFits => Span {
            least: deadline + 1,
            known: span.known,
        },
    }
}
