//! From which bounds a bound follows by the work that jobs do at some times.

use crate::bound::Bound;
use crate::reasons::{Named, Past, Pile};
use crate::usage_reasons::Span;

/// How many of some times a job runs at least, that takes so long and starts within these bounds.
#[inline]
pub(crate) fn runs_within(span: Span, duration: i64, lower: i64, upper: i64) -> i64 {
    let before = lower.wrapping_add(duration).wrapping_sub(span.from);
    let behind = span.until.wrapping_sub(upper);
    let length = span.until.wrapping_sub(span.from);
    duration.min(length).min(before).min(behind).max(0)
}

/// How many units do so much work at some times.
#[inline]
pub(crate) fn units_for(work: i64, span: Span) -> i64 {
    let length = span.until.wrapping_sub(span.from).max(1);
    work.wrapping_add(length.wrapping_sub(1)).max(0) / length
}

impl Past<'_> {
    /// The units of a resource are at least what the work at some times takes. Of each job as few runs are named as this needs.
    pub(crate) fn explain_energy(&self, bound: Bound, span: Span, pile: &mut Pile) -> Named {
        let k = bound.variable().wrapping_sub(self.problem.jobs);
        let length = span.until.wrapping_sub(span.from).max(1);
        let fewer = bound.value.wrapping_sub(1).wrapping_mul(length);
        let slack = self.work(k, span).wrapping_sub(fewer).wrapping_sub(1);
        let left = self.collect_work(k, span, slack, pile);
        Named {
            resource: k,
            from: span.from,
            until: span.until,
            left: left.max(0) / length,
        }
    }

    /// The least work on a resource at some times.
    fn work(&self, k: usize, span: Span) -> i64 {
        let mut work = 0i64;
        for i in 0..self.problem.jobs {
            let request = self.problem.request(i, k);
            if 0 < request {
                work = work.wrapping_add(request.wrapping_mul(self.runs(i, span)));
            }
        }
        work
    }

    /// How many of some times a job runs at least.
    fn runs(&self, i: usize, span: Span) -> i64 {
        runs_within(span, self.problem.duration(i), self.lower(i), self.upper(i))
    }

    /// How many it does at the root.
    fn runs_at_root(&self, i: usize, span: Span) -> i64 {
        let (lower, upper) = (self.problem.root_lower(i), self.problem.root_upper(i));
        runs_within(span, self.problem.duration(i), lower, upper)
    }

    /// Collects the bounds of jobs that do the work, without what is not needed of it; gives how much is left over.
    fn collect_work(&self, k: usize, span: Span, slack: i64, pile: &mut Pile) -> i64 {
        let mut slack = slack;
        for &job in self.problem.by_request(k) {
            let i = job as usize;
            let request = self.problem.request(i, k);
            if request <= 0 {
                continue;
            }
            let runs = self.runs(i, span);
            let more = runs.wrapping_sub(self.runs_at_root(i, span));
            let fewer = (slack / request.max(1)).min(more).max(0);
            slack = slack.wrapping_sub(fewer.wrapping_mul(request));
            if fewer < more {
                let named = runs.wrapping_sub(fewer);
                let end = span.from.wrapping_add(named);
                let start = end.wrapping_sub(self.problem.duration(i));
                pile.push(Bound::at_least(i, start));
                pile.push(Bound::at_most(i, span.until.wrapping_sub(named)));
            }
        }
        slack
    }
}
