//! From which bounds a bound follows by core usage.
//!
//! Each takes as few times as it can: then a job that runs throughout them may have bounds that are the further apart.

use crate::bound::Bound;
use crate::lanes::Lanes;
use crate::reasons::{Named, Past, Pile};

/// Some times, from one to before another.
#[derive(Clone, Copy)]
pub(crate) struct Span {
    pub(crate) from: i64,
    pub(crate) until: i64,
}

/// A resource that is short, and what is used of it.
#[derive(Clone, Copy)]
struct Shortage {
    resource: usize,
    used: i64,
}

impl Past<'_> {
    /// A job does not run at some times. One of them is the first or the last beside that which the bound leaves.
    pub(crate) fn explain_usage(&self, bound: Bound, time: i64, pile: &mut Pile) -> Named {
        let job = bound.variable();
        let span = if bound.is_lower() {
            self.span_before(job, bound.value, time)
        } else {
            self.span_behind(job, bound.value.wrapping_neg(), time)
        };
        let shortage = self.shortage(job, span);
        let k = shortage.resource;
        let units = self.upper(self.problem.units(k));
        let slack = shortage.used.wrapping_sub(units).wrapping_sub(1);
        let left = self.collect_cores(k, span, job, slack, pile);
        let most = units.wrapping_add(left);
        pile.push(Bound::at_most(self.problem.units(k), most));
        if bound.is_lower() {
            let next = span.from.wrapping_add(1);
            let start = next.wrapping_sub(self.problem.duration(job));
            pile.push(Bound::at_least(job, start));
        } else {
            pile.push(Bound::at_most(job, span.until.wrapping_sub(1)));
        }
        Named {
            resource: k,
            from: span.from,
            until: span.until,
            left: 0,
        }
    }

    /// The times right before a start that keep a job from starting earlier, none before a first one: it cannot end before
    /// them.
    fn span_before(&self, job: usize, start: i64, first: i64) -> Span {
        let until = start.max(first.wrapping_add(1));
        let end = self.lower(job).wrapping_add(self.problem.duration(job));
        let last = until.min(end).wrapping_sub(1);
        Span {
            from: last.max(first),
            until,
        }
    }

    /// The times right behind a start and the run from it that keep a job from starting later, all before another time: it
    /// cannot start behind them.
    fn span_behind(&self, job: usize, start: i64, behind: i64) -> Span {
        let end = start.wrapping_add(self.problem.duration(job));
        let from = end.min(behind.wrapping_sub(1));
        let until = from.max(self.upper(job)).wrapping_add(1);
        Span {
            from,
            until: until.min(behind),
        }
    }

    /// The units of a resource are at least what is used of it at a time.
    pub(crate) fn explain_peak(&self, bound: Bound, time: i64, pile: &mut Pile) -> Named {
        let k = bound.variable().wrapping_sub(self.problem.jobs);
        let span = Span {
            from: time,
            until: time.wrapping_add(1),
        };
        let loads = self.loads(k / 4, span, usize::MAX);
        let slack = i64::from(loads.of(k)).wrapping_sub(bound.value);
        let left = self.collect_cores(k, span, usize::MAX, slack, pile);
        Named {
            resource: k,
            from: span.from,
            until: span.until,
            left,
        }
    }

    /// Whether a job runs throughout some times wherever it starts.
    #[inline]
    fn is_core(&self, i: usize, span: Span) -> bool {
        let end = self.lower(i).wrapping_add(self.problem.duration(i));
        self.upper(i) <= span.from && span.until <= end
    }

    /// Whether it does so at the root.
    #[inline]
    fn is_core_at_root(&self, i: usize, span: Span) -> bool {
        let end = self
            .problem
            .root_lower(i)
            .wrapping_add(self.problem.duration(i));
        self.problem.root_upper(i) <= span.from && span.until <= end
    }

    /// What all jobs but one use of the resources of a group at some times, and that one too.
    fn loads(&self, group: usize, span: Span, with: usize) -> Lanes {
        let mut loads = self.problem.lanes(with, group);
        for i in 0..self.problem.jobs {
            if i != with && self.is_core(i, span) {
                loads = loads.with(self.problem.lanes(i, group));
            }
        }
        loads
    }

    /// The resource that is short by most, and what is used of it.
    fn shortage(&self, job: usize, span: Span) -> Shortage {
        let mut best = Shortage {
            resource: 0,
            used: 0,
        };
        let mut most = -1.0f64;
        for group in 0..self.problem.groups {
            let loads = self.loads(group, span, job);
            for q in 0..4usize {
                let k = group.wrapping_mul(4).wrapping_add(q);
                let used = i64::from(loads.of(q));
                let units = self.upper(self.problem.units(k));
                if k < self.problem.resources && units < used {
                    let share = share(used.wrapping_sub(units), units.wrapping_add(1));
                    if most < share {
                        most = share;
                        best = Shortage { resource: k, used };
                    }
                }
            }
        }
        best
    }

    /// Collects the bounds of jobs that make the core usage, without those that are not needed for it; gives how much is
    /// left over.
    fn collect_cores(&self, k: usize, span: Span, skip: usize, slack: i64, pile: &mut Pile) -> i64 {
        let mut slack = slack;
        for &job in self.problem.by_request(k) {
            let i = job as usize;
            let request = self.problem.request(i, k);
            let is_needed = 0 < request && i != skip && self.is_core(i, span);
            if !is_needed || self.is_core_at_root(i, span) {
                continue;
            }
            if request <= slack {
                slack = slack.wrapping_sub(request);
            } else {
                let start = span.until.wrapping_sub(self.problem.duration(i));
                pile.push(Bound::at_least(i, start));
                pile.push(Bound::at_most(i, span.from));
            }
        }
        slack
    }
}

/// A part of a whole.
fn share(part: i64, whole: i64) -> f64 {
    float(part) / float(whole)
}

fn float(value: i64) -> f64 {
    f64::from(u32::try_from(value).unwrap_or(u32::MAX))
}
