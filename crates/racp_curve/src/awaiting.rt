//! When the searches of a curve stop, and who hears of them.

use crate::ahead::Ahead;
use racp_clauses::OfProblem;
use racp_found::{News, Observer};

/// Hears nothing, and wants an end where helpers have settled a deadline that is searched for.
#[derive(Drop)]
pub(crate) struct Awaited<'a, N: OfProblem> {
    pub(crate) ahead: Option<&'a Ahead<'a, N>>,
    pub(crate) deadline: u32,
}

impl<'a, N: OfProblem> Observer for Awaited<'a, N> {
    fn is_to_stop(&self) -> bool {
        match self.ahead {
            Some(ahead) => ahead.plan_for(self.deadline).is_some(),
            None => false,
        }
    }
}

/// Hears nothing, and wants an end where a plan for a deadline is no longer of use.
#[derive(Drop)]
pub(crate) struct Outrun<'a, N: OfProblem> {
    pub(crate) ahead: &'a Ahead<'a, N>,
    pub(crate) deadline: u32,
}

impl<'a, N: OfProblem> Observer for Outrun<'a, N> {
    fn is_to_stop(&self) -> bool {
        !self.ahead.is_wanted(self.deadline)
    }
}

/// Tells another observer how much was done, and nothing else, and wants an end where that one does.
#[derive(Drop)]
pub(crate) struct Muted<'a, O: Observer> {
    pub(crate) observer: &'a O,
}

impl<'a, O: Observer> Observer for Muted<'a, O> {
    ghost use Rattle.racp_curve.specs.Following.{MayHearWork};

    ghost may_hear = { MayHearWork O.may_hear };

    fn hear(&self, news: News<'_>) {
        if let News::Work { conflicts, clauses } = news {
            self.observer.hear(News::Work { conflicts, clauses });
        }
    }

    fn is_to_stop(&self) -> bool {
        self.observer.is_to_stop()
    }
}
