//! The asker with workers: how it answers.

use crate::crowd::{Crowd, OfTurns};
use crate::one_question::{glimpse_of, is_open, quantum_for};
use racp_candidates::AnySeries;
use racp_desk::{Closed, DeskFault, RunLimits};
use racp_found::{News, Observer};
use racp_model::{Network, OfNetwork, Question, Stop};
use racp_questions::{AskStop, Asker, First, Leeway, Probe};
use std::collections::VecDeque;

impl<
    'a,
    N: OfNetwork,
    M: OfTurns,
    P: Stop,
    O: Observer + Drop,
    F: Fn(AnySeries, RunLimits) -> Result<Closed, DeskFault> + Drop,
> Asker<AnySeries> for Crowd<'a, N, M, P, O, F> {
    ghost use Rattle.std.specs.Prelude.{◌≡◌, ◌⊎◌, ⊤, false};
    ghost use Rattle.racp_by_questions.specs.Crowds.{RunsDesks};

    ghost about = { λ crowd p. (p ≡ N.network) × RunsDesks p M.quiet (F.pre crowd.run) (F.post crowd.run) };

    ghost answered = { λ crowd. crowd.answered };

    ghost told = { λ crowd. crowd.told };

    ghost may_stop = { λ crowd. (crowd.left ≡ 0) ⊎ (M.quiet ≡ false) };

    ghost may_want_thread = { λ _. ⊤ };

    fn first(&mut self, _net: &Network, series: AnySeries) -> Result<First, AskStop> {
        self.told = None;
        let turns = self.left;
        if turns == 0 {
            // Dropped here once, not at each way out.
            drop(series);
            return Err(AskStop::Stopped { reached: None });
        }
        let limits = RunLimits {
            workers: self.workers,
            quantum: quantum_for(None),
            turns,
        };
        let closed = self.closed(series, limits)?;
        self.answer(closed)
    }

    fn probe(
        &mut self,
        _net: &Network,
        question: Question,
        most: Option<u64>,
    ) -> Result<Probe, AskStop> {
        self.told = None;
        if self.left == 0 {
            // Dropped here once, not at each way out.
            drop(question);
            return Err(AskStop::Stopped { reached: None });
        }
        let ahead = self.take_ahead(most);
        if self.workers < 2 {
            return self.probe_with(question, None, 1, most);
        }
        let glimpse = self.glimpse_at(&question, glimpse_of(most))?;
        if !is_open(&glimpse) {
            // Dropped here once, not at each way out.
            drop((question, ahead));
            return Ok(glimpse);
        }
        self.probe_with(question, ahead, self.workers, most)
    }

    fn foresee(&mut self, _net: &Network, ahead: VecDeque<Question>) {
        self.ahead = Some(ahead);
    }

    fn leeway(&self) -> Leeway {
        self.leeway
    }
}

impl<
    'a,
    N: OfNetwork,
    M: OfTurns,
    P: Stop,
    O: Observer + Drop,
    F: Fn(AnySeries, RunLimits) -> Result<Closed, DeskFault> + Drop,
> Observer for Crowd<'a, N, M, P, O, F> {
    ghost may_hear = { O.may_hear };

    fn hear(&self, news: News<'_>) {
        self.observer.hear(news);
    }

    fn is_to_stop(&self) -> bool {
        match self.stop {
            Some(stop) => stop.asked(),
            None => false,
        }
    }
}
