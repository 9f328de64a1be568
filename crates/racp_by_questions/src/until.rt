//! An asker on the calling thread that may be stopped.

ghost use Rattle.std.specs.Prelude.{◌≡◌};

use crate::alone::Alone;
use crate::crowd::OfTurns;
use racp_found::Observer;
use racp_model::{Network, OfNetwork, Question, Stop};
use racp_questions::{AskStop, Asker, First, Leeway, Probe, Series};
use std::marker::PhantomData;

/// Answers as `Alone` does, until its stop asks it to give up. The stop is asked before each node of a search. `M` says
/// whether it is quiet: then the asker never stops.
#[derive(Drop)]
pub struct AloneUntil<'a, N: OfNetwork, M: OfTurns, P: Stop> {
    pub(crate) alone: Alone<N>,
    pub(crate) stop: &'a P,
    pub(crate) of: PhantomData<M>,
    pub(crate) ghost quiet_is: { P.is_quiet stop.now ≡ M.quiet },
}

impl<'a, N: OfNetwork, M: OfTurns, P: Stop> Observer for AloneUntil<'a, N, M, P> {
    fn is_to_stop(&self) -> bool {
        self.stop.asked()
    }
}

impl<'a, N: OfNetwork, M: OfTurns, S: Series, P: Stop> Asker<S> for AloneUntil<'a, N, M, P> {
    ghost use Rattle.std.specs.Prelude.{◌≡◌, None, false};

    ghost about = { λ _ p. p ≡ N.network };

    ghost answered = { λ until. until.alone.answered };

    ghost told = { λ _. None };

    ghost may_stop = { λ _. M.quiet ≡ false };

    ghost may_want_thread = { λ _. ⊥ };

    fn first(&mut self, net: &Network, series: S) -> Result<First, AskStop> {
        self.alone.first_until(net, series, self.stop)
    }

    fn leeway(&self) -> Leeway {
        self.alone.leeway
    }

    fn probe(
        &mut self,
        net: &Network,
        question: Question,
        most: Option<u64>,
    ) -> Result<Probe, AskStop> {
        self.alone.probe_until(net, question, most, self.stop)
    }
}
