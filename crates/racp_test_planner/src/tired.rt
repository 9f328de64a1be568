//! An asker that gives up.

ghost use Rattle.std.specs.Prelude.{◌≡◌};

use racp_by_questions::Alone;
use racp_found::Observer;
use racp_model::{Network, OfNetwork, Question};
use racp_questions::{AskStop, Asker, First, Probe, Series};
use std::alloc::{AllocError, Global};

/// Answers this many series of questions about the network that `N` names, and then gives up.
#[derive(Drop)]
pub(crate) struct Tired<N: OfNetwork> {
    alone: Alone<N>,
    answered: u32,
    series: u32,
}

impl<N: OfNetwork> Tired<N> {
    pub(crate) fn new(alloc: Global, net: &Network, series: u32) -> Result<Self, AllocError>
        requires { net.now ≡ N.network }
    {
        let alone: Alone<N> = Alone::new(alloc, net)?;
        Ok(Tired {
            alone,
            answered: 0,
            series,
        })
    }
}

impl<N: OfNetwork> Observer for Tired<N> {}

impl<N: OfNetwork, S: Series> Asker<S> for Tired<N> {
    ghost use Rattle.std.specs.Prelude.{◌≡◌, ⊤, None};

    ghost about = { λ _ p. p ≡ N.network };

    ghost answered = { λ tired. tired.answered };

    ghost told = { λ _. None };

    ghost may_stop = { λ _. ⊤ };

    ghost may_want_thread = { λ _. ⊥ };

    fn first(&mut self, net: &Network, series: S) -> Result<First, AskStop> {
        if self.series <= self.answered {
            return Err(AskStop::Stopped { reached: None });
        }
        let first = self.alone.first(net, series)?;
        self.answered += 1;
        Ok(first)
    }

    fn probe(
        &mut self,
        net: &Network,
        question: Question,
        most: Option<u64>,
    ) -> Result<Probe, AskStop> {
        if self.series <= self.answered {
            return Err(AskStop::Stopped { reached: None });
        }
        Asker::<S>::probe(&mut self.alone, net, question, most)
    }
}
