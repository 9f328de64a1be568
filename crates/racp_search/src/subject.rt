ghost use Rattle.std.specs.Prelude.{◌≡◌};
ghost use Rattle.racp_model.specs.Formed.{HasBounds, IsFormed};
ghost use Rattle.racp_model.specs.Project.{IsSound};

use racp_cutset::Board;
use racp_model::{Capacities, Network, OfNetwork, Question, Window};
use std::marker::Model;

/// What a search is about: a question of the network that `N` names, and the records that all threads share. Contracts
/// see the question.
#[derive(Drop)]
pub(crate) struct Subject<'a, N: OfNetwork> {
    net: &'a Network,
    question: &'a Question,
    board: &'a Board<N>,
}

impl<'a, N: OfNetwork> Model for Subject<'a, N> {
    ghost use Rattle.std.specs.Prelude.{◌≡◌};
    ghost use Rattle.racp_model.specs.Formed.{IsFormed};
    ghost use Rattle.racp_model.specs.declared.question.Question as asked;

    ghost Value = { asked.Question };

    ghost view = { λ s. s.question.now };

    ghost invariant = { λ s. (s.net.now ≡ N.network) × IsFormed N.network s.question.now };
}

impl<'a, N: OfNetwork> Subject<'a, N> {
    /// A question of a network, and a board with records of it.
    pub(crate) fn new(net: &'a Network, question: &'a Question, board: &'a Board<N>) -> Self
        requires named { net.now ≡ N.network }
        requires formed { IsFormed N.network question.now }
        ensures { result ≡ question.now }
    {
        Subject {
            net,
            question,
            board,
        }
    }

    /// The network.
    pub(crate) fn network(&self) -> &'a Network
        ensures named { result.now ≡ N.network }
        ensures formed { IsFormed N.network self.now }
        ensures sound { IsSound N.network }
    {
        let net = self.net;
        prove!(net.job_count() == net.job_count());
        net
    }

    /// How many units there are of each resource.
    pub(crate) fn capacities(&self) -> &'a Capacities
        ensures { result.now ≡ self.now.capacities }
    {
        &self.question.capacities
    }

    /// The window of the question.
    pub(crate) fn whole(&self) -> &'a Window
        ensures window { result.now ≡ self.now.window }
        ensures bounds { HasBounds N.network self.now.window }
    {
        &self.question.window
    }

    /// The records that all threads share.
    pub(crate) fn board(&self) -> &'a Board<N> {
        self.board
    }
}
