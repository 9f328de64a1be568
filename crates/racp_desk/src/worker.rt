//! A worker: takes pieces, searches them, and hands in what it found.

ghost use Rattle.std.specs.Prelude.{◌≡◌, ◌<◌, ◌≤◌, IfSome, Some};
ghost use Rattle.racp_model.specs.Formed.{IsFormed};
ghost use Rattle.racp_search.specs.Truth.{IsExplored};

use crate::gate::Gate;
use crate::limits::RunLimits;
use crate::names::RunNames;
use crate::state::State;
use crate::turn::{Next, next_of, take_in};
use crate::watch::{Hint, UserAsked, UserOrHint, Watch};
use racp_cutset::{Board, Local};
use racp_model::{Network, OfNetwork, Stop};
use racp_questions::Series;
use racp_search::{Finding, Piece, explore, make_room};
use std::alloc::Global;
use std::sync::ledger::Share;
use std::sync::{Condvar, Mutex, Wait};

/// What a run is about, beside its series: how far it goes, and what all workers use.
#[derive(Drop)]
pub(crate) struct RunSetup<'a, N: OfNetwork, G: Gate, P: Stop> {
    pub(crate) alloc: Global,
    pub(crate) net: &'a Network,
    pub(crate) limits: RunLimits,
    pub(crate) board: &'a Board<N>,
    pub(crate) gate: &'a G,
    pub(crate) stop: &'a P,
    pub(crate) ghost named: { net.now ≡ N.network },
}

/// What all workers share.
#[derive(Drop)]
pub(crate) struct Shared<'a, N: OfNetwork, M: RunNames, S: Series, G: Gate, P: Stop> {
    pub(crate) setup: RunSetup<'a, N, G, P>,
    pub(crate) hint: Hint,
    pub(crate) desk: Mutex<State<N, M, S>>,
    pub(crate) idle: Condvar,
    pub(crate) ghost turns_is: { setup.limits.turns ≡ M.turns },
    pub(crate) ghost quiet_is: { P.is_quiet setup.stop.now ≡ M.quiet },
}

/// A finding, and that the user has asked to stop, if that is so.
struct Searched<N: OfNetwork, M: RunNames> {
    finding: Finding<N>,
    asked: Option<UserAsked<M>>,
    ghost nodes_few: { finding.nodes ≤ 1000000 },
}

/// A worker: its seat, its share of the ledger, and the records of its own.
#[derive(Drop)]
pub(crate) struct Worker<N: OfNetwork, M: RunNames> {
    pub(crate) seat: usize,
    pub(crate) share: Share<M>,
    pub(crate) local: Local<N>,
    pub(crate) ghost one_part: { share.parts ≡ 1 },
}

/// The work of a worker: it takes pieces and hands in what it finds, until there is nothing more to do. The worker comes
/// back.
pub(crate) fn work<'a, N: OfNetwork, M: RunNames, S: Series, G: Gate, P: Stop, R: Wait>(
    rt: &R,
    shared: &Shared<'a, N, M, S, G, P>,
    worker: Worker<N, M>,
) -> Worker<N, M> {
    let mut worker = worker;
    worker.go_on(rt, shared);
    shared.idle.notify_all();
    worker
}

impl<N: OfNetwork, M: RunNames> Worker<N, M> {
    /// Takes pieces and hands in what it finds, until there is nothing more to do.
    fn go_on<'a, S: Series, G: Gate, P: Stop, R: Wait>(
        &mut self,
        rt: &R,
        shared: &Shared<'a, N, M, S, G, P>,
    ) {
        for _round in rt.forever() {
            let Some(piece) = self.next_piece(rt, shared) else {
                return;
            };
            let searched = self.search(rt, shared, piece);
            self.hand_in(rt, shared, searched);
        }
        unreachable!()
    }

    /// Takes a piece, and waits for one where there is none. `None` where there is nothing more to do.
    fn next_piece<'a, S: Series, G: Gate, P: Stop, R: Wait>(
        &mut self,
        rt: &R,
        shared: &Shared<'a, N, M, S, G, P>,
    ) -> Option<Piece<N>>
        ensures { IfSome result (λ piece. IsFormed N.network piece.question) }
    {
        let limits = shared.setup.limits;
        let mut state = shared.desk.lock(rt);
        for _round in rt.forever() {
            match next_of(&mut *state, limits, self.seat, &mut self.share) {
                Next::Search(piece) => return Some(piece),
                Next::Leave => return None,
                Next::Wait => state = shared.idle.wait(rt, state),
            }
        }
        unreachable!()
    }

    /// Searches a piece until it is decided, its quantum is spent, memory is refused, the user asks to stop, or a yes of
    /// its question or an earlier one was merged. Shares the records that it kept, while the board has room.
    fn search<'a, S: Series, G: Gate, P: Stop, R: Wait>(
        &mut self,
        rt: &R,
        shared: &Shared<'a, N, M, S, G, P>,
        piece: Piece<N>,
    ) -> Searched<N, M>
        requires { IsFormed N.network piece.question }
        ensures { IsExplored N.network piece (Some shared.now.setup.limits.quantum) result.finding }
    {
        let setup = &shared.setup;
        let quantum = setup.limits.quantum;
        setup.gate.enter(self.seat, piece.number());
        make_room(&mut self.local);
        let watch = Watch {
            reasons: UserOrHint::new(setup.stop, &shared.hint, piece.index()),
        };
        let local = &mut self.local;
        let finding = explore(
            setup.alloc,
            setup.net,
            piece,
            Some(quantum),
            setup.board,
            local,
            &watch,
        );
        publish(rt, setup.board, &mut self.local);
        let asked = watch.reasons.take_asked();
        Searched { finding, asked }
    }

    /// Hands a finding in, and tells all that wait.
    fn hand_in<'a, S: Series, G: Gate, P: Stop, R: Wait>(
        &mut self,
        rt: &R,
        shared: &Shared<'a, N, M, S, G, P>,
        searched: Searched<N, M>,
    ) {
        let Searched { finding, asked } = searched;
        let index = finding.piece().index();
        let found = finding.found().is_some();
        let mut state = shared.desk.lock(rt);
        let taken = take_in(&mut *state, finding, asked, &mut self.share);
        drop(state);
        if taken && found {
            shared.hint.note(index);
        }
        shared.idle.notify_all();
    }
}

/// Shares the records that a worker kept, while the board has room.
fn publish<N: OfNetwork, R: Wait>(rt: &R, board: &Board<N>, local: &mut Local<N>) {
    while !board.is_full() {
        let Some(nogood) = local.take_kept() else {
            return;
        };
        board.push(rt, nogood);
    }
}
