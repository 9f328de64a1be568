//! When a worker stops searching a piece.

ghost use Rattle.std.specs.Prelude.{◌≡◌, false};

use crate::names::RunNames;
use racp_model::Stop;
use std::cell::Cell;
use std::marker::PhantomData;
use std::sync::atomic::{AtomicU64, Ordering};

/// A hint to workers that search: the least place of a question of which a yes was merged, or the greatest number.
/// Nothing rests on it but how soon a search is left.
#[derive(Drop)]
pub(crate) struct Hint {
    least: AtomicU64,
}

impl Hint {
    /// No yes was merged.
    pub(crate) fn new() -> Self {
        Hint {
            least: AtomicU64::new(u64::MAX),
        }
    }

    /// A yes of the question at this place was merged.
    pub(crate) fn note(&self, index: u64) {
        self.least.fetch_min(index, Ordering::SeqCst);
    }

    /// The place of the question of which a yes was merged: pieces of it and of later ones are of no use.
    fn least(&self) -> u64 {
        self.least.load(Ordering::SeqCst)
    }
}

/// Why a worker is to leave its piece.
pub(crate) trait Reasons {
    /// Whether it is to leave it now.
    fn ask(&self) -> bool;
}

/// The user has asked to stop the run that `M` names. So its stop is not quiet.
#[derive(Drop)]
pub(crate) struct UserAsked<M: RunNames> {
    of: PhantomData<M>,
    ghost unquiet: { M.quiet ≡ false },
}

/// The user's stop, and a yes at this place or before it that was merged.
#[derive(Drop)]
pub(crate) struct UserOrHint<'a, M: RunNames, P: Stop> {
    user: &'a P,
    hint: &'a Hint,
    index: u64,
    asked: Cell<Option<UserAsked<M>>>,
    ghost quiet_is: { P.is_quiet user.now ≡ M.quiet },
}

impl<'a, M: RunNames, P: Stop> UserOrHint<'a, M, P> {
    /// Nobody has asked to stop yet.
    pub(crate) fn new(user: &'a P, hint: &'a Hint, index: u64) -> Self
        requires { P.is_quiet user.now ≡ M.quiet }
    {
        UserOrHint {
            user,
            hint,
            index,
            asked: Cell::new(None),
        }
    }

    /// That the user has asked to stop, if that is so.
    pub(crate) fn take_asked(&self) -> Option<UserAsked<M>> {
        self.asked.replace(None)
    }
}

impl<'a, M: RunNames, P: Stop> Reasons for UserOrHint<'a, M, P> {
    fn ask(&self) -> bool {
        if self.user.asked() {
            self.asked.set(Some(UserAsked { of: PhantomData }));
            return true;
        }
        self.hint.least() <= self.index
    }
}

/// The stop of a worker's search. The prover states no `Stop` of a type that has another one as a parameter.
#[derive(Drop)]
pub(crate) struct Watch<T: Reasons> {
    pub(crate) reasons: T,
}

impl<T: Reasons> Stop for Watch<T> {
    ghost use Rattle.std.specs.Prelude.{false};

    ghost QUIET = { false };

    ghost is_quiet = { λ _. false };

    ghost all_quiet = { λ _ quiet. quiet };

    const QUIET: bool = false;

    fn asked(&self) -> bool {
        self.reasons.ask()
    }
}
