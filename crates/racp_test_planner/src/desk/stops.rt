//! A stop that is asked for at given calls.

use racp_model::Stop;
use std::sync::atomic::{AtomicU64, Ordering};

/// A stop that is asked for at the call of this number, from 1, and, if it lasts, at each after it.
#[derive(Drop)]
pub(crate) struct AtCall {
    number: u64,
    lasts: bool,
    calls: AtomicU64,
}

impl Stop for AtCall {
    ghost use Rattle.std.specs.Prelude.{false};

    ghost QUIET = { false };

    ghost is_quiet = { λ _. false };

    ghost all_quiet = { λ _ quiet. quiet };

    const QUIET: bool = false;

    fn asked(&self) -> bool {
        let call = self.calls.fetch_add(1, Ordering::SeqCst).wrapping_add(1);
        call == self.number || (self.lasts && self.number < call)
    }
}

impl AtCall {
    /// At the call of this number alone.
    pub(crate) fn once(number: u64) -> Self {
        AtCall {
            number,
            lasts: false,
            calls: AtomicU64::new(0),
        }
    }

    /// At each call, or at none.
    pub(crate) fn each(stops: bool) -> Self {
        AtCall {
            number: if stops { 1 } else { u64::MAX },
            lasts: true,
            calls: AtomicU64::new(0),
        }
    }

    /// Whether it was asked for.
    pub(crate) fn came(&self) -> bool {
        self.number <= self.calls.load(Ordering::SeqCst)
    }
}
