//! A series of four questions about the network of six jobs.

ghost use Rattle.std.specs.Prelude.{IfSome};
ghost use Rattle.racp_model.specs.Formed.{AreFormed};

use crate::collector::series::vectors;
use crate::series::boxes::{Boxed, UNITS_OF_TWO};
use racp_candidates::Vectors;
use racp_model::Network;
use std::alloc::Global;

/// The vectors of 0, 1, 2 and 3 units of the first resource beside none of the second, if each unit costs 1.
const NONE: Boxed = Boxed {
    floors: &[0, 0],
    roofs: &[3, 0],
    ..UNITS_OF_TWO
};

/// Beside one, and beside two.
const ONE: Boxed = Boxed {
    floors: &[0, 1],
    roofs: &[3, 1],
    ..NONE
};

const TWO: Boxed = Boxed {
    floors: &[0, 2],
    roofs: &[3, 2],
    ..NONE
};

/// The questions of 0, 1, 2 and 3 units of the first resource beside none, one or two of the second, for the deadline 3;
/// `None` if memory was refused.
pub(crate) fn units_of_the_first(alloc: Global, net: &Network, second: u32) -> Option<Vectors>
    ensures { IfSome result (λ series. AreFormed net.now series) }
{
    match second {
        0 => vectors(alloc, net, &NONE),
        1 => vectors(alloc, net, &ONE),
        _ => vectors(alloc, net, &TWO),
    }
}
