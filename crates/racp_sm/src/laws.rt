//! Laws of what texts are read as. Each function does nothing but call other laws; its contract is the law.

ghost use Rattle.racp_sm.specs.Laws.{ReadingIsOne, ReadWithinLimits, TextIsRead};

use racp_model::laws::{acyclic_has_network, ranking_or_ring, relation_is_network};
pub use racp_text::laws::numbers_are_decimal;

/// A text is read as at most one thing.
pub fn reading_is_one()
    ensures { ReadingIsOne }
{
    relation_is_network();
    ranking_or_ring();
}

/// Each text is read as a network or as a fault.
pub fn text_is_read()
    ensures { TextIsRead }
{
    ranking_or_ring();
    acyclic_has_network();
}

/// What a text says is within the limits of a network.
pub fn read_within_limits()
    ensures { ReadWithinLimits }
{}
