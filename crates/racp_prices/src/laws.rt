//! Laws of reading orders. Each function does nothing; its contract is the law.

ghost use Rattle.racp_prices.specs.Laws.{OneReading, PlainOrder, ReadWithinLimits, TextIsRead};

/// A text is read as at most one thing: the terms of an order, or one fault.
pub fn one_reading()
    ensures { OneReading }
{}

/// Each text is read as the terms of an order or as a fault.
pub fn text_is_read()
    ensures { TextIsRead }
{}

/// The terms that a text is read as have an entry for each resource and each job, in their ranges, and no due time is
/// above the deadline.
pub fn read_within_limits()
    ensures { ReadWithinLimits }
{}

/// Without a version no unit is owned, there may be any number of units, and each job may run from 0 to the deadline.
pub fn plain_order()
    ensures { PlainOrder }
{}
