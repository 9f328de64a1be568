//! Laws of numbers. Each function does nothing; its contract is the law.

ghost use Rattle.racp_text.specs.Laws.{NumbersAreDecimal};

/// Numbers are decimal, and zeros in front of one change nothing.
pub fn numbers_are_decimal()
    ensures { NumbersAreDecimal }
{}
