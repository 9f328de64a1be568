//! Laws of the subjects. Each function does nothing; its contract is the law.

ghost use Rattle.racp_explain.specs.Laws.{AllAreListed};

/// Each fault of a network text, of an order and of a plan text, and each line without a number, is explained.
pub fn all_are_listed()
    ensures { AllAreListed }
{}
