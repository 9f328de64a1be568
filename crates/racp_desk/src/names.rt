//! What a run is about.

use crate::book::Rules;
use std::marker::Brand;
use std::sync::ledger::Ledger;

/// What a desk is about: the turns, whether the stop is quiet, a ledger, and the questions. Each run picks it.
pub trait RunNames: Rules + Ledger {
    ghost use Rattle.std.specs.Prelude.{List};
    ghost use Rattle.racp_model.specs.declared.question.Question.{Question};

    ghost series: { List Question };
}

impl RunNames for Brand {
    ghost use Rattle.std.specs.Prelude.{[]};

    ghost series = { [] };
}
