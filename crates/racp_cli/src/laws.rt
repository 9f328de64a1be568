//! Laws of the texts. Each function does nothing; its contract is the law.

ghost use Rattle.racp_cli.specs.Laws.{OneTextOneAnswer, OneTextOneStatus};

/// No two answers share one text.
pub fn one_text_one_answer()
    ensures { OneTextOneAnswer }
{}

/// No text that `plan` writes, on one thread or by workers, goes with two statuses.
pub fn one_text_one_status()
    ensures { OneTextOneStatus }
{}
