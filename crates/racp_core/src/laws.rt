//! Laws of the definitions. Each function does nothing; its contract is the law.

ghost use Rattle.racp_core.specs.Runs.{RunsAreSound};

/// Whatever calls a collector has had, in any order: what is open or out of each question before the least yes covers
/// its window and lies inside it, the least yes answers, and the questions are those of the series. The findings that
/// were handed in were true.
pub fn runs_are_sound()
    ensures { RunsAreSound }
{}
