//! Asking the next question.

ghost use Rattle.std.specs.Prelude.{◌≡◌, ◌++◌, ◌<◌, [], Some, None, option_to_list, length, IfOk, IfErr, OnOk};
ghost use Rattle.racp_core.specs.Machine.{all_questions};
ghost use Rattle.racp_core.specs.Replies.{IsSmallPlace};
ghost use Rattle.racp_core.specs.Rows.{IsOpenedIf};
ghost use Rattle.racp_core.specs.Runs.{Step, Ask};

use super::Core;
use crate::replies::Asked;
use crate::row::Row;
use crate::undecided::Undecided;
use racp_model::{OfNetwork, Question};
use racp_questions::Series;
use std::alloc::{AllocError, Global};

impl<N: OfNetwork, S: Series> Core<N, S> {
    /// Asks the next question of the series, whose window is then open.
    ///
    /// # Errors
    ///
    /// Memory was refused. Nothing has changed, and the next call asks the same question.
    pub fn ask(&mut self) -> Result<Asked, AllocError>
        ensures step { IfOk result (λ asked. Step self.old (Ask asked) self.new) }
        ensures small { IfOk result IsSmallPlace }
        ensures questions { all_questions self.new ≡ all_questions self.old }
        ensures err { IfErr result (λ _. self.new ≡ self.old) }
    {
        if self.halted {
            return Ok(Asked::Halted);
        }
        if self.least.is_some() {
            return Ok(Asked::Enough);
        }
        fetch(&mut self.next, &mut self.series)?;
        if open(
            self.alloc,
            &mut self.next,
            &mut self.rows,
            &mut self.undecided,
        )? {
            Ok(Asked::Question(self.rows.len() - 1))
        } else {
            self.ended = true;
            Ok(Asked::End)
        }
    }
}

/// Takes the next question off the series, if none is held yet.
fn fetch<S: Series>(next: &mut Option<Question>, series: &mut S) -> Result<(), AllocError>
    ensures same { option_to_list next.new ++ S.questions series.new ≡
        option_to_list next.old ++ S.questions series.old }
    ensures ended { OnOk result (next.new ≡ None → S.questions series.new ≡ []) }
{
    if next.is_none() {
        *next = series.next()?;
    }
    Ok(())
}

/// Puts the question that is held after the rows, with its window open. Answers whether there was one.
fn open(
    alloc: Global,
    next: &mut Option<Question>,
    rows: &mut Vec<Row>,
    undecided: &mut Undecided,
) -> Result<bool, AllocError>
    ensures ok { IfOk result (λ some. IsOpenedIf next.old rows.old.items undecided.old some
        next.new rows.new.items undecided.new) }
    ensures next { IfErr result (λ _. next.new ≡ next.old) }
    ensures rows { IfErr result (λ _. rows.new.items ≡ rows.old.items) }
    ensures undecided { IfErr result (λ _. undecided.new ≡ undecided.old) }
{
    let Some(question) = &*next else {
        return Ok(false);
    };
    let mut ready = Vec::new(alloc);
    ready.push(question.window.copy()?)?;
    rows.reserve(1)?;
    undecided.insert(rows.len())?;
    if let Some(question) = next.take() {
        rows.push_reserved(Row::new(alloc, question, ready));
    }
    Ok(true)
}
