//! `explain`: runs it.

ghost use Rattle.std.specs.Prelude.{IfOk};
ghost use Rattle.racp.specs.Statuses.{IsStatusOfAnswer};

use racp_cli::DONE;
use racp_explain::{explanation, subject_list};
use racp_host::answer::print;
use racp_host::failure::{Failure, OptionFault};
use std::alloc::Global;

/// Writes what the faults mean that these words name, or a list of all faults.
pub(crate) fn explain<R: Print + AllocGlobal>(
    rt: &R,
    format: Option<&str>,
    fault: Option<&str>,
) -> Result<u8, Failure>
    ensures { IfOk result IsStatusOfAnswer }
{
    let text = match format {
        None => Some(subject_list(rt.alloc())?),
        Some(format) => said_of(rt.alloc(), format, fault)?,
    };
    let Some(text) = text else {
        return Err(Failure::Option(OptionFault::Topic));
    };
    print(rt, &text)?;
    Ok(DONE)
}

/// What is said of the faults that these words name, if any. A word with blanks in it is taken for words, as for a line
/// that the program writes, such as `impossible critical 3 deadline 2`: of these the first two count, or the first
/// alone, and `refused` is left out.
fn said_of(alloc: Global, format: &str, fault: Option<&str>) -> Result<Option<String>, Failure> {
    let mut words = format.split_whitespace().filter(|word| *word != "refused");
    let first = words.next().unwrap_or(format);
    let second = words.next();
    if fault.is_some() || second.is_none() {
        return Ok(explanation(alloc, format, fault)?);
    }
    match explanation(alloc, first, second)? {
        Some(text) => Ok(Some(text)),
        None => Ok(explanation(alloc, first, None)?),
    }
}
