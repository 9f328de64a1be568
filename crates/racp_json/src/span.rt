//! Where a least deadline lies.

ghost use Rattle.std.specs.Prelude.{◌≡◌, IfOk};
ghost use Rattle.racp_json.specs.Curves.{known_in};
ghost use Rattle.racp_json.specs.Lines.{number_at, numbers_in};

use crate::line::{line_of, number_at};
use crate::work::Work;
use serde::Serialize;
use std::alloc::{AllocError, Global};

/// Where the least deadline lies that has a plan, in time units.
#[derive(Clone, Copy, Serialize)]
pub(crate) struct SpanAnswer {
    status: &'static str,
    /// There is no plan for a deadline before this one.
    least: u64,
    /// There is a plan for this one, if one is known.
    known: Option<u64>,
    #[serde(flatten)]
    work: Work,
}

/// What a line `stopped deadline L to U`, or `stopped deadline L`, tells.
pub(crate) fn span_of(alloc: Global, line: &str, work: Work) -> Result<SpanAnswer, AllocError>
    ensures least { IfOk result (λ span. span.least ≡ number_at 0 (numbers_in line.now)) }
    ensures known { IfOk result (λ span. span.known ≡ known_in (numbers_in line.now)) }
{
    let numbers = line_of(alloc, line)?.numbers;
    Ok(SpanAnswer {
        status: "stopped",
        least: number_at(&numbers, 0),
        known: second_of(&numbers),
        work,
    })
}

/// The second of some numbers, if there is one.
fn second_of(numbers: &[u64]) -> Option<u64>
    ensures { result ≡ known_in numbers.now }
{
    if 1 < numbers.len() {
        Some(number_at(numbers, 1))
    } else {
        None
    }
}
