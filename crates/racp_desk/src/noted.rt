//! What a log notes of a finding.

ghost use Rattle.std.specs.Prelude.{◌≡◌, is_some};
ghost use Rattle.racp_desk.specs.Desk.{windows_left};

use racp_model::OfNetwork;
use racp_search::{Finding, Rest};

/// How many windows a rest has.
pub(crate) fn windows_left(rest: &Rest) -> usize
    ensures { result ≡ windows_left rest.now }
{
    match rest {
        Rest::Whole => 1,
        Rest::Windows(windows) => windows.len(),
    }
}

/// Whether starts were found.
pub(crate) fn is_found<N: OfNetwork>(finding: &Finding<N>) -> bool
    ensures { result ≡ is_some finding.now.found }
{
    match finding.found() {
        Some(_) => true,
        None => false,
    }
}
