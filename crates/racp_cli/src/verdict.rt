//! Whether a text is a certificate of the form that its first line tells.

ghost use Rattle.std.specs.Prelude.{◌≡◌, IfOk, IsErrOf, IsTrue, length};
ghost use Rattle.std.specs.List.{before_first};
ghost use Rattle.racp_model.specs.Terms.{AreTermsOf};
ghost use Rattle.racp_text.specs.Cuts.{is_line_feed};
ghost use Rattle.racp_cli.specs.Verifies.{IsVerdict, is_by_clauses};

use crate::check::Checked;
use racp_check::check_proof_until;
use racp_derivations::establishes_by_text_until;
use racp_model::{Stop, Unfound};
use racp_text::cut_at;
use std::alloc::Global;

/// Whether a text is a certificate for a plan.
pub(crate) fn is_proved<S: Stop>(
    alloc: Global,
    found: &Checked,
    proof: &[u8],
    stop: &S,
) -> Result<bool, Unfound>
    requires terms { AreTermsOf found.now.net found.now.order }
    requires capacities { length found.now.plan.capacities ≡ found.now.net.resources }
    ensures verdict { IfOk result (IsVerdict found.now.net found.now.order found.now.plan proof.now) }
    ensures quiet { IsTrue (S.is_quiet stop.now) → IsErrOf result Unfound.Stopped → ⊥ }
{
    let Checked { net, order, plan } = found;
    if is_by_clauses(proof) {
        return establishes_by_text_until(alloc, net, order, plan, proof, stop);
    }
    check_proof_until(alloc, net, order, plan, proof, stop)
}

/// Whether the first line of a text is `proof 2`.
#[tactic(auto, unfolding(crate::specs::Verifies::is_by_clauses))]
fn is_by_clauses(proof: &[u8]) -> bool
    ensures { result ≡ is_by_clauses proof.now }
{
    first_line(proof) == b"proof 2".as_slice()
}

/// What stands before the first line feed.
fn first_line(text: &[u8]) -> &[u8]
    ensures { result.now ≡ before_first is_line_feed text.now }
{
    match cut_at(text, b'\n') {
        Some((line, _)) => line,
        None => text,
    }
}
