//! Reading a derivation text line by line.

ghost use Rattle.std.specs.Prelude.{◌≡◌, IfOk, IsErrOf, IsTrue, MatchBool, MatchOption, Some, None, bytes_eq, codes};
ghost use Rattle.std.specs.List.{slice_split};
ghost use Rattle.racp_model.specs.Terms.{AreTermsOf};
ghost use Rattle.racp_text.specs.Cuts.{is_line_feed};
ghost use Rattle.racp_model.specs.declared.stop.Unfound.TheVariants.{Stopped};
ghost use Rattle.racp_derivations.specs.Checking.{clauses_of};
ghost use Rattle.racp_derivations.specs.Texts.{clauses_in};
ghost use Rattle.racp_derivations.specs.BoundTexts.{bounded_in, bounded_of, told_bound};

use crate::checking::Checking;
use crate::lines::least_on;
use crate::stepping::Given;
use racp_clauses::OfProblem;
use racp_model::{Stop, Unfound};
use racp_text::cut_at;
use std::alloc::Global;

/// Whether a text has its form and each clause follows; then these are the clauses. The stop is asked at each line.
pub(crate) fn read_text<N: OfProblem, S: Stop>(
    alloc: Global,
    given: &Given,
    checking: &mut Checking<N>,
    text: &[u8],
    stop: &S,
) -> Result<bool, Unfound>
    requires named { given.now.net.now ≡ N.problem.network }
    requires terms { given.now.order.now ≡ N.problem.terms }
    requires fit { AreTermsOf given.now.net.now given.now.order.now }
    ensures clauses { IfOk result (λ yes. MatchBool yes
        (clauses_in given.now.net.now given.now.order.now checking.old text.now ≡ Some checking.new.clauses)
        (clauses_in given.now.net.now given.now.order.now checking.old text.now ≡ None)) }
    ensures quiet { IsTrue (S.is_quiet stop.now) → IsErrOf result Unfound.Stopped → ⊥ }
{
    let Some((first, rest)) = cut_at(text, b'\n') else {
        return Ok(false);
    };
    if !is_head(first) {
        return Ok(false);
    }
    read_lines(alloc, given, checking, rest, stop)
}

/// The bound that a text tells, if it has the form of one that does, and each clause follows; then these are the clauses. The
/// stop is asked at each line.
pub(crate) fn read_bound<N: OfProblem, S: Stop>(
    alloc: Global,
    given: &Given,
    checking: &mut Checking<N>,
    text: &[u8],
    stop: &S,
) -> Result<Option<u64>, Unfound>
    requires named { given.now.net.now ≡ N.problem.network }
    requires terms { given.now.order.now ≡ N.problem.terms }
    requires fit { AreTermsOf given.now.net.now given.now.order.now }
    ensures bounded { IfOk result (λ found. MatchOption found
        (bounded_in given.now.net.now given.now.order.now checking.old text.now ≡ None)
        (λ least. bounded_in given.now.net.now given.now.order.now checking.old text.now ≡ Some (told_bound least checking.new.clauses))) }
    ensures quiet { IsTrue (S.is_quiet stop.now) → IsErrOf result Unfound.Stopped → ⊥ }
{
    let Some((first, rest)) = cut_at(text, b'\n') else {
        return Ok(None);
    };
    if !is_head(first) {
        return Ok(None);
    }
    read_told(alloc, given, checking, rest, stop)
}

/// The same of the lines behind the first.
fn read_told<N: OfProblem, S: Stop>(
    alloc: Global,
    given: &Given,
    checking: &mut Checking<N>,
    text: &[u8],
    stop: &S,
) -> Result<Option<u64>, Unfound>
    requires named { given.now.net.now ≡ N.problem.network }
    requires terms { given.now.order.now ≡ N.problem.terms }
    requires fit { AreTermsOf given.now.net.now given.now.order.now }
    ensures bounded { IfOk result (λ found. MatchOption found
        (bounded_of given.now.net.now given.now.order.now checking.old (slice_split is_line_feed text.now) ≡ None)
        (λ least. bounded_of given.now.net.now given.now.order.now checking.old (slice_split is_line_feed text.now) ≡
        Some (told_bound least checking.new.clauses))) }
    ensures quiet { IsTrue (S.is_quiet stop.now) → IsErrOf result Unfound.Stopped → ⊥ }
{
    let Some((line, rest)) = cut_at(text, b'\n') else {
        return Ok(None);
    };
    let Some(least) = least_on(line) else {
        return Ok(None);
    };
    if read_lines(alloc, given, checking, rest, stop)? {
        return Ok(Some(least));
    }
    Ok(None)
}

/// Whether a line is the first of a text.
fn is_head(line: &[u8]) -> bool
    ensures { result ≡ bytes_eq line.now (codes "proof 2") }
{
    line == b"proof 2".as_slice()
}

/// Whether a line is the last of a text.
fn is_last(line: &[u8]) -> bool
    ensures { result ≡ bytes_eq line.now (codes "end") }
{
    line == b"end".as_slice()
}

/// The same of the lines behind the first.
fn read_lines<N: OfProblem, S: Stop>(
    alloc: Global,
    given: &Given,
    checking: &mut Checking<N>,
    text: &[u8],
    stop: &S,
) -> Result<bool, Unfound>
    requires named { given.now.net.now ≡ N.problem.network }
    requires terms { given.now.order.now ≡ N.problem.terms }
    requires fit { AreTermsOf given.now.net.now given.now.order.now }
    ensures clauses { IfOk result (λ yes. MatchBool yes
        (clauses_of given.now.net.now given.now.order.now checking.old (slice_split is_line_feed text.now) ≡ Some checking.new.clauses)
        (clauses_of given.now.net.now given.now.order.now checking.old (slice_split is_line_feed text.now) ≡ None)) }
    ensures quiet { IsTrue (S.is_quiet stop.now) → IsErrOf result Unfound.Stopped → ⊥ }
{
    let mut rest = text;
    for _ in 0..text.len() {
        if stop.asked() {
            return Err(Unfound::Stopped);
        }
        let Some((line, more)) = cut_at(rest, b'\n') else {
            return Ok(false);
        };
        if is_last(line) {
            return Ok(more.is_empty());
        }
        if !checking.take_line(alloc, given, line)? {
            return Ok(false);
        }
        rest = more;
    }
    Ok(false)
}
