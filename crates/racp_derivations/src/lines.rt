//! Reading what a line says.

ghost use Rattle.std.specs.Prelude.{◌≡◌, ◌≤◌};
ghost use Rattle.racp_derivations.specs.BoundTexts.{least_on};
ghost use Rattle.racp_derivations.specs.Lines.{bound_by, bound_on, budget_on, earlier_on, energy_on, line_of, literal_of, pair_on, request_on, start_on, step_of, times_on, units_on};

use crate::line::{Line, Step};
use crate::pairs::pair_at;
use crate::words::{MOST_NUMBER, behind_word, first_word, number_of, place_of};
use racp_clauses::Literal;
use racp_model::Network;

/// What a line says, or `None` if it is not of its form, or names a job, a resource or a pair that is not there.
#[tactic(auto, unfolding(crate::specs::Lines::line_of))]
pub(crate) fn line_of(net: &Network, line: &[u8]) -> Option<Line>
    ensures { result ≡ line_of net.now line.now }
{
    if line == b"holds".as_slice() {
        return Some(Line::Holds);
    }
    if line == b"keep".as_slice() {
        return Some(Line::Keep);
    }
    if line == b"prices".as_slice() {
        return Some(Line::Take(Step::Prices));
    }
    let (word, rest) = (first_word(line), behind_word(line));
    if let Some(literal) = literal_of(net, word, rest) {
        return Some(Line::Suppose(literal));
    }
    let step = step_of(net, word, rest)?;
    Some(Line::Take(step))
}

/// The number of a line `at least N`.
#[tactic(auto, unfolding(crate::specs::BoundTexts::least_on))]
pub(crate) fn least_on(line: &[u8]) -> Option<u64>
    ensures { result ≡ least_on line.now }
{
    let rest = behind_word(line);
    if first_word(line) == b"at".as_slice() && first_word(rest) == b"least".as_slice() {
        number_of(behind_word(rest))
    } else {
        None
    }
}

/// The literal that a word and the rest of a line say.
#[tactic(auto, unfolding(crate::specs::Lines::literal_of))]
fn literal_of(net: &Network, word: &[u8], rest: &[u8]) -> Option<Literal>
    ensures { result ≡ literal_of net.now word.now rest.now }
{
    if word == b"start".as_slice() {
        return start_on(net, rest);
    }
    if word == b"units".as_slice() {
        return units_on(net, rest);
    }
    if word == b"cost".as_slice() {
        return bound_on(net.job_count() + net.resource_count(), rest);
    }
    None
}

/// A bound of a job's start.
#[tactic(auto, unfolding(crate::specs::Lines::start_on))]
fn start_on(net: &Network, rest: &[u8]) -> Option<Literal>
    ensures { result ≡ start_on net.now rest.now }
{
    let job = place_of(net.job_count(), first_word(rest))?;
    bound_on(job, behind_word(rest))
}

/// A bound of the units of a resource.
#[tactic(auto, unfolding(crate::specs::Lines::units_on))]
fn units_on(net: &Network, rest: &[u8]) -> Option<Literal>
    ensures { result ≡ units_on net.now rest.now }
{
    let resource = place_of(net.resource_count(), first_word(rest))?;
    bound_on(net.job_count() + resource, behind_word(rest))
}

/// A bound of the variable at a place.
#[tactic(auto, unfolding(crate::specs::Lines::bound_on))]
fn bound_on(x: usize, rest: &[u8]) -> Option<Literal>
    requires { x ≤ 1000 }
    ensures { result ≡ bound_on x rest.now }
{
    let value = number_of(behind_word(rest))?;
    bound_by(first_word(rest), x as u32, value)
}

/// That the variable at a place is at least, or at most, so much, by a sign.
#[tactic(auto, unfolding(crate::specs::Lines::bound_by))]
fn bound_by(sign: &[u8], x: u32, value: u64) -> Option<Literal>
    ensures { result ≡ bound_by sign.now x value }
{
    if sign == b">=".as_slice() {
        return Some(Literal::AtLeast(x, value));
    }
    if sign == b"<=".as_slice() {
        return Some(Literal::AtMost(x, value));
    }
    None
}

/// The step that a word and the rest of a line say.
#[tactic(auto, unfolding(crate::specs::Lines::step_of))]
fn step_of(net: &Network, word: &[u8], rest: &[u8]) -> Option<Step>
    ensures { result ≡ step_of net.now word.now rest.now }
{
    if word == b"pair".as_slice() {
        return pair_on(net, rest);
    }
    if word == b"times".as_slice() {
        return times_on(net, rest);
    }
    if word == b"energy".as_slice() {
        return energy_on(net, rest);
    }
    if word == b"request".as_slice() {
        return request_on(net, rest);
    }
    if word == b"budget".as_slice() {
        return budget_on(net, rest);
    }
    if word == b"clause".as_slice() {
        return earlier_on(rest);
    }
    None
}

/// Along a pair of the precedence relation.
#[tactic(auto, unfolding(crate::specs::Lines::pair_on))]
fn pair_on(net: &Network, rest: &[u8]) -> Option<Step>
    ensures { result ≡ pair_on net.now rest.now }
{
    let first = place_of(net.job_count(), first_word(rest))?;
    let second = place_of(net.job_count(), behind_word(rest))?;
    let place = pair_at(net, first, second)?;
    Some(Step::Pair(place))
}

/// Time table.
#[tactic(auto, unfolding(crate::specs::Lines::times_on))]
fn times_on(net: &Network, rest: &[u8]) -> Option<Step>
    ensures { result ≡ times_on net.now rest.now }
{
    let job = place_of(net.job_count(), first_word(rest))?;
    let rest = behind_word(rest);
    let resource = place_of(net.resource_count(), first_word(rest))?;
    let rest = behind_word(rest);
    let from = number_of(first_word(rest))?;
    let until = number_of(behind_word(rest))?;
    Some(Step::TimeTable(job as u16, resource as u16, from, until))
}

/// Energy.
#[tactic(auto, unfolding(crate::specs::Lines::energy_on))]
fn energy_on(net: &Network, rest: &[u8]) -> Option<Step>
    ensures { result ≡ energy_on net.now rest.now }
{
    let resource = place_of(net.resource_count(), first_word(rest))?;
    let rest = behind_word(rest);
    let from = number_of(first_word(rest))?;
    let until = number_of(behind_word(rest))?;
    Some(Step::Energy(resource as u16, from, until))
}

/// What a job requests of a resource.
#[tactic(auto, unfolding(crate::specs::Lines::request_on))]
fn request_on(net: &Network, rest: &[u8]) -> Option<Step>
    ensures { result ≡ request_on net.now rest.now }
{
    let job = place_of(net.job_count(), first_word(rest))?;
    let resource = place_of(net.resource_count(), behind_word(rest))?;
    Some(Step::Request(job as u16, resource as u16))
}

/// What the greatest cost pays for.
#[tactic(auto, unfolding(crate::specs::Lines::budget_on))]
fn budget_on(net: &Network, rest: &[u8]) -> Option<Step>
    ensures { result ≡ budget_on net.now rest.now }
{
    let resource = place_of(net.resource_count(), rest)?;
    Some(Step::Budget(resource as u16))
}

/// An earlier clause.
#[tactic(auto, unfolding(crate::specs::Lines::earlier_on))]
fn earlier_on(rest: &[u8]) -> Option<Step>
    ensures { result ≡ earlier_on rest.now }
{
    let place = place_of(MOST_NUMBER as usize, rest)?;
    Some(Step::Earlier(place))
}
