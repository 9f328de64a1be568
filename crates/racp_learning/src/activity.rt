//! How often bounds took part in conflicts of late (Moskewicz, Madigan, Zhao, Zhang and Malik 2001).

use crate::bound::Bound;
use crate::candidate::Candidate;
use crate::problem::Problem;
use crate::rows::value_at;
use crate::scale::Scale;
use std::alloc::{AllocError, Global};

/// So many scores there may be for all variables.
const MOST_SCORES: usize = 131_072;

/// A score above which all are made less.
const MOST_SCORE: f64 = 1e100;

/// So many scores that stand side by side have a top.
const BLOCK: usize = 16;

/// Thresholds of a variable are the values that it may reach or not. Each has a score; where a variable has very many,
/// groups of them have one.
#[derive(Drop)]
pub(crate) struct Activity {
    scores: Vec<f64>,
    /// The greatest score of each block.
    tops: Vec<f64>,
    latest: Vec<i64>,
    scales: Vec<Scale>,
    step: f64,
}

impl Activity {
    /// No scores yet, but small ones for starts by the seed, if it is not 0.
    pub(crate) fn new(alloc: Global, problem: &Problem, seed: u64) -> Result<Activity, AllocError> {
        let most = MOST_SCORES.checked_div(problem.variables()).unwrap_or(0);
        let mut scales = Vec::with_capacity(alloc, problem.cost())?;
        let mut scores = Vec::new(alloc);
        let mut latest = Vec::new(alloc);
        let mut random = seed.wrapping_mul(0x9E37_79B9_7F4A_7C15);
        for x in 0..problem.cost() {
            let from = problem.root_lower(x);
            let scale = Scale::new(from, problem.root_upper(x), most, scores.len());
            for at in scale.first()..scale.end() {
                random = next(random);
                let is_random = seed != 0 && x < problem.jobs;
                scores.push(if is_random { small(random) } else { 0.0 })?;
                latest.push(scale.value(at))?;
            }
            scales.push(scale)?;
        }
        let tops = tops_of(alloc, &scores)?;
        Ok(Activity {
            scores,
            tops,
            latest,
            scales,
            step: 1.0,
        })
    }

    /// A bound has taken part.
    #[inline]
    pub(crate) fn bump(&mut self, bound: Bound) {
        let threshold = bound.threshold();
        let Some(scale) = self.scales.get(bound.variable()) else {
            return;
        };
        let at = scale.at(threshold);
        if at < self.scores.len() && at < self.latest.len() {
            let score = self.scores[at] + self.step;
            self.scores[at] = score;
            self.latest[at] = threshold;
            self.raise_top(at / BLOCK, score);
            if MOST_SCORE < score {
                self.rescale();
            }
        }
    }

    /// A block has this score.
    #[inline]
    fn raise_top(&mut self, block: usize, score: f64) {
        if block < self.tops.len() && self.tops[block] < score {
            self.tops[block] = score;
        }
    }

    fn rescale(&mut self) {
        for score in self.scores.iter_mut() {
            *score *= 1.0 / MOST_SCORE;
        }
        for top in self.tops.iter_mut() {
            *top *= 1.0 / MOST_SCORE;
        }
        self.step *= 1.0 / MOST_SCORE;
    }

    /// What took part before counts less.
    pub(crate) fn decay(&mut self) {
        self.step *= 1.0 / 0.95;
    }

    /// The threshold of a variable with the greatest score, between two values; the first one, without a score, if none of
    /// those that have a score and took part last lies there, or if all of these have less than some score.
    #[inline]
    pub(crate) fn best(&self, x: usize, from: i64, until: i64, least: f64) -> Candidate {
        let none = Candidate::of(x, from, 0.0);
        let Some(scale) = self.scales.get(x) else {
            return none;
        };
        let mut first = scale.at(from);
        let mut last = scale.at(until);
        if value_at(&self.latest, first) < from {
            first = first.wrapping_add(1);
        }
        if until < value_at(&self.latest, last) {
            last = last.wrapping_sub(1);
        }
        let end = last.wrapping_add(1);
        let greatest = self.greatest_between(first, end);
        if greatest < least {
            return none;
        }
        for at in first..end {
            if score_at(&self.scores, at) == greatest {
                return Candidate::of(x, value_at(&self.latest, at), greatest);
            }
        }
        none
    }

    /// The greatest score from a place to before another, or -1 if there are none.
    #[inline]
    fn greatest_between(&self, first: usize, end: usize) -> f64 {
        let (from, until) = (first.div_ceil(BLOCK), end / BLOCK);
        if until <= from {
            return greatest(part(&self.scores, first, end));
        }
        let mut most = greatest(part(&self.tops, from, until));
        let head = part(&self.scores, first, from.wrapping_mul(BLOCK));
        most = larger(most, greatest(head));
        let tail = part(&self.scores, until.wrapping_mul(BLOCK), end);
        larger(most, greatest(tail))
    }
}

/// The greatest score of each block.
fn tops_of(alloc: Global, scores: &[f64]) -> Result<Vec<f64>, AllocError> {
    let mut tops = Vec::with_capacity(alloc, scores.len().div_ceil(BLOCK))?;
    for block in scores.chunks(BLOCK) {
        tops.push(greatest(block))?;
    }
    Ok(tops)
}

/// The scores from a place to before another, or none if these are not there.
#[inline]
fn part(scores: &[f64], from: usize, until: usize) -> &[f64] {
    scores.get(from..until).unwrap_or(&[])
}

/// The score at a place.
#[inline]
fn score_at(scores: &[f64], at: usize) -> f64 {
    if at < scores.len() { scores[at] } else { 0.0 }
}

/// The larger of two scores.
#[inline]
fn larger(one: f64, other: f64) -> f64 {
    if one < other { other } else { one }
}

/// The greatest of some scores, or -1 if there are none.
#[inline]
fn greatest(scores: &[f64]) -> f64 {
    let mut greatest = -1.0;
    for &score in scores {
        if greatest < score {
            greatest = score;
        }
    }
    greatest
}

/// The next of some numbers that look random (Marsaglia 2003).
fn next(random: u64) -> u64 {
    let mut next = random;
    next ^= next << 13;
    next ^= next >> 7;
    next ^= next << 17;
    next
}

/// A number below a thousandth.
fn small(random: u64) -> f64 {
    f64::from((random % 1000) as u32) * 1e-6
}
