//! Sets of jobs, in 512 bits.

ghost use Rattle.std.specs.Prelude.{◌≡◌, ◌↔◌, ℕ, IsTrue, MatchOption, [], ◌∷◌, Contains, nat_eq};
ghost use Rattle.std.specs.Cmp.Lexicographic.{pointwise};
ghost use Rattle.std.specs.Cmp.{partial_equiv_from_equiv};
ghost use Rattle.std.proofs.lemmas.Cmp.{nat_list_eq_equiv};
ghost use Rattle.std.specs.Iterator.{YieldsFirst, item_count};
ghost use Rattle.racp_model.specs.Project.{IsNumber};
ghost use Rattle.racp_model.specs.JobSets.{members, AreJobs, IsInserted, IsSubset};
ghost use Rattle.racp_model.specs.Words.{AreWords, AreZero, IsFirstWord, IsLowestBit, AreBitsWithin};

use std::marker::Model;

/// A set of jobs, by their numbers from 1 to 512. Takes no memory. Contracts see the list of the numbers, rising.
#[derive(Drop)]
pub struct JobSet {
    words: [u64; 8],
}

impl Model for JobSet {
    ghost use Rattle.std.specs.Prelude.{ℕ, List};
    ghost use Rattle.racp_model.specs.JobSets.{members};

    ghost Value = { List ℕ };

    ghost view = { λ set. members set.words };
}

impl JobSet {
    /// The empty set.
    pub fn new() -> Self
        ensures { result ≡ [] }
    {
        JobSet { words: [0; 8] }
    }

    /// A copy of the set.
    pub fn copy(&self) -> Self
        ensures same { result ≡ self.now }
        ensures jobs { AreJobs self.now }
    {
        JobSet { words: self.words }
    }

    /// The set as words of 64 bits: the job at place i, from 0, has bit i % 64 of word i / 64.
    #[inline]
    pub fn words(&self) -> &[u64; 8]
        ensures { self.now ≡ members result.now }
    {
        &self.words
    }

    /// Whether a job, from 1 to 512, is in the set.
    pub fn contains(&self, job: u32) -> bool
        requires { IsNumber 512 job }
        ensures is { IsTrue result ↔ Contains self.now job }
        ensures jobs { AreJobs self.now }
    {
        let place = job as usize - 1;
        (self.words[place / 64] >> (place % 64)) & 1 == 1
    }

    /// Puts a job, from 1 to 512, into the set. It may be there already.
    #[inline]
    pub fn insert(&mut self, job: u32)
        requires { IsNumber 512 job }
        ensures inserted { IsInserted self.old job self.new }
        ensures jobs { AreJobs self.new }
    {
        let place = job as usize - 1;
        self.words[place / 64] |= 1 << (place % 64);
    }

    /// Takes the least job out of the set.
    fn pop_first(&mut self) -> Option<u32>
        ensures first { MatchOption result ((self.old ≡ []) × (self.new ≡ [])) (λ job. self.old ≡ job ∷ self.new) }
        ensures jobs { AreJobs self.old }
    {
        let Some((q, bit)) = lowest(&self.words) else {
            return None;
        };
        self.words[q] &= !(1 << bit);
        Some(64 * q as u32 + bit + 1)
    }

    /// Whether no job is in the set.
    pub fn is_empty(&self) -> bool
        ensures { IsTrue result ↔ (self.now ≡ []) }
    {
        lowest(&self.words).is_none()
    }

    /// Whether each job of the set is in another one.
    pub fn is_subset(&self, other: &JobSet) -> bool
        ensures { IsTrue result ↔ IsSubset self.now other.now }
    {
        is_within(&self.words, &other.words)
    }

    /// The jobs of the set, in rising order.
    pub fn iter(&self) -> Jobs
        ensures same { result ≡ self.now }
        ensures jobs { AreJobs self.now }
    {
        Jobs { left: self.copy() }
    }
}

impl PartialEq for JobSet {
    ghost eq = { pointwise nat_eq };

    ghost laws = { partial_equiv_from_equiv nat_list_eq_equiv };

    fn eq(&self, other: &JobSet) -> bool
        ensures same { IsTrue result ↔ (self.now ≡ other.now) }
        ensures is { result ≡ pointwise nat_eq self.now other.now }
    {
        is_same(&self.words, &other.words)
    }
}

/// The jobs of a set that are still to come, in rising order. Contracts see the list of them.
#[derive(Drop)]
pub struct Jobs {
    left: JobSet,
}

impl Model for Jobs {
    ghost use Rattle.std.specs.Prelude.{ℕ, List};

    ghost Value = { List ℕ };

    ghost view = { λ jobs. jobs.left };
}

impl Iterator for Jobs {
    type Item = u32;

    ghost next_gives = { YieldsFirst (λ jobs. jobs) };

    ghost remaining = { item_count (λ jobs. jobs) };

    fn next(&mut self) -> Option<u32> {
        self.left.pop_first()
    }
}

/// The first word that is not 0, and its lowest bit.
fn lowest(words: &[u64; 8]) -> Option<(usize, u32)>
    ensures { MatchOption result (AreZero words.now) (λ found. IsLowestBit words.now found.0 found.1) }
{
    match first_word(words) {
        Some(q) => Some((q, words[q].trailing_zeros())),
        None => None,
    }
}

/// The first word that is not 0.
fn first_word(words: &[u64; 8]) -> Option<usize>
    ensures first { MatchOption result (AreZero words.now) (IsFirstWord words.now) }
    ensures words { AreWords words.now }
{
    words.iter().position(|word| *word != 0)
}

/// Whether no bit is set that is not set in the other words.
fn is_within(part: &[u64; 8], whole: &[u64; 8]) -> bool
    ensures within { IsTrue result ↔ AreBitsWithin part.now whole.now }
    ensures part { AreWords part.now }
    ensures whole { AreWords whole.now }
{
    (0..8).all(|q| part[q] & !whole[q] == 0)
}

/// Whether the same bits are set.
fn is_same(a: &[u64; 8], b: &[u64; 8]) -> bool
    ensures same { IsTrue result ↔ (a.now ≡ b.now) }
    ensures a { AreWords a.now }
    ensures b { AreWords b.now }
{
    a == b
}
