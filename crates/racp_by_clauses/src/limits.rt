//! How long an optimum is looked for.

/// How long an optimum is looked for, and by which numbers of chance.
#[derive(Clone, Copy)]
pub struct Limits {
    /// After how many conflicts the search gives up.
    pub conflicts: u64,
    /// How many bytes its clauses take at most, about.
    pub bytes: u64,
    /// In how many rounds the first draft is made better.
    pub rounds: u32,
    /// The seed of the numbers by chance. With the same seed the search goes the same way.
    pub seed: u64,
}
