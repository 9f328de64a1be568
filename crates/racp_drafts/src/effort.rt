//! How long drafts are made better.

/// How long a draft is made better, and by which numbers of chance.
#[derive(Debug, Clone, Copy, PartialEq, Eq)]
pub struct Effort {
    /// In how many rounds, at most, some jobs are taken out and placed anew.
    pub rounds: u32,
    /// The seed of the numbers by chance. The same seed gives the same draft.
    pub seed: u64,
}
