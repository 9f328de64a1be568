//! How much work was done.

use serde::Serialize;

/// How much work was done for an answer, as far as it is known.
#[derive(Clone, Copy, Serialize)]
pub struct Work {
    /// How many pieces were taken.
    #[serde(skip_serializing_if = "Option::is_none")]
    pub pieces: Option<u64>,
    /// How many nodes were searched.
    #[serde(skip_serializing_if = "Option::is_none")]
    pub nodes: Option<u64>,
    /// How many conflicts a search that learns has met.
    #[serde(skip_serializing_if = "Option::is_none")]
    pub conflicts: Option<u64>,
    /// How many seconds have passed.
    #[serde(skip_serializing_if = "Option::is_none")]
    pub seconds: Option<f64>,
}

impl Work {
    /// Nothing is known of it.
    pub fn unknown() -> Self {
        Work {
            pieces: None,
            nodes: None,
            conflicts: None,
            seconds: None,
        }
    }
}
