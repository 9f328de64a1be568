//! Why a run gives no answer.

use thiserror::Error;

/// Why a run gave no answer.
#[derive(Debug, Drop, Error)]
pub enum DeskFault {
    /// Memory was refused.
    #[error("out of memory")]
    Memory,
    /// A worker could not be started.
    #[error("no thread could be started")]
    NoThread,
}
