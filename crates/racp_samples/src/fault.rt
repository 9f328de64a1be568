//! Why a sample cannot be made.

use racp_model::NetFault;
use std::alloc::AllocError;
use thiserror::Error;

/// Why a sample cannot be made.
#[derive(Debug, Clone, Copy, Drop, Error)]
pub enum SampleFault {
    /// A number is out of range, a list has another length than its network wants, or there is no root window.
    #[error("no such sample")]
    NoSample,
    /// No network has these jobs and pairs.
    #[error("no such network")]
    Network,
    /// Memory was refused.
    #[error("memory was refused")]
    Memory,
}

impl From<AllocError> for SampleFault {
    fn from(_: AllocError) -> SampleFault {
        SampleFault::Memory
    }
}

impl From<NetFault> for SampleFault {
    fn from(fault: NetFault) -> SampleFault {
        match fault {
            NetFault::Memory => SampleFault::Memory,
            _ => SampleFault::Network,
        }
    }
}
