//! Why no network was made.

use std::alloc::AllocError;
use thiserror::Error;

/// Why no network was made: the first of these that holds, in this order.
#[derive(Debug, Clone, Copy, PartialEq, Eq, Drop, Error)]
pub enum NetFault {
    /// A number is outside its range, or a job has another number of requests than there are resources.
    #[error("a number is out of range, or a job has a wrong number of requests")]
    Limit = 1,
    /// A pair names a job that is not there.
    #[error("a pair names no job")]
    BadJob = 2,
    /// A job would have to wait for itself.
    #[error("a job has to wait for itself")]
    Cycle = 3,
    /// Memory ran out.
    #[error("out of memory")]
    Memory = 4,
}

impl From<AllocError> for NetFault {
    ghost use Rattle.std.specs.Prelude.{◌≡◌};
    ghost use Rattle.racp_model.specs.declared.fault.NetFault.TheVariants.{Memory};

    ghost from_gives = { λ _ fault. fault ≡ Memory };

    fn from(_error: AllocError) -> NetFault {
        NetFault::Memory
    }
}
