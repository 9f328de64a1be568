//! Why links are no pairs.

use std::alloc::AllocError;

/// Why links were not made pairs and waiting jobs: the first link that is wrong, by its place from 0; or, only if none
/// is, lack of memory.
#[derive(Clone, Copy)]
pub enum LinkFault {
    /// The link names no task, or one task twice.
    NoTask(usize),
    /// The second task could start before the first has ended.
    Overlap(usize),
    /// The waiting job would be longer than a job may be, or have a number above 4,294,967,295.
    TooLong(usize),
    /// Memory ran out.
    Memory,
}

impl From<AllocError> for LinkFault {
    ghost use Rattle.std.specs.Prelude.{◌≡◌};
    ghost use Rattle.racp_links.specs.declared.fault.LinkFault.TheVariants.{Memory};

    ghost from_gives = { λ _ fault. fault ≡ Memory };

    fn from(_error: AllocError) -> LinkFault {
        LinkFault::Memory
    }
}

/// Why links between phases were not spread over their leaves: the first of these that holds, in this order. Places count
/// from 0.
#[derive(Clone, Copy)]
pub enum PhaseFault {
    /// There are more than 4,294,967,295 tasks.
    TooMany,
    /// The task at this place is part of one that does not stand before it.
    Parent(usize),
    /// The link at this place, the first that is wrong, names no task, or one task twice.
    NoTask(usize),
    /// The link at this place, the first that is wrong, ties a phase to a task in it.
    Inside(usize),
    /// The link at this place, the first that is wrong, ties a phase, and not from finish to start.
    Kind(usize),
    /// Memory ran out.
    Memory,
}

impl From<AllocError> for PhaseFault {
    ghost use Rattle.std.specs.Prelude.{◌≡◌};
    ghost use Rattle.racp_links.specs.declared.fault.PhaseFault.TheVariants.{Memory};

    ghost from_gives = { λ _ fault. fault ≡ Memory };

    fn from(_error: AllocError) -> PhaseFault {
        PhaseFault::Memory
    }
}
