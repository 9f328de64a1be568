//! The greatest numbers of a network and of an order.

/// The most jobs of a network.
pub const MOST_JOBS: usize = 512;

/// The most resources of a network.
pub const MOST_RESOURCES: usize = 16;

/// The longest duration of a job, in time units.
pub const MOST_DURATION: u32 = 10_000;

/// The greatest request of a job, in units of a resource.
pub const MOST_REQUEST: u32 = 10_000;

/// The latest deadline, release and due time of an order, in time units.
pub const LATEST_TIME: u32 = 10_000_000;

/// The most units of a resource that are owned, or that a ceiling allows.
pub const MOST_UNITS: u32 = 10_000_000;

/// The highest price of a unit.
pub const MOST_PRICE: u32 = 1_000_000;
