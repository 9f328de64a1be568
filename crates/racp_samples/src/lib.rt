//! Networks, orders and questions that tests share: example texts, small networks made of literals, and random ones.
//!
//! Jobs and resources are numbered from 1; their places in lists count from 0. Times are whole time units from 0 on.
//!
//! The three networks of examples/ are here as values, so that a test of one crate takes no reader:
//!
//! ```text
//! function      jobs of examples/    shape
//! parallel      a.sm                 2, 3 and 4 between 1 and 5
//! crossed       b.sm                 2 and 3, then 4 and 5, between 1 and 6; two resources
//! chained       c.sm                 2 beside the chain 3, 4, 5, between 1 and 6
//! ```
//!
//! Their jobs, each with its duration and its requests; the first and the last have duration 0 and request nothing:
//!
//! ```text
//! parallel      2: 3, 2      3: 2, 1      4: 2, 1
//! crossed       2: 1, 1 0    3: 1, 1 0    4: 1, 0 1    5: 1, 0 1
//! chained       2: 4, 1      3: 1, 1      4: 3, 2      5: 4, 1
//! ```
//!
//! `texts` has the second network as a text, and an order and plans.
//!
//! `network(alloc, 1, &[(3, &[2]), (2, &[1])], &[(1, 2)])` makes any other small network: here of one resource and two
//! jobs, the first before the second. `question`, `window` and `root_window` make what a test asks about a network.
//! They refuse lists of a wrong length and bounds that are too great, and their contracts say so, so that a test that
//! uses them has no lengths to show.
//!
//! `Random` is a linear congruential generator of 64 bits: the same seed gives the same numbers, so a test that uses it
//! does the same in each run. `random_network` has durations up to 3 and requests up to 2, and each pair of jobs one
//! time in three. `random_order` has a deadline up to 6, half of the time ceilings, and half of the time due times.
//! `empty_order` has a deadline alone: the test fills its lists.
//!
//! Proved: each window that `window` and `root_window` make has bounds for each job, and each question of `question`
//! also a capacity for each resource. Nothing else is promised: no contract says which numbers come out. For tests
//! alone; no crate of the program uses this one.
#![tactic(auto)]

mod fault;
mod networks;
mod orders;
mod questions;
mod random;
pub mod texts;

pub use fault::SampleFault;
pub use networks::{chained, crossed, network, parallel};
pub use orders::empty_order;
pub use questions::{question, root_window, window};
pub use random::{Random, random_network, random_order};
