//! Tests of what no text of the program shows: flushes that fail, capacities of another network, and pairs of jobs that are not there.
#![tactic(auto)]

#[cfg(test)]
mod flushes;
#[cfg(test)]
mod refusals;
