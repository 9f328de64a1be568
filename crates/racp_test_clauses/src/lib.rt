//! Tests of facts about the engine by clauses: searches that learn beside all schedules, with little memory and with few conflicts,
//! optima beside plans by definition, what one of two searches side by side takes from the other, certificates by clauses of what a
//! search has recorded, and a stop within the check of such a text.
#![tactic(auto)]

#[cfg(test)]
mod all_schedules;
#[cfg(test)]
mod asking;
#[cfg(test)]
mod beside;
#[cfg(test)]
mod certificates;
#[cfg(test)]
mod descents;
#[cfg(test)]
mod floors;
#[cfg(test)]
mod listener;
#[cfg(test)]
mod optima;
#[cfg(test)]
mod orders;
#[cfg(test)]
mod pausing;
#[cfg(test)]
mod searches;
#[cfg(test)]
mod sums;
#[cfg(test)]
mod tasks;
#[cfg(test)]
mod texts;
