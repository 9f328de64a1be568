//! Tests of networks, links between tasks, early and late starts, tightened windows, conflicts, bounds and drafts, over their public
//! functions; and of the search by branching: its pieces and what is left of them, where it stops, the lines by which it refutes, and
//! which of its records are found, also by another thread.
#![tactic(auto)]

#[cfg(test)]
mod behind;
#[cfg(test)]
mod bounds;
#[cfg(test)]
mod conflicts;
#[cfg(test)]
mod fitting;
#[cfg(test)]
mod job_sets;
#[cfg(test)]
mod links;
#[cfg(test)]
mod networks;
#[cfg(test)]
mod paths;
#[cfg(test)]
mod profiles;
#[cfg(test)]
mod records;
#[cfg(test)]
mod refuting;
#[cfg(test)]
mod samples;
#[cfg(test)]
mod schedules;
#[cfg(test)]
mod searches;
#[cfg(test)]
mod stints;
#[cfg(test)]
mod timetables;
