//! Tests of series of questions and of those who answer them: the collector, the desk with its workers, and an asker that gives up
//! within the first stage of planning.
#![tactic(auto)]

#[cfg(test)]
mod collector;
#[cfg(test)]
mod desk;
#[cfg(test)]
mod series;
#[cfg(test)]
mod stages;
#[cfg(test)]
mod tired;
