//! The desk, and questions that are put to workers one by one.

mod crews;
mod halts;
mod pairs;
mod probes;
mod runs;
mod scripts;
mod series;
mod stops;
mod trial;
