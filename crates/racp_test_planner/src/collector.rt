//! Calls of a collector of four questions and more.

pub(crate) mod calls;
pub(crate) mod handing;
mod rows;
mod scripts;
pub(crate) mod series;
pub(crate) mod trial;
