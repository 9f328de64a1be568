//! What an object is made of.

use crate::work::Work;
use racp_calendar::Calendar;

/// A command whose answer is told.
#[derive(Clone, Copy)]
pub enum Command {
    /// The critical length and the early starts of a network.
    Cpm,
    /// The plan of an order.
    Plan,
    /// Whether a plan is right.
    Check,
    /// Whether a certificate proves a plan.
    Verify,
    /// What each plan costs at least, as a certificate shows.
    Bound,
    /// What each deadline costs.
    Curve,
    /// The plan with the least deadline.
    Soonest,
    /// The text of an order.
    Order,
}

/// The names of the files that a command reads; empty for those that it does not read.
#[derive(Clone, Copy)]
pub struct FileNames<'a> {
    /// The network.
    pub net: &'a str,
    /// The order.
    pub order: &'a str,
    /// The plan.
    pub plan: &'a str,
    /// The certificate.
    pub proof: &'a str,
}

/// What is told beside an answer of what is wrong; empty words are not told.
#[derive(Clone, Copy)]
pub struct Words<'a> {
    /// What is wrong, and where.
    pub says: &'a str,
    /// What was wanted there.
    pub wanted: &'a str,
    /// What is there.
    pub found: &'a str,
}

/// An answer, with the texts that it is about and what is known beside it.
#[derive(Clone, Copy)]
pub struct Told<'a> {
    /// The command.
    pub command: Command,
    /// The status with which it ends.
    pub status: u8,
    /// What it wrote.
    pub text: &'a [u8],
    /// The network that it read.
    pub net: &'a [u8],
    /// The order that it read; empty if it reads none.
    pub order: &'a [u8],
    /// The text of the best plan that is known, of a run that was stopped; empty if there is none.
    pub best: &'a [u8],
    /// The names of its files.
    pub files: FileNames<'a>,
    /// How much work was done.
    pub work: Work,
    /// How times are told beside their numbers.
    pub calendar: Calendar<'a>,
}
