//! What is answered of how soon a project can end.

use racp_lexfix::{Answer, PlanStop};
use racp_plan::Plan;

/// How soon a project can end on the terms of an order, or why it cannot end by the order's deadline.
#[derive(Drop)]
pub enum Soonest {
    /// The plan of the order with the least deadline that has one, which the plan tells.
    Plan(Plan),
    /// There is no plan for the order's own deadline, and so for none before it, for this reason.
    NoPlan(Answer),
}

/// Between which deadlines the least one lies that has a plan, in time units.
#[derive(Clone, Copy)]
pub struct Span {
    /// There is no plan for any deadline before this one.
    pub least: u32,
    /// There is a plan for this deadline, if one is known.
    pub known: Option<u32>,
}

/// Why the least deadline is not known, and what is known of it.
#[derive(Drop)]
pub struct SoonestStop {
    /// Where it lies.
    pub span: Span,
    /// Why no more is known.
    pub stop: PlanStop,
}
