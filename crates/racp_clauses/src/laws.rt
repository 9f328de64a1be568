//! Laws of clauses, of refuted bounds, of parts of a problem, of least work, and of the plan as the least solution. The
//! functions do nothing; their contracts are the laws.

ghost use Rattle.racp_clauses.specs.Uses.{HoldsOfFitting, HoldsOfParts, LeastWorkIsDone, RefutedAreNotEnough, TighterIsPart};
ghost use Rattle.racp_clauses.specs.Least.{LeastUnitsAreFirst, LeastIsPlan};

/// If no solution lies within bounds that leave the starts open, no units within them are enough.
pub fn refuted_are_not_enough()
    ensures { RefutedAreNotEnough }
{}

/// Starts that fit some capacities in time satisfy some literal of each clause that holds.
pub fn clauses_hold_of_fitting()
    ensures { HoldsOfFitting }
{}

/// A clause of a problem holds of each part of it.
pub fn clauses_hold_of_parts()
    ensures { HoldsOfParts }
{}

/// Under tighter terms, as a shorter deadline or lower ceilings, an order is part of what it was.
pub fn tighter_is_part()
    ensures { TighterIsPart }
{}

/// Wherever the jobs start in a window, a job does its least work between two times.
pub fn least_work_is_done()
    ensures { LeastWorkIsDone }
{}

/// Where no solution is less by the cost or by the units of a resource, no capacities that are enough stand before
/// these.
pub fn least_units_are_first()
    ensures { LeastUnitsAreFirst }
{}

/// Where no solution is less by any variable, starts that fit, and their capacities, are the plan.
pub fn least_is_plan()
    ensures { LeastIsPlan }
{}
