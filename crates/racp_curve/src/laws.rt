//! Laws of deadlines and curves. The contract of each function is the law.

ghost use Rattle.racp_curve.specs.Laws.{EnoughLater, NotEnoughSooner, PlannedBetween, CurveIsOne, CurveExists, CurveTells};

use racp_lexfix::laws::answer_exists;

/// What is enough for a deadline is enough for each later one.
pub fn enough_later()
    ensures { EnoughLater }
{}

/// What stands before the capacities of the plan for a longer deadline is not enough for a shorter one.
pub fn not_enough_sooner()
    ensures { NotEnoughSooner }
{}

/// The capacities of a plan that are enough for an earlier deadline are those of the plan for each deadline between the
/// two.
pub fn planned_between()
    ensures { PlannedBetween }
{}

/// An order has one curve at most, whoever follows it.
pub fn curve_is_one()
    ensures { CurveIsOne }
{}

/// An order for a network has a curve, or a reason why there is no plan for its own deadline.
pub fn curve_exists()
    ensures { CurveExists }
{
    answer_exists();
}

/// A curve tells of each deadline up to the order's: there is no plan, or a step has the capacities of the plan.
pub fn curve_tells()
    ensures { CurveTells }
{}
