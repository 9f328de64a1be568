//! Laws of the answers. Each function does nothing but call other laws; its contract is the law.

ghost use Rattle.racp_lexfix.specs.Laws.{AnswerIsOne, AnswerExists, ImpossibleIsNoPlan, ImpossibleIsByLength, PlanIsByLength};

use racp_cpm::laws::critical_is_greatest_finish;

/// An order has at most one answer: of a plan and the reasons against one, never two.
pub fn answer_is_one()
    ensures { AnswerIsOne }
{}

/// An order for a network has an answer: a plan or one of the reasons.
pub fn answer_exists()
    ensures { AnswerExists }
{
    critical_is_greatest_finish();
}

/// An answer is no plan exactly where there is no plan.
pub fn impossible_is_no_plan()
    ensures { ImpossibleIsNoPlan }
{}

/// Without ceilings and due times before the deadline, an answer is no plan exactly where the critical length exceeds
/// the deadline.
pub fn impossible_is_by_length()
    ensures { ImpossibleIsByLength }
{
    critical_is_greatest_finish();
}

/// Without ceilings and due times before the deadline, there is a plan exactly where the critical length does not
/// exceed the deadline.
pub fn plan_is_by_length()
    ensures { PlanIsByLength }
{
    critical_is_greatest_finish();
}
