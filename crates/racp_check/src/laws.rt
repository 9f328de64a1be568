//! Laws of the check of plans, beside those of their texts. Each function does nothing; its contract is the law.

ghost use Rattle.racp_check.specs.CheckLaws.{AnswerIsOne, PlanIsFitting, YesIsFitting};

pub use racp_plan::laws::{
    fault_has_line, one_text_one_plan, reading_is_one, text_is_read, written_is_read,
};

/// The check says yes exactly if nothing is wrong with a plan, so a fault is answered only if there is one.
pub fn yes_is_fitting()
    ensures { YesIsFitting }
{}

/// Nothing is wrong with the plan of an order.
pub fn plan_is_fitting()
    ensures { PlanIsFitting }
{}

/// The check answers one thing of a plan.
pub fn answer_is_one()
    ensures { AnswerIsOne }
{}
