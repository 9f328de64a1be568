//! Laws of the soonest plan. The contract of each function is the law.

ghost use Rattle.racp_soonest.specs.Laws.{SoonestIsOne};

use racp_lexfix::laws::answer_is_one;

/// An order has one soonest plan at most, whoever makes it.
pub fn soonest_is_one()
    ensures { SoonestIsOne }
{
    answer_is_one();
}
