//! The curve on the calling thread.

ghost use Rattle.std.specs.Prelude.{◌≡◌, ◌≤◌, IfOk, IfErr};
ghost use Rattle.racp_model.specs.Terms.{AreTermsOf};
ghost use Rattle.racp_by_questions.specs.declared.stop.PlanStop.TheVariants.{Memory};
ghost use Rattle.racp_curve.specs.Curves.{AreSteps, IsCurveAnswer};

use crate::following::curve;
use crate::ground::Ground;
use crate::step::{CurveAnswer, CurveStop, out_of_memory};
use racp_by_questions::Alone;
use racp_model::{Network, OfNetwork};
use racp_prices::Order;
use std::alloc::Global;
use std::marker::Brand;

/// The curve of an order, made on the calling thread, with records of refuted nodes that take at most about this many
/// mebibytes, up to 1,048,576.
///
/// # Errors
///
/// Memory was refused. The steps so far come back.
pub fn curve_alone(
    alloc: Global,
    net: &Network,
    order: &Order,
    mebibytes: usize,
) -> Result<CurveAnswer, CurveStop>
    requires memory { mebibytes ≤ 1048576 }
    requires terms { AreTermsOf net.now order.now }
    ensures curve { IfOk result (IsCurveAnswer net.now order.now) }
    ensures steps { IfErr result (λ end. AreSteps net.now order.now end.steps.items) }
    ensures stop { IfErr result (λ end. end.stop ≡ Memory) }
{
    let ground = Ground { alloc, net, order };
    curve_named::<Brand>(&ground, mebibytes)
}

/// The curve of an order, made on the calling thread, for the network that `N` names.
fn curve_named<N: OfNetwork>(ground: &Ground, mebibytes: usize) -> Result<CurveAnswer, CurveStop>
    requires named { ground.now.net.now ≡ N.network }
    requires memory { mebibytes ≤ 1048576 }
    ensures curve { IfOk result (IsCurveAnswer ground.now.net.now ground.now.order.now) }
    ensures steps { IfErr result (λ end. AreSteps ground.now.net.now ground.now.order.now end.steps.items) }
    ensures stop { IfErr result (λ end. end.stop ≡ Memory) }
{
    let mut alone: Alone<N> = match Alone::within(ground.alloc, ground.net, mebibytes) {
        Ok(alone) => alone,
        Err(_) => return Err(out_of_memory(ground.alloc)),
    };
    curve(ground.alloc, ground.net, ground.order, &mut alone)
}
