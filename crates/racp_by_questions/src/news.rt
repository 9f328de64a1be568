//! What is told of floors.

ghost use Rattle.racp_model.specs.Terms.{AreTermsOf};
ghost use Rattle.racp_found.specs.Told.{AreFloorsOfEnough, MayBeTold};

use racp_found::{News, Observer};
use racp_model::{Capacities, Network};
use racp_prices::{Order, cost_of};

/// Tells floors of all capacities that are enough, and what these cost at least.
pub(crate) fn tell_floors<O: Observer>(
    net: &Network,
    order: &Order,
    floors: &Capacities,
    observer: &O,
)
    requires terms { AreTermsOf net.now order.now }
    requires floors { AreFloorsOfEnough net.now order.now floors.now }
    requires heard { MayBeTold net.now order.now O.may_hear }
{
    observer.hear(News::Cost(cost_of(net, order, floors.as_slice())));
    observer.hear(News::Floors(floors));
}
