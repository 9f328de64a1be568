//! Names of orders.

use std::marker::Brand;

/// Names the network and the terms that a value is about: values of types with one name are about one order.
pub trait OfOrder {
    ghost use Rattle.racp_model.specs.Project.{Project};
    ghost use Rattle.racp_model.specs.Terms.{Terms};

    ghost network: { Project };

    ghost terms: { Terms };
}

/// Stands only if a call picks no order: every call that makes values which name one picks it.
impl OfOrder for Brand {
    ghost use Rattle.std.specs.Prelude.{[], None};

    ghost network = { record { resources = 0; jobs = []; arcs = [] } };

    ghost terms = { record { deadline = 0; prices = []; owned = []; ceilings = None; release = []; due = [] } };
}
