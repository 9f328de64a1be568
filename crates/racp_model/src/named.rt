//! How a type names the network that its values are about.

use std::marker::Brand;

/// Names the network that a value is about: values of types with one name are about one network. A call that makes such
/// values picks the network that `Brand` names.
pub trait OfNetwork {
    ghost use Rattle.racp_model.specs.Project.{Project};

    ghost network: { Project };
}

/// Stands only if a call picks no network: every call that makes values which name one picks it.
impl OfNetwork for Brand {
    ghost use Rattle.std.specs.Prelude.{[]};

    ghost network = { record { resources = 0; jobs = []; arcs = [] } };
}
