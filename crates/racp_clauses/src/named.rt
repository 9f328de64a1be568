//! Names of problems.

use std::marker::Brand;

/// Names the problem that a value is about: values of types with one name are about one problem.
pub trait OfProblem {
    ghost use Rattle.racp_clauses.specs.Solutions.{Problem};

    ghost problem: { Problem };
}

/// Stands only if a call picks no problem: every call that makes values which name one picks it.
impl OfProblem for Brand {
    ghost use Rattle.std.specs.Prelude.{[], None};

    ghost problem = { record {
      network = record { resources = 0; jobs = []; arcs = [] };
      terms = record { deadline = 0; prices = []; owned = []; ceilings = None; release = []; due = [] };
      root = record { lower = []; upper = [] };
    } };
}
