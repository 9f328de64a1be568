//! What is told of a record and of a node in a few numbers, by which most records that do not cover a node are passed
//! over without a look at them.

ghost use Rattle.std.specs.Prelude.{◌≡◌, ◌↔◌, slice_index, IsTrue};
ghost use Rattle.racp_model.specs.Project.{Project};
ghost use Rattle.racp_cutset.specs.Covering.{SearchNode, IsNode, Covers};
ghost use Rattle.racp_cutset.specs.Outlines.{IsOutline, MayCover};

/// Of how many resources an outline tells the units.
const OUTLINED: usize = 4;

/// A time, and the units of the first four resources, 0 if there are fewer.
#[derive(Clone, Copy)]
pub(crate) struct Outline {
    time: u32,
    units: [u32; OUTLINED],
}

impl Outline {
    /// The outline of what has this time and these capacities.
    pub(crate) fn of(time: u32, capacities: &[u32]) -> Self
        ensures { IsOutline time capacities.now result }
    {
        let units = [
            units_of(capacities, 0),
            units_of(capacities, 1),
            units_of(capacities, 2),
            units_of(capacities, 3),
        ];
        Outline { time, units }
    }

    /// Whether a record with this outline may cover what has the other one: its time is no later, and it has at least
    /// the units.
    pub(crate) fn may_cover(&self, other: &Outline) -> bool
        ensures exact { IsTrue result ↔ MayCover self.now other.now }
        ensures covering { (p : Project) (v w : SearchNode) → IsNode p v → IsNode p w → Covers p v w →
            IsOutline v.time v.capacities self.now → IsOutline w.time w.capacities other.now → IsTrue result }
    {
        let mut may = self.time <= other.time;
        for k in 0..OUTLINED {
            may &= other.units[k] <= self.units[k];
        }
        may
    }
}

/// The units of a resource, numbered from 0, and 0 if there is no such resource.
fn units_of(capacities: &[u32], k: usize) -> u32
    ensures { result ≡ slice_index capacities.now k }
{
    capacities.get(k).copied().unwrap_or(0)
}
