//! Floors that are raised to others.

ghost use Rattle.std.specs.Prelude.{◌≡◌, MatchOption};
ghost use Rattle.racp_by_questions.specs.Enough.{AreGreater};

use racp_model::Capacities;

/// Floors, each raised to the one that is known, if there is one and it is higher. Takes no memory.
pub(crate) fn raised(floors: Capacities, known: Option<&Capacities>) -> Capacities
    ensures { MatchOption known.entry (result ≡ floors) (λ known. AreGreater floors known.now result) }
{
    match known {
        Some(known) => greater(floors, known),
        None => floors,
    }
}

/// The greater one of two floors of each resource.
fn greater(floors: Capacities, others: &Capacities) -> Capacities
    ensures { AreGreater floors others.now result }
{
    let mut units = floors.into_vec();
    for k in 0..units.len() {
        let other = others.as_slice().get(k).copied().unwrap_or(0);
        units[k] = units[k].max(other);
    }
    Capacities::new(units)
}
