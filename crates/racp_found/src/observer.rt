//! Who is told how far planning has come.

use racp_model::{Capacities, Starts, Stop};

/// What planning finds on its way. Capacities stand by resource and starts by job, from place 0; times are whole time units.
#[derive(Drop)]
pub enum News<'a> {
    /// From now on a plan is looked for that keeps this deadline.
    Deadline(u32),
    /// All capacities that are enough have at least these units.
    Floors(&'a Capacities),
    /// All capacities that are enough cost at least so much.
    Cost(u64),
    /// A plan is known, which may not be the cheapest.
    Plan {
        /// Its capacities.
        capacities: &'a Capacities,
        /// Its starts.
        starts: &'a Starts,
        /// What its capacities cost.
        cost: u64,
    },
    /// How much a search that learns has done.
    Work {
        /// How many conflicts it has met.
        conflicts: u64,
        /// How many clauses it keeps.
        clauses: u64,
    },
}

/// Is told what planning finds, by the thread that plans, and may want it to end. Contracts see what it may be told.
pub trait Observer {
    ghost use Rattle.std.specs.Prelude.{⊤};
    ghost use Rattle.racp_found.specs.declared.observer.News.{News};

    ghost may_hear: { News → Type 0 } = { λ _. ⊤ };

    /// Is told.
    fn hear(&self, _news: News<'_>)
        requires { may_hear _news }
    {}

    /// Whether planning is to end now. What is said changes no answer, but whether there is one.
    fn is_to_stop(&self) -> bool {
        false
    }
}

impl<'a, O: Observer> Observer for &'a O {
    ghost may_hear = { O.may_hear };

    fn hear(&self, news: News<'_>) {
        (**self).hear(news);
    }

    fn is_to_stop(&self) -> bool {
        (**self).is_to_stop()
    }
}

/// Does nothing with what it is told, and never wants an end.
#[derive(Clone, Copy, Drop)]
pub struct Unheard;

impl Observer for Unheard {}

/// Does nothing with what it is told, and wants an end where a stop does.
#[derive(Drop)]
pub struct Deaf<'a, P: Stop> {
    /// The stop.
    pub stop: &'a P,
}

impl<'a, P: Stop> Observer for Deaf<'a, P> {
    fn is_to_stop(&self) -> bool {
        self.stop.asked()
    }
}

/// Tells an observer what it is told, and wants an end where that one or another does.
#[derive(Drop)]
pub struct Until<'a, O: Observer, E: Observer> {
    /// Who is told.
    pub observer: &'a O,
    /// Who may want an end as well, and is told nothing.
    pub end: &'a E,
}

impl<'a, O: Observer, E: Observer> Observer for Until<'a, O, E> {
    ghost may_hear = { O.may_hear };

    fn hear(&self, news: News<'_>) {
        self.observer.hear(news);
    }

    fn is_to_stop(&self) -> bool {
        self.observer.is_to_stop() || self.end.is_to_stop()
    }
}

/// Asks for a stop where an observer wants an end.
#[derive(Drop)]
pub struct Wish<O: Observer + Drop> {
    /// The observer.
    pub observer: O,
}

impl<O: Observer + Drop> Stop for Wish<O> {
    ghost use Rattle.std.specs.Prelude.{false};

    ghost QUIET = { false };

    ghost is_quiet = { λ _. false };

    ghost all_quiet = { λ _ quiet. quiet };

    const QUIET: bool = false;

    fn asked(&self) -> bool {
        self.observer.is_to_stop()
    }
}
