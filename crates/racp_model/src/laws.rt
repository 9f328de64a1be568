//! Laws of the definitions, in the words of the field. Each function does nothing; its contract is the law.

ghost use Rattle.racp_model.specs.Laws.{PlanIsUnique, VectorsAreOrdered, BeforeIsByCost, LexIsByFirstPlace, UseIsByActivity, AboveAdmits, CutFitsTheSame, CutAdmits, InsideIsInTime, RankingOrRing, RelationIsNetwork, AcyclicHasNetwork};

/// There is at most one plan.
pub fn plan_is_unique()
    ensures { PlanIsUnique }
{}

/// Of two capacity vectors, one stands before the other or they are equal.
pub fn vectors_are_ordered()
    ensures { VectorsAreOrdered }
{}

/// A vector stands before another exactly if it costs less, or costs the same and is lexicographically less.
pub fn before_is_by_cost()
    ensures { BeforeIsByCost }
{}

/// The lexicographic order goes by the first place at which two vectors of one length differ.
pub fn lex_is_by_first_place()
    ensures { LexIsByFirstPlace }
{}

/// A job uses its request while it is active, and nothing while it is not.
pub fn use_is_by_activity()
    ensures { UseIsByActivity }
{}

/// A vector at or above one that admits admits.
pub fn above_admits()
    ensures { AboveAdmits }
{}

/// A vector that is cut to the roofs fits the same schedules.
pub fn cut_fits_the_same()
    ensures { CutFitsTheSame }
{}

/// A vector that admits still admits when it is cut to the roofs.
pub fn cut_admits()
    ensures { CutAdmits }
{}

/// What lies in a window inside the root window is in time.
pub fn inside_is_in_time()
    ensures { InsideIsInTime }
{}

/// A project has a ranking of its jobs or a ring, and never both.
pub fn ranking_or_ring()
    ensures { RankingOrRing }
{}

/// Networks of the same resources, jobs and relation are equal.
pub fn relation_is_network()
    ensures { RelationIsNetwork }
{}

/// A project without a ring that keeps the limits and whose pairs name its jobs has a network of the same relation.
pub fn acyclic_has_network()
    ensures { AcyclicHasNetwork }
{}
