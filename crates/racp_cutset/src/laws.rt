//! Laws of covering: why a refuted node refutes the nodes that it covers. Each function does nothing; its contract is
//! the law.

ghost use Rattle.racp_cutset.specs.Laws.{StartsAreBuilt, BuiltLies, BuiltKeepsPrecedence, BuiltFitsBefore, BuiltFitsBetween, BuiltFitsAfter, BuiltAnswers, CoveringKeepsYes, CoveringRefutes};

/// The start vector that is built from a node's early starts and given starts takes each job's start by one rule.
pub fn starts_are_built()
    ensures { StartsAreBuilt }
{}

/// If the node covers another one, whose question the given starts answer, the built ones lie in the node's window.
pub fn built_lies()
    ensures { BuiltLies }
{}

/// They keep precedence.
pub fn built_keeps_precedence()
    ensures { BuiltKeepsPrecedence }
{}

/// Before the node's time they use at most its capacities.
pub fn built_fits_before()
    ensures { BuiltFitsBefore }
{}

/// So they do from there to the time of the covered node.
pub fn built_fits_between()
    ensures { BuiltFitsBetween }
{}

/// And from then on.
pub fn built_fits_after()
    ensures { BuiltFitsAfter }
{}

/// So they answer the node's question.
pub fn built_answers()
    ensures { BuiltAnswers }
{}

/// If a node covers one whose question has an answer, its own has one.
pub fn covering_keeps_yes()
    ensures { CoveringKeepsYes }
{}

/// So a refuted node refutes each node that it covers.
pub fn covering_refutes()
    ensures { CoveringRefutes }
{}
