//! Certificates by clauses: texts of clauses with their derivations, whether one shows that a plan is the plan of its
//! order, or what each plan costs at least, and how one is made of what a search has recorded.
//!
//! What clauses are, and what they have to show, is told by racp_clauses. A text is a list of lines, each of which a
//! derivation takes: a literal that the clause is to have, a step by a rule, or that nothing is left. So a text is
//! checked line by line, as LRAT's are (Cruz-Filipe, Heule, Hunt, Kaufmann and Schneider-Kamp 2017), and who made it
//! need not be trusted. docs/FORMATS.md says what each line does, and goes through one text.
//!
//! Two jobs of 3 time units with 1 unit each, from 0 to 4; and the clause that there are at least 2 units:
//!
//! ```text
//! units 1 >= 2      suppose not: at most 1 unit
//! energy 1 0 4      work 6 in 4 time units, rounded up 2: nothing is left
//! holds             the clause holds
//! ```
//!
//! Where the plan is not known, such a text shows what each plan costs at least. Then it begins with that number, and one of its
//! clauses has to leave out all that costs less: a clause of which each literal says that the cost is at least so much, or more.
//!
//! ```text
//! proof 2
//! at least 30       no capacities that are enough cost less
//! cost >= 30        suppose not: at most 29
//! ..
//! ```
//!
//! Most lines of a long text stood in it before. So each that spells out a literal, or a step other than by a clause, has a number,
//! and a number alone says what the line with that number says. In the text above, 2 alone would be `energy 1 0 4` again.
//!
//! There are two derivations, `base` with which each one begins, and the present one, and the clauses so far. Lines and
//! words are slices of the text; memory is taken for the literals of clauses, and for what the lines with numbers say. A pair of the
//! precedence relation is found by halving. Otherwise a line takes as long as its step, which is in proportion to the jobs, the resources
//! or the literals of the clause that it names; no text takes longer than its bytes times that. Beside a clause of more than 256
//! literals stands a shorter one, from which the same follows within all bounds, and whose literals are looked at in its place. Two
//! of these that may be true are watched: while they may be, nothing follows, and a step by the clause looks at them alone; nor at
//! more than one that has to be true. Once nothing is left, a step by a clause looks at none. So a derivation that names one such clause
//! again and again looks at all its literals only where watched ones have become false in between, and the next 64 too.
//!
//! Who makes a text (`certificate_by_clauses`) has what a search recorded. A search that learns (racp_learning) derives
//! thousands of clauses, and the plan follows from a few of them: one for each variable that could be less. These were
//! derived from others, and those from others again. So the clauses that are needed are found backwards, as proofs of
//! satisfiability solvers are trimmed (Goldberg and Novikov 2003; Heule, Hunt and Wetzler 2013), and written forwards
//! with numbers from 1 on. A line is spelled out once, and is its number from then on.
//!
//! Of five derivations, of which the last shows the plan:
//!
//! ```text
//! ground    energy                      the ground: each later one begins with it, so it stays
//! 1         pair, times                 needed by 3
//! 2         times                       needed by none: left out
//! 3         clause 1, times             needed by the last one, and written as clause 2
//! 4         clause 3                    the one that shows the plan
//! ```
//!
//! For a bound (`bound_certificate`) one derivation is wanted in place of these: that of the clause that tells it. Where its text
//! would be too long, a lower bound is told.
//!
//! Before a text is given, it is read, as who gets it does.
//!
//! Proved of reading: `establishes_by_text` says yes exactly where the text has the form, each of its clauses follows
//! by its steps, each step names what there is and only earlier clauses, the starts fit the capacities, and for each
//! variable in turn a clause leaves out what is less (`IsDerivationText`); and where it says yes, the capacities and
//! the starts are the plan of the order (`IsPlan` of racp_model). `establishes_by_text_until` is the same with a stop.
//! `least_by_text` tells a bound exactly where the text has the form of one that tells it, each clause follows, and one leaves
//! out all that costs less (`IsBoundText`); and then no capacities that are enough cost less. Not proved: that a plan, or a
//! bound, has such a text.
//!
//! Proved of making: a text that is given shows that the plan is the plan of its order (`IsDerivationText`), or the bound that
//! is told beside it (`IsBoundText`). Not proved: that one is given.
#![tactic(auto)]

mod bound;
mod bounding;
mod checking;
mod held;
mod line;
mod lines;
mod numbered;
mod pairs;
mod reading;
mod root;
mod stepping;
mod thinning;
mod trimming;
mod verdict;
mod watching;
mod words;

pub use bound::{least_by_text, least_by_text_until};
pub use root::root_bounds;
pub use trimming::{BoundCertificate, bound_certificate, certificate_by_clauses};
pub use verdict::{establishes_by_text, establishes_by_text_until};
