//! Reads what words of the command line give to each resource: prices, owned units and ceilings; and what the heading of
//! a network calls the resources.
//!
//! ```text
//! word                      names                values_of(.., Quantity::Price) answers
//! 9,30                      any                  9, 30
//! Masons=9,Cranes=30        Masons, Cranes       9, 30
//! cranes = 30, MASONS = 9   Masons, Cranes       9, 30
//! Masons=9,Crane=30         Masons, Cranes       no resource is called 'Crane'; the nearest is 'Cranes'
//! Masons=9                  Masons, Cranes       'Cranes' has no value; each resource needs one
//! Masons=9,30               Masons, Cranes       '30' names no resource; either all values have names or none has
//! 9.50,30                   any                  '9.50' is no whole number; prices are whole numbers: count in cents, 950
//! 5000000000                any                  5000000000 is too much: a price is at most 1,000,000
//! ```
//!
//! A word without `=` lists the values in the order of the resources, and how many there are is not looked at here. A word
//! with `=` has a name and a value between commas, in any order. Blanks around these do not count, and names are compared
//! without regard to capitals: of names that are the same but for capitals each is meant by its own spelling. A value
//! has to be decimal digits alone.
//!
//! Proved: a word without `=` is read as racp_prices reads lists of numbers; by name there is one value for each resource,
//! and each resource's value stands in the word behind a name that is the resource's but for capitals; a heading gives a
//! name to each resource. Tested alone: the words for what is wrong, and which name is the nearest.
#![tactic(auto)]

mod fault;
mod heading;
mod listed;
mod named;
mod nearest;
mod number;
mod quantity;

pub use fault::ValueFault;
pub use heading::heading_names;
pub use listed::values_of;
pub use quantity::Quantity;
