//! What is found of the plan of an order: the one answer of both engines.
//!
//! Jobs and resources stand by place, from 0. Times are whole time units.
//!
//! An order has a plan, or no capacities are enough for it; an engine may leave open which of the two is so. A planner that
//! goes on with another engine asks for no more than that:
//!
//! ```text
//! Plan(capacities, starts)   these are the plan's
//! NoneEnough                 no capacities are enough
//! Open                       the engine does not know
//! ```
//!
//! With two jobs of one time unit, each of which uses the one resource, both from 0 to 1, `Found` is `Plan` with the capacity 2
//! and the starts 0 0; with a ceiling of 1 it is `NoneEnough`.
//!
//! Whatever plans tells an `Observer` what it finds on its way (`News`): floors, what capacities that are enough cost at least, plans
//! that may not be the cheapest, and how much was done. The observer says what it may be told, and whether planning is to end.
//!
//! Definitions: `IsFound` is what an answer tells, where it may be open; `IsDecided` is the same of one that may not. `IsTrueNews`
//! is what may be told of an order on the way to its plan. `OfOrder` names the order that a value is about, for contracts alone.
#![tactic(auto)]

mod found;
mod named;
mod observer;

pub use found::Found;
pub use named::OfOrder;
pub use observer::{Deaf, News, Observer, Unheard, Until, Wish};
