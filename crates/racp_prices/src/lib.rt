//! Orders: the deadline and the price terms of a project, read from TOML texts and written as such texts.
//!
//! Resources and jobs stand by place, from 0; times are whole time units.
//!
//! A deadline and a price for each resource are the terms of the resource availability cost problem (Möhring 1984,
//! Demeulemeester 1995). An order of version 2 may say more: units that are owned already and cost nothing, ceilings on
//! the number of units, and a release time and a due time for each job. An order names no network: it is read for a
//! number of resources and a number of jobs, and `Order::is_for` tells whether it has an entry in its range for each of
//! those of a network.
//!
//! ```text
//! version = 2
//! deadline = 9
//! prices = [3, 5]
//! owned = [0, 4]
//! ```
//!
//! On these terms 2 units of the first resource and 3 of the second cost 2 * 3 = 6, since the four owned units are
//! enough for the second; 2 and 7 units cost 2 * 3 + 3 * 5 = 21. That is what `cost_of(&net, &order, &capacities)`
//! answers.
//!
//! The library `toml` reads the text into a table. The table is then looked at in the order of the rules of
//! docs/FORMATS.md: the version, the keys that have to be there, the keys that may not, and then each value. An array
//! is passed over three times, since each rule is tested for all of its elements before the next one: that they are
//! whole numbers, how many there are, and their range. Whole numbers are 64 bits wide in the table, and a range is
//! tested before a number becomes one of 32 bits. A due time above the deadline is read as the deadline; `due_times`
//! cuts those of an order that was made in another way.
//!
//! An order is written from a `Wanted`: a deadline, prices, and perhaps owned units and ceilings. `order_text` makes
//! its text, with the keys in the order of the alphabet:
//!
//! ```text
//! deadline = 45
//! prices = [3, 5, 2, 7]
//! ```
//!
//! With owned units or ceilings it is an order of version 2. The deadline may be a multiple of a project's critical
//! length: `Factor::read("1.2")` reads the decimal number exactly, and not as a binary fraction near it. It is held as
//! a number of billionths. For a critical length of 38, `Factor::deadline` answers 45, the whole part of 45.6.
//! `numbers_of(alloc, "3,5,2,7")` reads prices, owned units or ceilings as they are written in a word of the command
//! line; for `3,,2` it answers `None`.
//!
//! Proved of reading: for every byte text, `read_order` answers the order that the definition `IsOrder` gives it, over
//! the table that `toml` is proved to read; or exactly the first rule that it breaks; or `Memory`, which it never answers
//! for a text that is not UTF-8. What is read has an entry for each resource and each job, in range.
//! `Order::is_for` is true exactly if that holds of an order; `cost_of` answers exactly the cost, and `most_units`
//! exactly the roofs, cut to the ceilings. In `laws`: each text is read as something, and as at most one thing; what an
//! order without a version says of all that it does not name.
//!
//! Proved of writing: `Factor::read` answers a factor exactly for digits, or digits, a point and digits, one to nine of
//! each, and then exactly the number that they are; `Factor::deadline` exactly the whole part of the product, or `None`
//! exactly if that is above 10,000,000; `numbers_of` exactly the numbers between the commas, or `None` exactly if one
//! of them is not a number of 32 bits. What `order_text` writes is TOML, of the table with just the wanted values. So
//! `read_order` reads it as its definition says of that table: as the wanted terms if they are terms of the project,
//! and else as the first rule that they break.
//!
//! Trusted: the statements of `toml`, which say what TOML is. Tested alone: how the text is laid out, and that `Memory` is
//! answered only if memory was refused, or the values of the text could take more than 448 MiB. That is told before the
//! table is made, by the signs that make tables and arrays: a table with one key takes some hundred times the memory of
//! its text.
#![tactic(auto)]

mod cost;
mod due;
mod factor;
mod fault;
pub mod laws;
mod numbers;
mod order;
mod read;
mod room;
mod units;
mod version;
mod wanted;
mod wanted_numbers;
mod wanted_table;
mod wanted_text;

pub use cost::cost_of;
pub use due::due_times;
pub use factor::Factor;
pub use fault::OrderFault;
pub use order::Order;
pub use read::read_order;
pub use units::most_units;
pub use wanted::Wanted;
pub use wanted_numbers::numbers_of;
pub use wanted_text::order_text;
