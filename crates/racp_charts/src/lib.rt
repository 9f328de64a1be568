//! Draws plans, and what deadlines cost, as charts in SVG.
//!
//! Jobs and resources are numbered from 1; their places in lists count from 0. Times are whole time units from 0 on.
//! In a chart a job is called a task.
//!
//! `drawing_of` gathers what is drawn of a plan in a `Drawing`, and `plan_svg` only writes it down: the cost, the
//! deadline and the critical length, a row for each phase and each task, and the usage of each resource as a stair. Jobs
//! that only wait have no row: what a task waits for by them is told with a lag. `costs_svg` draws
//! what deadlines cost, as a stair too. The drawings that these are made of are public, for a page that has them one by
//! one: `push_frame` and `push_row`, `push_panel`, `push_costs` and `push_key`.
//!
//! ```text
//! <rect class="critical" x="270" y="44" width="59" height="12" rx="2"/>
//! ```
//!
//! The slack of a task is how much later it could start, with all that comes after it moved, if only precedence and
//! the due times counted: its late start less its start. A task is on the critical chain if it has no such room once
//! the project has to end by its critical length: its early start is its late start.
//!
//! A drawing is 1,000 wide, whatever the deadline is: the times up to the deadline are drawn from 270 to 970, each at
//! its share of these 700, rounded down. Numbers of an axis are round: multiples of 1, 2 or 5 times a power of ten, of
//! which there are 13 at most. Neither texts nor work grow with the deadline.
//!
//! An axis of dates has months, quarters or years in their place, up to 26 of them, and weeks too if it has no more than 150 days. Each
//! begins at the first time that starts in it or later, and has its name in the middle where there is room. Free days take no room:
//! on an axis with weeks a thick line stands at each time before which days are free. From 2026-03-02 on, with work from Monday to
//! Friday, `W10` goes from the time 0 to 5, and the line of the weekend stands at 5.
//!
//! Proved: each number and each name of a drawing is that of the network, the order, the plan or the names; the late
//! starts, the critical chain and what tasks wait for are those of the network; and each function that writes gives
//! exactly what its definition says: each bar, diamond, line and stair, and each name with no character that means
//! something else in XML. Of the colours no clause speaks: they stand in one text behind the title of a picture. All
//! functions return. Whether a plan is right is not looked at here: racp_check does.
#![tactic(auto)]

mod axis;
mod bands;
mod choice;
mod cost_picture;
mod costs;
mod dates;
mod drawing;
mod escape;
mod frame;
mod heading;
mod labels;
mod links;
mod mark;
mod names;
mod panel;
mod parts;
mod plan_picture;
mod row;
mod style;
mod times;

pub use axis::Span;
pub use choice::Choice;
pub use cost_picture::costs_svg;
pub use costs::{Corner, push_costs};
pub use drawing::{Drawing, drawing_of};
pub use escape::push_escaped;
pub use frame::push_frame;
pub use heading::{push_key, push_plan};
pub use mark::{MOST_MARKS, mark_of};
pub use names::{push_name, push_predecessors};
pub use panel::push_panel;
pub use plan_picture::plan_svg;
pub use row::{class_of, push_row};
pub use style::STYLE;
