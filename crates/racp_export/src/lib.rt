//! Writes a plan for other programs: as events of a calendar, as a table of comma-separated values, in Markdown, or as a project of MS Project or of TaskJuggler.
//!
//! Jobs and resources are numbered from 1; their places in lists count from 0. Times are whole time units from 0 on, and are
//! told by days of a calendar of racp_calendar: what takes time runs on its first day, on its last day and between. Only tasks
//! are written, below the titles of their phases, and what they wait for; not the jobs that wait.
//!
//! `export_text` writes the rows of racp_show in a format. Of the house of examples/house the first task is in iCalendar
//!
//! ```text
//! BEGIN:VEVENT
//! UID:1.20260302.Excavation@racp
//! DTSTAMP:20260302T000000Z
//! DTSTART;VALUE=DATE:20260302
//! DTEND;VALUE=DATE:20260306
//! SUMMARY:Excavation
//! DESCRIPTION:2 Masons\, 1 Cranes
//! TRANSP:TRANSPARENT
//! END:VEVENT
//! ```
//!
//! and in Markdown
//!
//! ```text
//! | 1 | Excavation | 2026-03-02 | 2026-03-05 | 4 |  | 2 Masons, 1 Cranes |
//! ```
//!
//! The table of comma-separated values has the titles that racp_tables reads, so that the network comes back from it: the id,
//! the name, how deep the row lies in the outline, the duration, the predecessors with their lags, both days, and a column for
//! each resource.
//!
//! A project of MS Project, in XML, has the calendar, the tasks with their links, the resources, and what tasks need of them, so that the
//! planner comes to the same days by itself. The links alone would let some tasks begin earlier than they do, since their units
//! are busy: these tasks are tied to their starts, to start no earlier, and no others. Of the house the fourth task is:
//!
//! ```text
//! <Start>2026-03-30T08:00:00</Start> <Finish>2026-04-10T17:00:00</Finish> <Duration>PT64H0M0S</Duration>
//! <ConstraintType>4</ConstraintType> <ConstraintDate>2026-03-30T08:00:00</ConstraintDate>
//! ```
//!
//! A project of TaskJuggler has a resource for each unit, and each task says which units work on it. `sharing` hands them out to
//! the tasks in the order of their starts, and `booking` tests what it did: that no unit serves two tasks at once, and that each
//! task has as many units as it needs. Nothing else is written. That units always suffice, since a plan keeps its capacities,
//! is tested alone; if they did not, the answer would be that memory was refused.
//!
//! The same plan, names and calendar give the same bytes: the time at which a calendar of events says it was made is the first
//! working day. An event ends on the day behind its last day, since a calendar of events tells the day on which nothing of it is
//! left. That day is counted from the word of the last day. `is_told` says beforehand whether the calendar has dates for all that
//! ends by a time; a year has four digits.
//!
//! Proved: a text is exactly that of its rows, and these are those of the plan: each task has one event or row, in order, with
//! its name, its first and last day as the calendar tells them, its duration, what it waits for and what it needs; a line of
//! iCalendar is cut so that none has more than 75 octets; no letter of a name means something else than itself; a task is tied exactly
//! where its links alone would let it begin earlier; and units serve tasks as said above. Tested
//! alone: that other programs read these texts so. Whether a plan is right is not looked at here: racp_check does.
#![tactic(auto)]

mod behind;
mod book;
mod booking;
mod days;
mod events;
mod export;
mod folding;
mod format;
mod ground;
mod juggler_frame;
mod juggler_tasks;
mod letters;
mod markdown;
mod ms_needs;
mod ms_project;
mod ms_rows;
mod ms_tasks;
mod ms_week;
mod outline;
mod sharing;
mod table;
mod task_juggler;
mod words;
mod work;

pub use behind::is_told;
pub use export::{Export, export_text};
pub use format::Format;
