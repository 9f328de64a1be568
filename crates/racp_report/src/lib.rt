//! Makes a report of a plan: one page in HTML, to be read on a screen or a phone and to be printed.
//!
//! Jobs and resources are numbered from 1; their places in lists count from 0. Times are whole time units from 0 on.
//! On the page a job is called a task.
//!
//! `report_of` gathers what the page says in a `Report`, and `report_text` only writes it down: the cost, the deadline
//! and the critical length; what there is to be of each resource; a chart of the phases and the tasks, and one of the use of each
//! resource; the same as a table; what other deadlines cost, if the lines of a curve are given; what changes of the
//! order would cost, if the lines of changes are; what is proved of its cost, as whoever asks for a page has found out; and the
//! commands that check it. The page needs nothing from elsewhere:
//! its charts are drawings in SVG, and it has no script.
//!
//! ```text
//! <tr><td>2</td><th scope="row">Foundations</th><td>6</td><td>4</td><td>10</td><td>7</td><td></td><td>1</td></tr>
//! ```
//!
//! The charts are the drawings of racp_charts, which says what slack and the critical chain are, and how times are
//! drawn. The chart of the tasks is cut after 30 rows, so that it breaks well over printed pages. So the page grows
//! with the jobs, the pairs, the resources, the lines of the curve and those of the changes, and neither it nor the work
//! grow with the deadline.
//!
//! Proved: each number and each name of a report is that of the network, the order, the plan, the names, the curve or
//! the changes; that a page says a plan is the cheapest, or what each costs at least, only where that is so; the late starts, the
//! critical chain and what tasks wait for are those of the network; and `report_text`
//! gives exactly the page of a report: each row of each table, each bar, mark and stair, and each name with no character
//! that means something else in HTML. Of the colours and the layout of the page no clause speaks: they stand in one text
//! between the head and the body of the page. Whether a plan is right is not looked at here: racp_check does.
#![tactic(auto)]

mod change_table;
mod chart;
mod choice_table;
mod claim;
mod cost_chart;
mod cost_table;
mod figure;
mod heading;
mod key;
mod page;
mod panels;
mod report;
mod style;
mod task_table;

pub use claim::Claim;
pub use page::report_text;
pub use report::{Beside, Report, report_of};
