//! Tables of results: rows of networks with factors, planned side by side on threads.
//!
//! A batch has files and factors. Each file with each factor is a `Case`: the order that it asks for has the factor times the
//! critical length of the network, rounded down, as its deadline, and one price for all resources; nothing is owned, there are no
//! ceilings, and no job has a release or due time. What planning it came to is a `Row`, which is written as one row of
//! comma-separated values. With examples/a.sm, whose critical length is 3, the factor 1.5 and the price 1 the order has the
//! deadline 4, and its plan 3 units of the one resource. The row is `a.sm,5,1,1.5,4,optimal,3,3,3,0,..`. If a calendar tells times by
//! dates, the last day of the deadline stands behind it: with the first day 2026-03-05, a Thursday, and working days from Monday to
//! Friday the row is `a.sm,5,1,1.5,4,2026-03-10,optimal,3,3,3,0,..`.
//!
//! `table_over(rt, &batch, &planning, &host, out)` has each case planned, and writes a first row with titles and the row of each
//! case to `out`, in the order of the cases. Workers on threads of their own take the next case that no other has
//! taken, and leave its row on a board. The calling thread writes each row as soon as all rows before it are written, tells the
//! `Host`, and asks that whether the user wants a stop: then what is being planned is stopped, and no further case is begun.
//! Threads share the board (a `boxcar::Vec` of rows), the number of the next case, how many workers have ended, that the user has
//! asked for a stop, and two flags.
//! Each row on the board is right of the case at its place, by its type. So the table does not depend on what the threads do.
//!
//! A `Planning` says how a case is planned: by one worker of racp_lexfix, within so much memory, and until its time is over, which
//! begins anew with each row. An observer notes meanwhile what the cheapest plan costs that is known, what each costs at least, and
//! the conflicts of the search that learns; a stop counts how often it is asked, which is once for each node.
//!
//! Proved: `cases` lists each file with each factor, file by file and in the order of the factors. `deadline_of` and `order_by`
//! give the deadline and the terms of a case. Which rows are right of a case `IsRowOf` says. If `table_over` answers an ending,
//! it has written the first row and the rows of as many cases as it tells, from the first on in their order, byte for byte, and
//! each is right of its case (`IsTableRun`); a whole table has the rows of all. A plan is left open only if the time for a row is
//! limited, or if the user may ask for a stop; and only then a table is not whole. What a row tells as bound and best is true
//! (`IsWork`). Not proved: how much work was done, and what the host is told.
#![tactic(auto)]

mod batch;
mod board;
mod case;
mod cells;
mod done;
mod heard;
mod host;
mod line;
mod named;
mod order;
mod planning;
mod row;
mod row_stop;
mod running;
mod telling;
mod titles;

pub use batch::{Batch, BatchFault, Ending};
pub use case::{Case, File, Input, Multiple, cases};
pub use cells::gap;
pub use host::Host;
pub use order::{deadline_of, order_by};
pub use planning::Planning;
pub use row::{Answered, Row, Work};
pub use running::table_over;
