//! Tables of tasks, as spreadsheets, planners, their XML and Patterson's format have them: read, and made networks.
//!
//! A table says of each task its name, how long it takes, after which tasks it comes, and how many units of each
//! resource it needs. Tasks are jobs, numbered from 1 in the order of the table. A row of which others are parts, by levels or by
//! ids such as `1` and `1.1`, is a phase and no job.
//!
//! ```text
//! No.,Task,Duration,Depends on,Cost,Masons,Cranes
//! 1,Excavation,4 days,,900,2,1
//! 2,Foundations,6d,1FS,700,4,1
//! 3,Ground floor slab,4,Foundations+2,500,3,1
//! ```
//!
//! `read_table` makes of this text a `Table` of the jobs 4 (2 1), 6 (4 1), 4 (3 1) and 2 (0 0), which waits between the
//! second and the third, and of the pairs 1 2, 2 4 and 4 3, with the names of four jobs and two resources; `Cost` is passed
//! over, and the notes say so. Earliest and due times may be dates of a calendar. `joined` makes one table of several. `network_text` makes of a table the text of a network as those
//! of PSPLIB, `names_text` the lines of headings and names, and `understood` a line about what was understood. Earliest and due
//! times become lists of the table, for an order.
//!
//! A text goes through these steps: its `layout` says where the titles stand; the `sheet` is given to the library `csv`, which takes
//! the rows apart; `columns` says which is which; `levels` and `outline` say which rows are parts of which; each `row` has its
//! duration and needs; when all rows are read, `links` looks up the tasks that they name, and `made` makes jobs and pairs. A
//! network text is guessed and then tested: it is read by `read_sm` of racp_sm, and given out only if that finds the network of the
//! table. A `mark` tells later whether a file was changed.
//!
//! MSPDI, the XML of MS Project, takes another way to rows and ties: `mspdi` has the tasks, links and needs of the marks that racp_xml finds,
//! and `mspdi_table` makes the table of them.
//!
//! Proved: a table of rows and cells has exactly the jobs and pairs of those of its rows that are no phases, by their durations, their
//! requests and the tasks that their cells name, and of the jobs that wait for links with lags (`IsTableRead`, of `read_rows`). Rows are
//! parts of each other as their levels or ids say (`AreParts`), and each is what its cells say: its name, id, duration, needs, earliest
//! and due time (`IsRowOf`), and the tasks that its cells name (`AreTiesOf`). Its cells are those that `csv` reads of a sheet. A table
//! that several are joined to has exactly their resources, jobs and pairs (`IsJoined`). A table of MSPDI has
//! exactly the jobs and pairs of its tasks by their levels, durations, requests and ties (`IsTableOfTasks`). What `network_text` gives out is read as a
//! network of exactly the jobs and pairs of the table, and with as many resources; or the table breaks a limit, a pair names no
//! task, or tasks wait for each other, as `Network::new` tells; or memory ran out. With a mark it is read as the same network.
//! `names_text` has exactly the lines of headings and names. Reading returns, and fails for a reason that it tells. Tested alone: the
//! sheet that is made of a text, which column is which by its title, the levels in a column, headings, Patterson's format, which tasks MSPDI has, when a
//! table is refused, and what is told of it.
#![tactic(auto)]

mod amount;
mod assigned;
mod beginning;
mod beside;
mod cell;
mod choice;
mod columns;
mod columns_tested;
mod csv_rows;
mod dated;
mod duration;
mod fault;
mod faults;
mod format;
mod heading;
mod layout;
mod leaves;
mod levels;
mod link_cells;
mod link_words;
mod links;
mod looks;
mod made;
mod mark;
mod mention;
mod moved;
mod mspdi;
mod mspdi_date;
mod mspdi_link;
mod mspdi_need;
mod mspdi_table;
mod mspdi_task;
mod mspdi_time;
mod named;
mod names;
mod needs;
mod outline;
mod part;
mod patterson;
mod pieces;
mod reading;
mod records;
mod ring;
mod roster;
mod row;
mod rows;
mod same;
mod shared;
mod sheet;
mod similar;
mod table;
mod taken;
mod tested;
mod text;
mod ties;
mod titles;
mod tokens;
mod understanding;
mod warning;
mod widened;
mod within;
mod words;

pub use fault::TableFault;
pub use format::{Format, read_table};
pub use heading::Heading;
pub use mark::{are_own_names, is_own_network, is_own_order, marked_network, marked_order};
pub use names::names_text;
pub use part::{Part, joined};
pub use reading::{Dating, Reading, Scale};
pub use table::{Notes, Table};
pub use tested::network_text;
pub use understanding::{Understanding, counted, understood};
pub use warning::Warning;
