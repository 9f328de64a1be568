//! What the command line may ask for.

ghost use Rattle.std.specs.Prelude.{◌≤◌, IfSome};
ghost use Rattle.std.proofs.Props.{props};

use crate::table_requests::{BatchWords, TableWords};
use racp_show::Form;

/// What the command line asks for, and how.
pub struct Task<'a> {
    /// What it asks for.
    pub request: Request<'a>,
    /// How much is told, beside the answer, of what is wrong with the files.
    pub telling: Telling,
    /// Whether the answer is written as JSON.
    pub is_json: bool,
    /// The path of the calendar that is named, if one is.
    pub calendar: Option<&'a str>,
}

/// How much is told of what is wrong.
#[derive(Clone, Copy)]
pub enum Telling {
    /// Nothing.
    Quiet,
    /// One line.
    Line,
    /// Some lines: what it means, what was wanted, what is there, and where more is said.
    Whole,
}

/// What the command line asks for.
pub enum Request<'a> {
    /// The critical length and the early starts of a network.
    Cpm(Source<'a>),
    /// The plan of a network on the terms of an order, with so much memory for records: made on one thread, or by
    /// workers if an option is given.
    Plan(OrderFiles<'a>, Memory, Option<CrewOptions<'a>>),
    /// A certificate for the plan of a network on the terms of an order; by clauses if that is said. It stops after the
    /// time of this word, if an option says so.
    Prove(OrderFiles<'a>, bool, Option<&'a str>),
    /// Whether a plan is one of a network on the terms of an order.
    Check(PlanFiles<'a>),
    /// Whether a certificate shows that no capacities before a plan's are enough; it stops after the time of this
    /// word, if an option says so.
    Verify(ProofFiles<'a>, Option<&'a str>),
    /// What each plan costs at least, as a certificate shows; it stops after the time of this word, if an option says so.
    VerifyBound(BoundFiles<'a>, Option<&'a str>),
    /// What goes with plans.
    Tool(Tool<'a>),
}

/// What goes with plans.
pub enum Tool<'a> {
    /// A picture of a plan of a network on the terms of an order.
    Show(PlanFiles<'a>, Look<'a>),
    /// A page about a plan of a network on the terms of an order.
    Report(PlanFiles<'a>, ReportWords<'a>),
    /// A plan of a network on the terms of an order, for other programs.
    Export(PlanFiles<'a>, ExportWords<'a>),
    /// What each deadline up to that of an order costs, with so much memory for records: on one thread, or by workers
    /// if an option is given; as a picture if that is said.
    Curve(OrderFiles<'a>, Memory, Option<CrewOptions<'a>>, bool),
    /// The plan of an order with the least deadline that has one, with so much memory for records: by one worker, or by others.
    Soonest(OrderFiles<'a>, Memory, Option<CrewOptions<'a>>),
    /// What becomes of an order if one term is changed, with so much memory for records: by one worker, or by others if an
    /// option is given.
    WhatIf(OrderFiles<'a>, WhatIfWords<'a>, Memory, Option<CrewOptions<'a>>),
    /// The text of an order for a network.
    Order(NamedNet<'a>, Terms<'a>),
    /// A table of what networks cost with deadlines, with so much memory for the records of each plan.
    Batch(BatchWords<'a>, Memory),
    /// A network, and perhaps an order, of tables of tasks.
    Import(TableWords<'a>),
    /// What faults mean: those that these words name, or a list of all.
    Explain(Option<&'a str>, Option<&'a str>),
}

/// How a plan is shown.
#[derive(Drop)]
pub struct Look<'a> {
    /// The path of the names of jobs and resources, if there is one.
    pub names: Option<&'a str>,
    /// How many columns a line has at most, 1 to 1,000, if an option says so.
    pub width: Option<u64>,
    /// What is written.
    pub form: Form,
    /// Whether more than one flag says what is written.
    pub are_several: bool,
    /// Whether a picture has an arrow from each job to each that waits for it.
    pub has_links: bool,
    /// How times are told.
    pub dates: Dates<'a>,
    pub ghost width_few: { IfSome width (λ width. width ≤ 1000) } by { Prim.hlevel props },
}

/// The words for a page about a plan.
#[derive(Drop)]
pub struct ReportWords<'a> {
    /// The path of the names of jobs and resources, if there is one.
    pub names: Option<&'a str>,
    /// The path of what each deadline costs, if there is one.
    pub curve: Option<&'a str>,
    /// The path of what changes cost, if there is one.
    pub changes: Option<&'a str>,
    /// The path of a certificate for the plan, or of a bound, if there is one.
    pub proof: Option<&'a str>,
    /// How times are told.
    pub dates: Dates<'a>,
}

/// The words for a plan that is written for other programs.
#[derive(Clone, Copy)]
pub struct ExportWords<'a> {
    /// In which format.
    pub to: &'a str,
    /// The path of a calendar of working days.
    pub calendar: &'a str,
    /// The path of the names of jobs and resources, if there is one.
    pub names: Option<&'a str>,
}

/// The words for what becomes of an order if one term is changed.
#[derive(Clone, Copy)]
pub struct WhatIfWords<'a> {
    /// The path of the plan beside which it is told, if there is one; else that of the order is made.
    pub plan: Option<&'a str>,
    /// The path of the names of jobs and resources, if there is one.
    pub names: Option<&'a str>,
}

/// The words for times that are told by dates.
#[derive(Clone, Copy)]
pub struct Dates<'a> {
    /// The path of a calendar of working days, if times are told by one.
    pub calendar: Option<&'a str>,
    /// The date of the time 0, if times are told by dates from it on.
    pub start: Option<&'a str>,
    /// The days of the week that are worked on; all of them if no option says so.
    pub workdays: Option<&'a str>,
    /// How long a time unit is: `day` or `week`; a day if no option says so.
    pub unit: Option<&'a str>,
}

/// The paths of the files of a network, and of what its jobs and resources are called.
#[derive(Clone, Copy)]
pub struct NamedNet<'a> {
    /// The path of the network.
    pub net: &'a str,
    /// The path of the names of jobs and resources, if there is one.
    pub names: Option<&'a str>,
}

/// The words for the terms of an order.
#[derive(Drop)]
pub struct Terms<'a> {
    /// By what the critical length is multiplied, if the deadline is told in this way.
    pub factor: Option<&'a str>,
    /// The deadline, if it is told itself.
    pub deadline: Option<&'a str>,
    /// The path of the calendar by which a date is a time, if there is one.
    pub calendar: Option<&'a str>,
    /// The prices.
    pub prices: &'a str,
    /// How many units are owned, if that is told.
    pub owned: Option<&'a str>,
    /// How many units there may be, if that is told.
    pub ceiling: Option<&'a str>,
}

/// The paths of the files of a network and an order.
#[derive(Drop)]
pub struct OrderFiles<'a> {
    /// The path of the network.
    pub net: &'a str,
    /// The path of the order.
    pub order: &'a str,
}

/// How much memory the records of refuted nodes of a search take at most, about.
#[derive(Clone, Copy)]
pub struct Memory {
    /// How many mebibytes, 1 to 1,048,576; 1,024 if no option says so.
    pub mebibytes: usize,
    pub ghost mebibytes_few: { mebibytes ≤ 1048576 },
}

/// How workers make a plan, or the plans of a curve.
#[derive(Clone, Copy)]
pub struct CrewOptions<'a> {
    /// How many workers there are, 1 to 64, or 0 for as many as there are processors; 1 if no option says so.
    pub workers: usize,
    /// How many turns they take at most, 1 to 1,000,000,000,000; the most if no option says so.
    pub turns: u64,
    /// The word for the seconds after which planning stops, if an option says so.
    pub time_limit: Option<&'a str>,
    /// Whether the work that was done is told.
    pub stats: bool,
    /// Whether it is told from time to time how far planning has come.
    pub progress: bool,
    /// The path of the file that keeps the best plan that is known, if there is to be one.
    pub best: Option<&'a str>,
    pub ghost workers_few: { workers ≤ 64 },
    pub ghost turns_few: { turns ≤ 1000000000000 },
}

/// The paths of the files of a network, an order and a plan.
#[derive(Drop)]
pub struct PlanFiles<'a> {
    /// The path of the network.
    pub net: &'a str,
    /// The path of the order.
    pub order: &'a str,
    /// The path of the plan.
    pub plan: &'a str,
}

/// The paths of the files of a network, an order, a plan and a certificate.
#[derive(Drop)]
pub struct ProofFiles<'a> {
    /// The path of the network.
    pub net: &'a str,
    /// The path of the order.
    pub order: &'a str,
    /// The path of the plan.
    pub plan: &'a str,
    /// The path of the certificate.
    pub proof: &'a str,
}

/// The paths of the files of a network, an order and a certificate of a bound.
#[derive(Drop)]
pub struct BoundFiles<'a> {
    /// The path of the network.
    pub net: &'a str,
    /// The path of the order.
    pub order: &'a str,
    /// The path of the certificate.
    pub proof: &'a str,
}

/// Where a text is read from.
pub enum Source<'a> {
    /// Standard input.
    StandardInput,
    /// The file with this path.
    File(&'a str),
}
