//! What the commands ask for that read tables of tasks, or write a table of results.

ghost use Rattle.std.specs.Prelude.{◌≤◌};

/// The words for tables of tasks, and what is to be written of them.
#[derive(Drop)]
pub struct TableWords<'a> {
    /// The paths of the tables, in the order of the words.
    pub files: Vec<&'a str>,
    /// How the paths of the files begin that are written.
    pub out: &'a str,
    /// The format of the tables, if that is told.
    pub from: Option<&'a str>,
    /// The prices, if an order is to be written.
    pub prices: Option<&'a str>,
    /// By what the critical length is multiplied, if the deadline is told in this way.
    pub factor: Option<&'a str>,
    /// The deadline, if it is told itself.
    pub deadline: Option<&'a str>,
    /// How many units are owned, if that is told.
    pub owned: Option<&'a str>,
    /// How many units there may be, if that is told.
    pub ceiling: Option<&'a str>,
    /// Which columns are those of resources, if that is told.
    pub resources: Option<&'a str>,
    /// Which columns are passed over, if that is told.
    pub ignored: Option<&'a str>,
    /// How many hours make a day, 1 to 24, if that is told.
    pub hours_a_day: Option<&'a str>,
    /// How long a time unit is, if that is told.
    pub unit: Option<&'a str>,
    /// The path of the calendar by which dates are times, if there is one.
    pub calendar: Option<&'a str>,
    /// How dates are written, if that is told.
    pub date_format: Option<&'a str>,
    /// Whether a table that looks wrong is refused.
    pub is_strict: bool,
    /// Whether files are replaced that were changed since they were written.
    pub is_forced: bool,
}

/// The words for a table of results.
#[derive(Drop)]
pub struct BatchWords<'a> {
    /// The paths of the networks, in the order of the words.
    pub nets: Vec<&'a str>,
    /// By what the critical lengths are multiplied.
    pub factors: &'a str,
    /// What a unit of each resource costs, if that is told.
    pub price: Option<&'a str>,
    /// The word for the seconds after which the planning of a row stops, if an option says so.
    pub limit: Option<&'a str>,
    /// How many rows are planned at a time, 1 to 64, or 0 for one for each processor; 1 if no option says so.
    pub jobs: usize,
    /// The path of the folder in which plans are kept, if they are.
    pub out: Option<&'a str>,
    pub ghost jobs_few: { jobs ≤ 64 },
}
