//! What is wrong with options.

use thiserror::Error;

/// What is wrong with the options for an order or for a time, or the words for a fault.
#[derive(Debug, Clone, Copy, Drop, Error)]
pub enum OptionFault {
    /// The deadline is told in no way, or in two.
    #[error("one of --factor and --deadline has to be given, and not both")]
    Time,
    /// The factor is no decimal.
    #[error("--factor has to be a decimal such as 1.2")]
    Factor,
    /// The deadline is no whole number.
    #[error("--deadline has to be a whole number from 0 to 10,000,000")]
    Deadline,
    /// The deadline is a date, and nothing says which time that is.
    #[error("--deadline as a date needs --calendar, which says which days are worked on")]
    DatedDeadline,
    /// The deadline is neither a whole number nor a date.
    #[error("--deadline has to be a whole number from 0 to 10,000,000, or a date such as 2026-11-27")]
    NoDeadline,
    /// It is told how dates are written, and nothing says which times they are.
    #[error("--date-format goes with --calendar, which says which days are worked on")]
    DateFormat,
    /// It is told in no way that is known how dates are written.
    #[error("--date-format has to be a form such as D.M.YYYY, DD.MM.YYYY, M/D/YYYY, MM/DD/YYYY or YYYY-MM-DD")]
    NoDateFormat,
    /// A calendar is named for an answer without dates.
    #[error("--calendar goes with --json here, and of curve with --svg: a plan and the lines of a curve have no dates")]
    NoJson,
    /// A table counts other time units than its calendar.
    #[error("a table counts days: no --unit half-day beside --calendar, and unit = \"day\" in it")]
    OtherUnit,
    /// The limit of time is no number of seconds, or out of its range.
    #[error("--time-limit has to be a number of seconds such as 60 or 0.5, above 0 and up to 1,000,000,000")]
    TimeLimit,
    /// Arrows are asked for, and no picture.
    #[error("--links goes with --svg: only a picture has arrows")]
    Links,
    /// More than one form of a plan that is shown is asked for.
    #[error("a plan is shown in one form: one of --ascii, --svg, --json and --csv")]
    Forms,
    /// A picture of a curve is asked for, and an object of JSON too.
    #[error("a curve is written in one form: one of --svg and --json")]
    CurveForms,
    /// A width is asked for, and no chart.
    #[error("--width goes with a chart: no --svg, --json or --csv beside it")]
    Width,
    /// The date of the time 0 is no date.
    #[error("--start-date has to be a date such as 2026-01-05")]
    StartDate,
    /// A file of a calendar is named, and what such a file says is told beside it.
    #[error("--calendar has the first day, the working days and the time unit: no --start-date, --workdays or --unit beside it")]
    Calendar,
    /// The days of a week that are worked on are none that are told, or told without a date.
    #[error("--workdays has to be days such as mon-fri or mon-thu,sat, with --start-date")]
    Workdays,
    /// The length of a time unit is none that is told, or told without a date.
    #[error("--unit has to be day or week, with --start-date")]
    Unit,
    /// The format of an export is none that is written.
    #[error("--to has to be ics, csv, md, mspdi or tjp")]
    Export,
    /// The format of a table is none that is read.
    #[error("--from has to be csv, rcp or mspdi")]
    Format,
    /// The time unit of a table is none that is told.
    #[error("--unit has to be day or half-day")]
    HalfDay,
    /// The path of a project ends in no name.
    #[error("--out has to end with the name of a project, such as house")]
    Project,
    /// There are words for an order, and no prices.
    #[error("an order has to have --prices, and one of --factor and --deadline")]
    NoPrices,
    /// A table has release or due times, and there are no words for an order.
    #[error("a table with a column 'earliest' or 'due' makes an order too, which has to have --prices, and one of --factor and --deadline")]
    Times,
    /// A factor of a table is no decimal.
    #[error("--factors has to be decimals such as 1.0,1.2")]
    Factors,
    /// The price of a table is no whole number, or too great.
    #[error("--price has to be a whole number from 0 to 1,000,000")]
    Price,
    /// The plans of two networks would be kept in the same file.
    #[error("with --out no two networks may have the same file name")]
    SameName,
    /// No fault has these words.
    #[error("no fault is named by these words; racp explain lists them all")]
    Topic,
}
