//! How the words of `import` say that tables are read, and what the files are called.

use racp_calendar::{Calendar, DateForm, Unit};
use racp_host::failure::OptionFault;
use racp_tables::{Dating, Format, Reading, Scale};
use racp_words::TableWords;

/// Titles of columns, between commas, if they are told.
#[derive(Clone, Copy)]
pub(crate) struct Titles<'a> {
    /// Those of resources.
    pub(crate) resources: Option<&'a str>,
    /// Those of columns that are passed over.
    pub(crate) ignored: Option<&'a str>,
}

/// How the words say that a table is read that has columns of these titles, and whose dates are those of a calendar.
pub(crate) fn reading_of<'a>(
    words: &TableWords<'_>,
    titles: Titles<'a>,
    calendar: Calendar<'a>,
) -> Result<Reading<'a>, OptionFault> {
    let hours_a_day = match words.hours_a_day {
        Some(word) => word.parse().ok(),
        None => None,
    };
    Ok(Reading {
        format: format_of(words.from)?,
        resources: titles.resources,
        ignored: titles.ignored,
        scale: Scale {
            hours_a_day,
            is_half_day: is_half_day(words.unit)?,
        },
        dating: dating_of(words, calendar)?,
    })
}

/// How dates in a table are times: by a calendar that counts days, as the table does.
fn dating_of<'a>(
    words: &TableWords<'_>,
    calendar: Calendar<'a>,
) -> Result<Dating<'a>, OptionFault> {
    let form = form_of(words.date_format)?;
    match calendar {
        Calendar::Numbers if words.date_format.is_some() => Err(OptionFault::DateFormat),
        Calendar::Dates(workdays) if !is_daily(workdays.unit(), words.unit) => {
            Err(OptionFault::OtherUnit)
        }
        _ => Ok(Dating { calendar, form }),
    }
}

/// Whether both a calendar and a table, whose unit a word may tell, count days.
fn is_daily(unit: Unit, word: Option<&str>) -> bool {
    matches!(unit, Unit::Day) && word != Some("half-day")
}

/// How dates are written, by a word that may be there.
fn form_of(word: Option<&str>) -> Result<DateForm, OptionFault> {
    match word {
        Some(word) => DateForm::read(word).ok_or(OptionFault::NoDateFormat),
        None => Ok(DateForm::ISO),
    }
}

/// The format with this name, if one is named.
fn format_of(word: Option<&str>) -> Result<Option<Format>, OptionFault> {
    match word {
        None => Ok(None),
        Some("csv") => Ok(Some(Format::Csv)),
        Some("rcp") => Ok(Some(Format::Rcp)),
        Some("mspdi") => Ok(Some(Format::Mspdi)),
        Some(_) => Err(OptionFault::Format),
    }
}

/// Whether a time unit that is called so is half a day.
fn is_half_day(word: Option<&str>) -> Result<bool, OptionFault> {
    match word {
        None => Ok(false),
        Some("day") => Ok(false),
        Some("half-day") => Ok(true),
        Some(_) => Err(OptionFault::HalfDay),
    }
}

/// How the paths of the files begin, by a word that may be the path of the network.
pub(crate) fn project_of(word: &str) -> Result<&str, OptionFault> {
    let out = word.strip_suffix(".sm").unwrap_or(word);
    if out.is_empty() || out.ends_with('/') {
        return Err(OptionFault::Project);
    }
    Ok(out)
}
