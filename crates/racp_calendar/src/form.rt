//! In which form dates are written.

/// In which order the parts of a date stand.
#[derive(Clone, Copy)]
pub enum Order {
    /// As in 2026-11-27.
    YearMonthDay,
    /// As in 27.11.2026.
    DayMonthYear,
    /// As in 11/27/2026.
    MonthDayYear,
}

/// What stands between the parts of a date.
#[derive(Clone, Copy)]
pub enum Mark {
    /// As in 27.11.2026.
    Point,
    /// As in 11/27/2026.
    Slash,
    /// As in 2026-11-27.
    Hyphen,
}

/// In which form dates are written: with four digits of the year, and with one or two of the month and of the day.
#[derive(Clone, Copy)]
pub struct DateForm {
    /// The order of the parts.
    pub(crate) order: Order,
    /// What stands between two of them.
    pub(crate) mark: Mark,
    /// Whether a month and a day always have two digits; else both begin with no zero, or both have two digits.
    pub(crate) has_zeros: bool,
}

impl DateForm {
    /// That of ISO 8601, as in 2026-11-27.
    pub const ISO: DateForm = DateForm {
        order: Order::YearMonthDay,
        mark: Mark::Hyphen,
        has_zeros: true,
    };

    /// The form that a word shows, as `D.M.YYYY`, `DD.MM.YYYY`, `M/D/YYYY` and `YYYY-MM-DD` do; `None` if it shows none.
    pub fn read(word: &str) -> Option<DateForm> {
        let (mark, between) = mark_of(word)?;
        let (first, rest) = word.split_once(between)?;
        let (second, third) = rest.split_once(between)?;
        let (order, day, month) = match (first, second, third) {
            ("YYYY", _, _) => (Order::YearMonthDay, third, second),
            ("D" | "DD", _, "YYYY") => (Order::DayMonthYear, first, second),
            ("M" | "MM", _, "YYYY") => (Order::MonthDayYear, second, first),
            _ => return None,
        };
        match (day, month) {
            ("DD", "MM") => Some(DateForm {
                order,
                mark,
                has_zeros: true,
            }),
            ("D", "M") => Some(DateForm {
                order,
                mark,
                has_zeros: false,
            }),
            _ => None,
        }
    }
}

/// The mark between the parts of a word, if it has one that is known, and how it is written.
fn mark_of(word: &str) -> Option<(Mark, &'static str)> {
    if word.contains('.') {
        Some((Mark::Point, "."))
    } else if word.contains('/') {
        Some((Mark::Slash, "/"))
    } else if word.contains('-') {
        Some((Mark::Hyphen, "-"))
    } else {
        None
    }
}
