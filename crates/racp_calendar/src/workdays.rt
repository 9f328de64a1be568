//! A calendar of working days.

ghost use Rattle.racp_calendar.specs.Units.{unit_days};
ghost use Rattle.racp_calendar.specs.Work.{has_work, is_worked};
ghost use Rattle.std.specs.Prelude.{◌≡◌, ℕ, min};

use crate::building::{blocks_of, free_days, has_day, week_from};
use crate::calendar::MOST_DAYS;
use crate::fault::WorkdaysFault;
use crate::holiday::Holiday;
use crate::pattern::Pattern;
use crate::unit::{Unit, days_of};
use jiff_core::civil::Date;
use std::alloc::Global;

/// A calendar of working days: a first day, at the beginning of which is the time 0, which days are worked on from it on, and
/// how long a time unit is.
#[derive(Drop)]
pub struct Workdays {
    pub(crate) first: Date,
    pub(crate) unit: Unit,
    pub(crate) days: Pattern,
    pub(crate) blocks: Pattern,
    ghost blocks_work: { (block : ℕ) → is_worked blocks.week blocks.free.items block ≡
        has_work (is_worked days.week days.free.items) (unit_days unit) block },
}

impl Workdays {
    ghost use Rattle.std.specs.Prelude.{◌≡◌, ◌≤◌, ℕ, IfOk, not, ◌&&◌};
    ghost use Rattle.std.specs.List.{list_any};
    ghost use Rattle.jiff_core.specs.Date.{weekday_of};
    ghost use Rattle.racp_calendar.specs.Dates.{end_of, first_of, most_days, start_of, work_of};
    ghost use Rattle.racp_calendar.specs.Holidays.{is_off, week_from};
    ghost use Rattle.racp_calendar.specs.Units.{unit_days};
    ghost use Rattle.racp_calendar.specs.Work.{block_at, first_in, is_weekly, is_worked, last_in};

    /// The calendar with this first day, whose time units are that long. Of the seven days of a week, of which Monday is the
    /// first, those are worked on for which `worked` says so, but for holidays.
    ///
    /// # Errors
    ///
    /// `NoWorkday` if no day of a week is worked on; `TooMany` if more than 4,000 days are free by holidays; `Memory` if
    /// memory was refused.
    pub fn of(
        alloc: Global,
        first: Date,
        unit: Unit,
        worked: [bool; 7],
        holidays: &[Holiday],
    ) -> Result<Workdays, WorkdaysFault>
        ensures first { IfOk result (λ calendar. calendar.first ≡ first) }
        ensures unit { IfOk result (λ calendar. calendar.unit ≡ unit) }
        ensures worked { IfOk result (λ calendar. (day : ℕ) →
            is_worked calendar.days.week calendar.days.free.items day ≡
            (is_weekly (week_from worked (weekday_of first)) day && not (list_any (λ holiday. is_off first holiday day) holidays.now))) }
    {
        let week = week_from(worked, first.weekday().index());
        if !has_day(&week) {
            return Err(WorkdaysFault::NoWorkday);
        }
        let free = free_days(alloc, first, holidays)?;
        let days = Pattern::of(alloc, week, free)?;
        let blocks = blocks_of(alloc, unit, &days)?;
        Ok(Workdays {
            first,
            unit,
            days,
            blocks,
        })
    }

    /// How long a time unit is.
    pub fn unit(&self) -> Unit
        ensures { result ≡ self.now.unit }
    {
        self.unit
    }

    /// The first day of what runs so long from a time on: what takes no time is done on the evening of that day.
    pub(crate) fn first_day(&self, start: u128, duration: u128) -> u64
        ensures { result ≡ first_of self.now start duration }
    {
        if duration == 0 {
            self.end_day(start)
        } else {
            self.start_day(start)
        }
    }

    /// The day on which what starts at a time is begun.
    pub(crate) fn start_day(&self, time: u128) -> u64
        ensures { result ≡ start_of self.now time }
    {
        self.first_in(self.block_of(time))
    }

    /// The day on the evening of which what ends at a time is done; what ends at 0 is told by the first day.
    pub(crate) fn end_day(&self, time: u128) -> u64
        ensures { result ≡ end_of self.now time }
    {
        if time == 0 {
            return self.start_day(0);
        }
        self.last_in(self.block_of(time - 1))
    }

    /// The block of a time; 7,304,484 if it is later than that.
    pub(crate) fn block_of(&self, time: u128) -> u64
        ensures value { result ≡ block_at (work_of self.now) (unit_days self.now.unit) most_days time }
        ensures small { result ≤ most_days }
    {
        if time >= MOST_DAYS as u128 {
            return MOST_DAYS;
        }
        sooner(self.blocks.day_at(time as u64), MOST_DAYS)
    }

    /// The first day of a block that is worked on; the day behind it if none is.
    #[tactic(auto, using(crate::proofs::Blocks::first_past, crate::proofs::Blocks::first_found, crate::proofs::Blocks::first_nowhere))]
    pub(crate) fn first_in(&self, block: u64) -> u64
        requires { block ≤ most_days }
        ensures { result ≡ first_in (work_of self.now) (unit_days self.now.unit) block }
    {
        let span = days_of(self.unit);
        let begin = block * span;
        for step in 0..span {
            if self.days.works(begin + step) {
                return begin + step;
            }
        }
        begin + span
    }

    /// The last day of a block that is worked on; its first day if none is.
    #[tactic(auto, using(crate::proofs::Blocks::last_past, crate::proofs::Blocks::last_found, crate::proofs::Blocks::last_nowhere))]
    pub(crate) fn last_in(&self, block: u64) -> u64
        requires { block ≤ most_days }
        ensures { result ≡ last_in (work_of self.now) (unit_days self.now.unit) block }
    {
        let span = days_of(self.unit);
        let end = (block + 1) * span;
        for step in 0..span {
            if self.days.works(end - step - 1) {
                return end - step - 1;
            }
        }
        end - span
    }
}

/// The lesser of two numbers.
fn sooner(number: u64, other: u64) -> u64
    ensures { result ≡ min number other }
{
    if number < other { number } else { other }
}
