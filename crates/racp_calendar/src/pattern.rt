//! Which days are worked on.

ghost use Rattle.std.specs.Prelude.{◌≡◌, ◌<◌, ◌≤◌, ◌^◌, ℕ, IfOk, length, not, true, vec_len};
ghost use Rattle.racp_calendar.specs.Work.{IsPlace, are_rising, count_below, has_day, has_work, is_free, is_weekly, is_worked, sifted, weekly_place, weeks_of};

use std::alloc::{AllocError, Global};

/// Which days are worked on. Days are counted from a first day, the day 0: some of the seven days of a week are worked
/// on, of which the first is that of the day 0, but for days that are free.
#[derive(Drop)]
pub(crate) struct Pattern {
    week: [bool; 7],
    free: Vec<u32>,
    ghost some: { has_day week ≡ true },
    ghost rising: { are_rising week 0 free.items ≡ true },
    ghost few: { vec_len free < 2 ^ 32 },
}

impl Pattern {
    /// The pattern of a week, of which some day is worked on, and days that are free, in any order.
    pub(crate) fn of(
        alloc: Global,
        week: [bool; 7],
        mut days: Vec<u32>,
    ) -> Result<Pattern, AllocError>
        requires some { has_day week ≡ true }
        requires few { vec_len days < 2 ^ 32 }
        ensures week { IfOk result (λ pattern. pattern.week ≡ week) }
        ensures worked { IfOk result (λ pattern. (day : ℕ) →
            is_worked pattern.week pattern.free.items day ≡ is_worked week days.items day) }
    {
        days.sort()?;
        let free = sifted(alloc, &week, days.as_slice())?;
        Ok(Pattern { week, free })
    }

    /// The pattern of the weeks that have a day that is worked on.
    pub(crate) fn weeks(&self, alloc: Global) -> Result<Pattern, AllocError>
        ensures { IfOk result (λ pattern. (week : ℕ) → is_worked pattern.week pattern.free.items week ≡
            has_work (is_worked self.now.week self.now.free.items) 7 week) }
    {
        let free = self.idle_weeks(alloc)?;
        Ok(Pattern {
            week: [true; 7],
            free,
        })
    }

    /// The same pattern once more.
    pub(crate) fn again(&self, alloc: Global) -> Result<Pattern, AllocError>
        ensures { IfOk result (λ pattern. (day : ℕ) → is_worked pattern.week pattern.free.items day ≡
            has_work (is_worked self.now.week self.now.free.items) 1 day) }
    {
        let free = Vec::from_slice(alloc, self.free.as_slice())?;
        Ok(Pattern {
            week: self.week,
            free,
        })
    }

    /// The weeks that have a free day, and no day that is worked on.
    fn idle_weeks(&self, alloc: Global) -> Result<Vec<u32>, AllocError>
        ensures weeks { IfOk result (λ free. free.items ≡
            weeks_of (λ week. not (has_work (is_worked self.now.week self.now.free.items) 7 week)) 0 self.now.free.items) }
        ensures few { IfOk result (λ free. vec_len free < 2 ^ 32) }
    {
        let mut free = Vec::new(alloc);
        let mut next = 0u32;
        for day in self.free.as_slice() {
            let week = *day / 7;
            if next <= week {
                if !self.has_work(week) {
                    free.push(week)?;
                }
                next = week + 1;
            }
        }
        Ok(free)
    }

    /// Whether a week has a day that is worked on.
    fn has_work(&self, week: u32) -> bool
        ensures { result ≡ has_work (is_worked self.now.week self.now.free.items) 7 week }
    {
        for day in 0..7u64 {
            if self.works(week as u64 * 7 + day) {
                return true;
            }
        }
        false
    }

    /// The days that are free though their day of the week is worked on.
    pub(crate) fn free(&self) -> &[u32]
        ensures { result.now ≡ self.now.free.items }
    {
        self.free.as_slice()
    }

    /// Whether a day is worked on.
    pub(crate) fn works(&self, day: u64) -> bool
        ensures { result ≡ is_worked self.now.week self.now.free.items day }
    {
        self.is_weekly(day) && !self.is_free(day)
    }

    /// Whether a day is one of the free ones.
    fn is_free(&self, day: u64) -> bool
        ensures { result ≡ is_free self.now.free.items day }
    {
        for free in self.free.as_slice() {
            if *free as u64 == day {
                return true;
            }
        }
        false
    }

    /// Whether the day of the week of this day is worked on.
    pub(crate) fn is_weekly(&self, day: u64) -> bool
        ensures { result ≡ is_weekly self.now.week day }
    {
        is_weekly(&self.week, day)
    }

    /// How many of the first days of a week are worked on.
    #[tactic(auto, using(crate::proofs::Places::count_zero, crate::proofs::Places::count_at, crate::proofs::Places::count_past))]
    fn in_week(&self, days: u64) -> u64
        requires { days ≤ 7 }
        ensures value { result ≡ count_below (is_weekly self.now.week) days }
        ensures within { result ≤ days }
    {
        let mut count = 0;
        for day in 0..days {
            if self.is_weekly(day) {
                count += 1;
            }
        }
        count
    }

    /// How many days before this one have a day of the week that is worked on.
    fn weekly_below(&self, day: u64) -> u64
        ensures value { result ≡ count_below (is_weekly self.now.week) day }
        ensures within { result ≤ day }
    {
        day / 7 * self.in_week(7) + self.in_week(day % 7)
    }

    /// How many days before this one are worked on.
    pub(crate) fn below(&self, day: u64) -> u64
        ensures value { result ≡ count_below (is_worked self.now.week self.now.free.items) day }
        ensures within { result ≤ day }
    {
        let mut count = self.weekly_below(day);
        for free in self.free.as_slice() {
            if day <= *free as u64 {
                return count;
            }
            count -= 1;
        }
        count
    }

    /// The day that is worked on with so many before it that are.
    pub(crate) fn day_at(&self, time: u64) -> u64
        requires { time < 2 ^ 32 }
        ensures place { IsPlace (is_worked self.now.week self.now.free.items) time result }
        ensures small { result < 2 ^ 40 }
    {
        self.weekly_day(self.weekly_place(time))
    }

    /// How many days have a day of the week that is worked on before the one that is worked on with so many before it.
    fn weekly_place(&self, time: u64) -> u64
        requires { time < 2 ^ 32 }
        ensures value { result ≡ weekly_place self.now.week self.now.free.items time }
        ensures small { result < 2 ^ 33 }
    {
        let mut place = time;
        for free in self.free.as_slice() {
            if place < self.weekly_below(*free as u64) {
                return place;
            }
            place += 1;
        }
        place
    }

    /// The day of the week of which is worked on, with so many before it whose are.
    fn weekly_day(&self, place: u64) -> u64
        requires { place < 2 ^ 33 }
        ensures place { IsPlace (is_weekly self.now.week) place result }
        ensures small { result < 2 ^ 40 }
    {
        let each = self.in_week(7);
        place / each * 7 + self.day_of_week(place % each)
    }

    /// The day of the first week that is worked on, with so many before it that are.
    #[tactic(auto, using(crate::proofs::Places::count_zero, crate::proofs::Places::count_at, crate::proofs::Places::count_past))]
    fn day_of_week(&self, place: u64) -> u64
        requires { place < count_below (is_weekly self.now.week) 7 }
        ensures place { IsPlace (is_weekly self.now.week) place result }
        ensures small { result < 7 }
    {
        for day in 0..7u64 {
            if self.is_weekly(day) && self.in_week(day) == place {
                return day;
            }
        }
        unreachable!()
    }
}

/// Whether the day of the week of this day is worked on.
pub(crate) fn is_weekly(week: &[bool; 7], day: u64) -> bool
    ensures { result ≡ is_weekly week.now day }
{
    week[(day % 7) as usize]
}

/// Free days in rising order, each of them once, and of those alone whose day of the week is worked on.
fn sifted(alloc: Global, week: &[bool; 7], days: &[u32]) -> Result<Vec<u32>, AllocError>
    ensures free { IfOk result (λ free. free.items ≡ sifted week.now 0 days.now) }
    ensures few { IfOk result (λ free. vec_len free ≤ length days.now) }
{
    let mut free = Vec::new(alloc);
    let mut next = 0u64;
    for day in days {
        if next <= *day as u64 && is_weekly(week, *day as u64) {
            free.push(*day)?;
            next = *day as u64 + 1;
        }
    }
    Ok(free)
}
