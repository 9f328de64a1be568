//! The calendar and the resources of a project of TaskJuggler.

ghost use Rattle.std.specs.Prelude.{◌≡◌, ◌++◌, ◌<◌, IfOk, OnOk, flat_map, string_bytes};
ghost use Rattle.racp_calendar.specs.Dates.{first_text, last_text};
ghost use Rattle.racp_calendar.specs.Told.{counted_text, free_days};
ghost use Rattle.racp_export.specs.Days.{day_behind};
ghost use Rattle.racp_export.specs.Letters.{spelled};
ghost use Rattle.racp_export.specs.TaskJuggler.{day_hours, day_line, day_name, days_before, frame_lines, frame_text, free_leave, hours_line, leave_line, resource_line, resource_units, staff_before, staff_text, unit_line, units_before};
ghost use Rattle.racp_export.specs.Told.{told_by};
ghost use Rattle.racp_export.specs.Words.{resource_title};
ghost use Rattle.racp_export.specs.declared.letters.Letters.TheVariants.{TaskJuggler};

use crate::behind::day_behind;
use crate::ground::Ground;
use crate::letters::{Letters, spelled};
use crate::words::resource_title;
use crate::work::number_at;
use racp_calendar::{Calendar, free_days, is_workday, push_counted, push_first};
use std::alloc::{AllocError, Global};

/// Adds the project and its calendar.
#[tactic(auto, unfolding(crate::specs::TaskJuggler::frame_text), using(crate::proofs::Pieces::in_four))]
pub(crate) fn push_frame(
    alloc: Global,
    text: &mut String,
    ground: &Ground<'_>,
) -> Result<(), AllocError>
    ensures { OnOk result (string_bytes text.new ≡ string_bytes text.old ++ frame_text (told_by ground.now)) }
{
    push_project(alloc, text, ground)?;
    push_days(text, ground.calendar)?;
    text.push_str("}\n")?;
    push_leaves(alloc, text, ground.calendar)?;
    Ok(())
}

/// Adds what is said of the whole project.
fn push_project(alloc: Global, text: &mut String, ground: &Ground<'_>) -> Result<(), AllocError>
    ensures { OnOk result (string_bytes text.new ≡ string_bytes text.old
        ++ frame_lines (first_text ground.now.calendar 0 1) (day_behind (last_text ground.now.calendar ground.now.deadline))) }
{
    let mut first = String::new(alloc);
    push_first(&mut first, ground.calendar, 0, 1)?;
    let behind = day_behind(alloc, ground.calendar, ground.deadline as u128)?;
    push_frame_lines(text, first.as_str(), behind.as_str())
}

/// Adds what is said of a project from its first day to the day behind its last.
#[tactic(auto, unfolding(crate::specs::TaskJuggler::frame_lines))]
fn push_frame_lines(text: &mut String, first: &str, behind: &str) -> Result<(), AllocError>
    ensures { OnOk result (string_bytes text.new ≡ string_bytes text.old ++ frame_lines first.now behind.now) }
{
    write!(
        text,
        "project racp \"racp\" {first} - {behind} {{\n  timezone \"UTC\"\n  dailyworkinghours 8\n"
    )
}

/// Adds the days of the week.
fn push_days(text: &mut String, calendar: Calendar<'_>) -> Result<(), AllocError>
    ensures { OnOk result (string_bytes text.new ≡ string_bytes text.old ++ days_before calendar.entry 7) }
{
    for day in 0..7u8 {
        push_day(text, calendar, day)?;
    }
    Ok(())
}

/// Adds a day of the week, from 0 for Monday.
#[tactic(auto, unfolding(crate::specs::TaskJuggler::day_line))]
fn push_day(text: &mut String, calendar: Calendar<'_>, day: u8) -> Result<(), AllocError>
    ensures { OnOk result (string_bytes text.new ≡ string_bytes text.old ++ day_line calendar.entry day) }
{
    push_hours(text, day_name(day), day_hours(is_workday(calendar, day)))
}

/// Adds the hours of a day of the week.
#[tactic(auto, unfolding(crate::specs::TaskJuggler::hours_line))]
fn push_hours(text: &mut String, day: &str, hours: &str) -> Result<(), AllocError>
    ensures { OnOk result (string_bytes text.new ≡ string_bytes text.old ++ hours_line day.now hours.now) }
{
    write!(text, "  workinghours {day} {hours}\n")
}

/// What a day of the week is called, from 0 for Monday.
fn day_name(day: u8) -> &'static str
    ensures { result.now ≡ day_name day }
{
    match day {
        0 => "mon",
        1 => "tue",
        2 => "wed",
        3 => "thu",
        4 => "fri",
        5 => "sat",
        _ => "sun",
    }
}

/// The hours of a day that is worked on, or that it is not.
fn day_hours(works: bool) -> &'static str
    ensures { result.now ≡ day_hours works }
{
    if works {
        "8:00 - 12:00, 13:00 - 17:00"
    } else {
        "off"
    }
}

/// Adds each free day.
fn push_leaves(alloc: Global, text: &mut String, calendar: Calendar<'_>) -> Result<(), AllocError>
    ensures { OnOk result (string_bytes text.new ≡ string_bytes text.old ++ flat_map (free_leave calendar.entry) (free_days calendar.entry)) }
{
    for day in free_days(calendar) {
        push_leave(alloc, text, calendar, *day)?;
    }
    Ok(())
}

/// Adds a free day.
fn push_leave(
    alloc: Global,
    text: &mut String,
    calendar: Calendar<'_>,
    day: u32,
) -> Result<(), AllocError>
    ensures { OnOk result (string_bytes text.new ≡ string_bytes text.old ++ free_leave calendar.entry day) }
{
    let mut date = String::new(alloc);
    push_counted(&mut date, calendar, day)?;
    push_leave_line(text, date.as_str())
}

/// Adds a free day, of this date.
#[tactic(auto, unfolding(crate::specs::TaskJuggler::leave_line))]
fn push_leave_line(text: &mut String, day: &str) -> Result<(), AllocError>
    ensures { OnOk result (string_bytes text.new ≡ string_bytes text.old ++ leave_line day.now) }
{
    write!(text, "leaves holiday \"{day}\" {day}\n")
}

/// Adds each resource.
pub(crate) fn push_staff(
    alloc: Global,
    text: &mut String,
    ground: &Ground<'_>,
) -> Result<(), AllocError>
    ensures { OnOk result (string_bytes text.new ≡ string_bytes text.old ++ staff_before (told_by ground.now) ground.now.net.now.resources) }
{
    for k in 0..ground.net.resource_count() {
        push_resource(alloc, text, ground, k)?;
    }
    Ok(())
}

/// Adds the resource at place `k`.
#[tactic(auto, unfolding(crate::specs::TaskJuggler::staff_text))]
fn push_resource(
    alloc: Global,
    text: &mut String,
    ground: &Ground<'_>,
    k: usize,
) -> Result<(), AllocError>
    requires { k < ground.now.net.now.resources }
    ensures { OnOk result (string_bytes text.new ≡ string_bytes text.old ++ staff_text (told_by ground.now) k) }
{
    prove!(k < ground.net.resource_count());
    let title = spelled_resource(alloc, ground, k)?;
    push_units(text, k + 1, title.as_str(), number_at(ground.capacities, k))
}

/// What the resource at place `k` is called.
fn spelled_resource(alloc: Global, ground: &Ground<'_>, k: usize) -> Result<String, AllocError>
    requires { k < ground.now.net.now.resources }
    ensures { IfOk result (λ title. string_bytes title ≡ spelled TaskJuggler (resource_title ground.now.net.now ground.now.names.now k)) }
{
    let title = resource_title(alloc, ground.net, ground.names, k)?;
    spelled(alloc, Letters::TaskJuggler, title.as_str())
}

/// Adds a resource with so many units.
#[tactic(auto, using(crate::proofs::Pieces::in_three))]
fn push_units(text: &mut String, resource: usize, title: &str, units: u32) -> Result<(), AllocError>
    ensures { OnOk result (string_bytes text.new ≡ string_bytes text.old ++ resource_units resource title.now units) }
{
    push_resource_line(text, resource, title)?;
    push_each_unit(text, resource, title, units)?;
    text.push_str("}\n")?;
    Ok(())
}

/// Adds the first line of a resource.
#[tactic(auto, unfolding(crate::specs::TaskJuggler::resource_line))]
fn push_resource_line(text: &mut String, resource: usize, title: &str) -> Result<(), AllocError>
    ensures { OnOk result (string_bytes text.new ≡ string_bytes text.old ++ resource_line resource title.now) }
{
    write!(text, "resource r{resource} \"{title}\" {{\n")
}

/// Adds so many units of a resource.
fn push_each_unit(
    text: &mut String,
    resource: usize,
    title: &str,
    units: u32,
) -> Result<(), AllocError>
    ensures { OnOk result (string_bytes text.new ≡ string_bytes text.old ++ units_before resource title.now units) }
{
    for unit in 0..units {
        push_unit(text, resource, unit + 1, title)?;
    }
    Ok(())
}

/// Adds a unit of a resource.
#[tactic(auto, unfolding(crate::specs::TaskJuggler::unit_line))]
fn push_unit(text: &mut String, resource: usize, unit: u32, title: &str) -> Result<(), AllocError>
    ensures { OnOk result (string_bytes text.new ≡ string_bytes text.old ++ unit_line resource unit title.now) }
{
    write!(text, "  resource r{resource}_{unit} \"{title} {unit}\"\n")
}
