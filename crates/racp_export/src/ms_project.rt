//! A plan as a project of MS Project, in XML.

ghost use Rattle.std.specs.Prelude.{◌≡◌, ◌++◌, ◌<◌, IfOk, OnOk, string_bytes};
ghost use Rattle.racp_calendar.specs.Dates.{first_text, last_text};
ghost use Rattle.racp_charts.specs.Texts.{escaped};
ghost use Rattle.racp_export.specs.MsProject.{head_lines, needs_text, project_text, resource_lines, resource_text, resources_before, resources_text, tasks_text};
ghost use Rattle.racp_export.specs.Told.{told_by};
ghost use Rattle.racp_export.specs.Words.{resource_title};

use crate::ground::Ground;
use crate::ms_needs::push_all_needs;
use crate::ms_rows::push_rows;
use crate::ms_week::{push_exceptions, push_week};
use crate::words::{escaped, resource_title};
use crate::work::number_at;
use racp_calendar::{push_first, push_last};
use racp_show::Row;
use std::alloc::{AllocError, Global};

/// The phases and the tasks of a plan as a project of MS Project, in XML.
#[tactic(auto, unfolding(crate::specs::MsProject::project_text), using(crate::proofs::Pieces::in_six))]
pub(crate) fn project_text(
    alloc: Global,
    ground: &Ground<'_>,
    rows: &[Row<'_>],
) -> Result<String, AllocError>
    ensures { IfOk result (λ text. string_bytes text ≡ project_text (told_by ground.now) rows.now) }
{
    let mut text = String::new(alloc);
    push_head(alloc, &mut text, ground)?;
    push_week(alloc, &mut text, ground.calendar)?;
    push_exceptions(alloc, &mut text, ground.calendar)?;
    push_tasks(alloc, &mut text, ground, rows)?;
    push_resources(alloc, &mut text, ground)?;
    push_needs(alloc, &mut text, ground, rows)?;
    Ok(text)
}

/// Adds what is said of the whole project.
fn push_head(alloc: Global, text: &mut String, ground: &Ground<'_>) -> Result<(), AllocError>
    ensures { OnOk result (string_bytes text.new ≡ string_bytes text.old
        ++ head_lines (first_text ground.now.calendar 0 1) (last_text ground.now.calendar ground.now.deadline)) }
{
    let mut first = String::new(alloc);
    push_first(&mut first, ground.calendar, 0, 1)?;
    let mut last = String::new(alloc);
    push_last(&mut last, ground.calendar, ground.deadline as u128)?;
    push_head_lines(text, first.as_str(), last.as_str())
}

/// Adds what is said of a project that runs from a first day to a last one.
#[tactic(auto, unfolding(crate::specs::MsProject::head_lines))]
fn push_head_lines(text: &mut String, first: &str, last: &str) -> Result<(), AllocError>
    ensures { OnOk result (string_bytes text.new ≡ string_bytes text.old ++ head_lines first.now last.now) }
{
    write!(
        text,
        "<?xml version=\"1.0\" encoding=\"UTF-8\" standalone=\"yes\"?>\n<Project xmlns=\"http://schemas.microsoft.com/project\">\n <SaveVersion>14</SaveVersion>\n <Name>racp</Name>\n <Title>racp</Title>\n <ScheduleFromStart>1</ScheduleFromStart>\n <StartDate>{first}T08:00:00</StartDate>\n <FinishDate>{last}T17:00:00</FinishDate>\n <CalendarUID>1</CalendarUID>\n <DefaultStartTime>08:00:00</DefaultStartTime>\n <DefaultFinishTime>17:00:00</DefaultFinishTime>\n <MinutesPerDay>480</MinutesPerDay>\n <NewTasksAreManual>0</NewTasksAreManual>\n"
    )
}

/// Adds the phases and the tasks.
#[tactic(auto, unfolding(crate::specs::MsProject::tasks_text), using(crate::proofs::Pieces::in_three))]
fn push_tasks(
    alloc: Global,
    text: &mut String,
    ground: &Ground<'_>,
    rows: &[Row<'_>],
) -> Result<(), AllocError>
    ensures { OnOk result (string_bytes text.new ≡ string_bytes text.old ++ tasks_text (told_by ground.now) rows.now) }
{
    text.push_str(" <Tasks>\n")?;
    push_rows(alloc, text, ground, rows)?;
    text.push_str(" </Tasks>\n")?;
    Ok(())
}

/// Adds the resources.
#[tactic(auto, unfolding(crate::specs::MsProject::resources_text), using(crate::proofs::Pieces::in_three))]
fn push_resources(alloc: Global, text: &mut String, ground: &Ground<'_>) -> Result<(), AllocError>
    ensures { OnOk result (string_bytes text.new ≡ string_bytes text.old ++ resources_text (told_by ground.now)) }
{
    text.push_str(" <Resources>\n")?;
    push_all_resources(alloc, text, ground)?;
    text.push_str(" </Resources>\n")?;
    Ok(())
}

/// Adds each resource.
fn push_all_resources(
    alloc: Global,
    text: &mut String,
    ground: &Ground<'_>,
) -> Result<(), AllocError>
    ensures { OnOk result (string_bytes text.new ≡ string_bytes text.old
        ++ resources_before (told_by ground.now) ground.now.net.now.resources) }
{
    for k in 0..ground.net.resource_count() {
        push_resource(alloc, text, ground, k)?;
    }
    Ok(())
}

/// Adds the resource at place `k`.
#[tactic(auto, unfolding(crate::specs::MsProject::resource_text))]
fn push_resource(
    alloc: Global,
    text: &mut String,
    ground: &Ground<'_>,
    k: usize,
) -> Result<(), AllocError>
    requires { k < ground.now.net.now.resources }
    ensures { OnOk result (string_bytes text.new ≡ string_bytes text.old ++ resource_text (told_by ground.now) k) }
{
    prove!(k < ground.net.resource_count());
    let title = escaped_resource(alloc, ground, k)?;
    push_resource_lines(text, k + 1, title.as_str(), number_at(ground.capacities, k))
}

/// What the resource at place `k` is called, as XML writes it.
fn escaped_resource(alloc: Global, ground: &Ground<'_>, k: usize) -> Result<String, AllocError>
    requires { k < ground.now.net.now.resources }
    ensures { IfOk result (λ title. string_bytes title ≡ escaped (resource_title ground.now.net.now ground.now.names.now k)) }
{
    let title = resource_title(alloc, ground.net, ground.names, k)?;
    escaped(alloc, title.as_str())
}

/// Adds a resource of which there are so many units.
#[tactic(auto, unfolding(crate::specs::MsProject::resource_lines))]
fn push_resource_lines(
    text: &mut String,
    uid: usize,
    title: &str,
    units: u32,
) -> Result<(), AllocError>
    ensures { OnOk result (string_bytes text.new ≡ string_bytes text.old ++ resource_lines uid title.now units) }
{
    write!(
        text,
        "  <Resource>\n   <UID>{uid}</UID>\n   <ID>{uid}</ID>\n   <Name>{title}</Name>\n   <Type>1</Type>\n   <IsNull>0</IsNull>\n   <MaxUnits>{units}.0</MaxUnits>\n   <CanLevel>1</CanLevel>\n   <StandardRate>0</StandardRate>\n   <CalendarUID>-1</CalendarUID>\n  </Resource>\n"
    )
}

/// Adds what tasks need of the resources, and the end.
#[tactic(auto, unfolding(crate::specs::MsProject::needs_text), using(crate::proofs::Pieces::in_three))]
fn push_needs(
    alloc: Global,
    text: &mut String,
    ground: &Ground<'_>,
    rows: &[Row<'_>],
) -> Result<(), AllocError>
    ensures { OnOk result (string_bytes text.new ≡ string_bytes text.old ++ needs_text (told_by ground.now) rows.now) }
{
    text.push_str(" <Assignments>\n")?;
    push_all_needs(alloc, text, ground, rows)?;
    text.push_str(" </Assignments>\n</Project>\n")?;
    Ok(())
}
