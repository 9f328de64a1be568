//! What a page says of what was checked and of what is proved.

ghost use Rattle.std.specs.Prelude.{◌≡◌, ◌++◌, OnOk, string_bytes};
ghost use Rattle.racp_report.specs.Claims.{bound_text, checked_text, claim_element, least_text, most_text, saving_text, shown_text};

use std::alloc::AllocError;

/// What is shown of what a plan costs, beside that it can be carried out.
#[derive(Clone, Copy)]
pub enum Claim {
    /// Nothing: whether there is a cheaper plan was not looked at.
    Unknown,
    /// No capacities that are enough come before those of the plan, so none cost less.
    Cheapest,
    /// All capacities that are enough cost at least so much.
    AtLeast(u64),
}

/// Adds what was checked of a plan that costs so much, and what is shown of that cost.
pub(crate) fn push_claim(text: &mut String, cost: u64, claim: Claim) -> Result<(), AllocError>
    ensures { OnOk result (string_bytes text.new ≡ string_bytes text.old ++ claim_element cost claim) }
{
    push_checked(text)?;
    push_shown(text, cost, claim)?;
    text.push_str("</p>\n")?;
    Ok(())
}

/// Adds what was checked.
#[tactic(auto, unfolding(crate::specs::Claims::checked_text))]
fn push_checked(text: &mut String) -> Result<(), AllocError>
    ensures { OnOk result (string_bytes text.new ≡ string_bytes text.old ++ checked_text) }
{
    text.push_str(
        "<p>The plan was checked when this page was made: each task comes after those that it waits for and ends in \
         time, no resource is used beyond its units, and the cost is right. However many units there are, it takes at \
         least the critical length. ",
    )
}

/// Adds what is shown of the cost.
fn push_shown(text: &mut String, cost: u64, claim: Claim) -> Result<(), AllocError>
    ensures { OnOk result (string_bytes text.new ≡ string_bytes text.old ++ shown_text cost claim) }
{
    match claim {
        Claim::Unknown => text.push_str(
            "This page does not show whether a cheaper choice keeps the deadline; how to have that shown stands at its \
             end.",
        ),
        Claim::Cheapest => text.push_str(
            "<strong>Proved: no cheaper choice keeps the deadline.</strong> A certificate of that was checked, too.",
        ),
        Claim::AtLeast(least) => push_least(text, cost, least),
    }
}

/// Adds what each choice costs at least, and what can be saved at most.
fn push_least(text: &mut String, cost: u64, least: u64) -> Result<(), AllocError>
    ensures { OnOk result (string_bytes text.new ≡ string_bytes text.old ++ bound_text cost least) }
{
    push_bound(text, least)?;
    push_saving(text, cost, least)?;
    text.push_str(".</strong> A certificate of that was checked, too.")?;
    Ok(())
}

/// Adds what each choice costs at least.
#[tactic(auto, unfolding(crate::specs::Claims::least_text))]
fn push_bound(text: &mut String, least: u64) -> Result<(), AllocError>
    ensures { OnOk result (string_bytes text.new ≡ string_bytes text.old ++ least_text least) }
{
    write!(
        text,
        "<strong>Proved: each choice that keeps the deadline costs at least {least}"
    )
}

/// Adds what can be saved at most.
fn push_saving(text: &mut String, cost: u64, least: u64) -> Result<(), AllocError>
    ensures { OnOk result (string_bytes text.new ≡ string_bytes text.old ++ saving_text cost least) }
{
    if cost <= least {
        text.push_str(", so none is cheaper")
    } else {
        push_most(text, cost.saturating_sub(least))
    }
}

/// Adds how much can be saved at most.
#[tactic(auto, unfolding(crate::specs::Claims::most_text))]
fn push_most(text: &mut String, saved: u64) -> Result<(), AllocError>
    ensures { OnOk result (string_bytes text.new ≡ string_bytes text.old ++ most_text saved) }
{
    write!(text, ", so at most {saved} can be saved")
}
