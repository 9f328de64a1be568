//! The first minimal delaying alternative with some jobs that go.

ghost use Rattle.std.specs.Prelude.{IfOk, IsErrOf, IsTrue, All, length, slice_index};
ghost use Rattle.racp_model.specs.Project.{IsNumber};
ghost use Rattle.racp_delay.specs.Found.{AreWithin, IsAny, IsChoice, IsExtended};
ghost use Rattle.racp_delay.specs.Reach.{AreRows};

use crate::choosing::Choice;
use crate::delaying::some_have_room;
use crate::loads::are_within;
use crate::reach::{Divisors, reach};
use racp_model::{Stop, Unfound};

/// Extends `gone` to the first alternative, in lexicographic order, in which its jobs go, and of the undecided those
/// that have to. Answers whether there is one; else `gone` is as before.
#[cycle(extending)]
fn extend<S: Stop>(
    choice: &Choice,
    gone: &mut Vec<u32>,
    rows: &[Divisors],
    stop: &S,
) -> Result<bool, Unfound>
    requires choice { IsChoice choice.now }
    requires gone { All (IsNumber (length choice.now.net.now.jobs)) gone.old.items }
    requires rows { AreRows choice.now.net.now choice.now.undecided.now rows.now }
    ensures found { IfOk result (λ found. IsExtended choice.now.net.now choice.now.capacities.now
        (slice_index choice.now.kept) gone.old.items choice.now.undecided.now IsAny found gone.new.items) }
    ensures quiet { IsTrue (S.is_quiet stop.now) → IsErrOf result Unfound.Stopped → ⊥ }
{
    if stop.asked() {
        return Err(Unfound::Stopped);
    }
    let most = reach(choice, rows);
    if some_have_room(choice.net, choice.capacities, &most, gone) {
        return Ok(false);
    }
    if are_within(choice.net, choice.capacities, &choice.left) {
        return Ok(true);
    }
    branch(choice, gone, rows, stop)
}

/// Extends `gone` as `extend` does, for kept and undecided jobs that together exceed the capacities, so that one of the
/// undecided has to go.
#[cycle(extending)]
pub(crate) fn branch<S: Stop>(
    choice: &Choice,
    gone: &mut Vec<u32>,
    rows: &[Divisors],
    stop: &S,
) -> Result<bool, Unfound>
    requires choice { IsChoice choice.now }
    requires gone { All (IsNumber (length choice.now.net.now.jobs)) gone.old.items }
    requires rows { AreRows choice.now.net.now choice.now.undecided.now rows.now }
    requires over { AreWithin choice.now.net.now choice.now.capacities.now (slice_index choice.now.left) → ⊥ }
    ensures found { IfOk result (λ found. IsExtended choice.now.net.now choice.now.capacities.now
        (slice_index choice.now.kept) gone.old.items choice.now.undecided.now IsAny found gone.new.items) }
    ensures quiet { IsTrue (S.is_quiet stop.now) → IsErrOf result Unfound.Stopped → ⊥ }
{
    let Some((job, others)) = choice.undecided.split_first() else {
        return Ok(false);
    };
    gone.push(*job)?;
    let less = choice.where_goes(*job, others);
    if extend(&less, gone, rows, stop)? {
        return Ok(true);
    }
    gone.pop();
    let Some(more) = choice.where_stays(*job, others) else {
        return Ok(false);
    };
    branch(&more, gone, rows, stop)
}
