//! Rows of bounds that share what they have in common.

ghost use Rattle.std.specs.Prelude.{◌≡◌, ◌≤◌, IfOk, IfSome, length};
ghost use Rattle.racp_trees.specs.Rows.{changed};

use crate::branch::copied;
use std::alloc::{AllocError, Global};
use std::marker::Model;
use std::rc::Rc;

/// The place of a bound that differs, and the bound.
#[derive(Clone, Copy, Drop)]
pub(crate) struct Change {
    pub(crate) place: u32,
    pub(crate) bound: u32,
}

/// A row of bounds: a whole row that others share, and the bounds that differ from it. Contracts see the bounds. Rows
/// that come one after another share a whole row as long as there is room: until the changes of all of them together
/// take as much memory as it.
#[derive(Drop)]
pub(crate) struct SharedRow {
    whole: Rc<Vec<u32>>,
    changes: Vec<Change>,
    room: usize,
}

impl Model for SharedRow {
    ghost use Rattle.std.specs.Prelude.{ℕ, List};
    ghost use Rattle.racp_trees.specs.Rows.{changed};

    ghost Value = { List ℕ };

    ghost view = { λ r. changed r.whole.value.items r.changes.items };
}

impl SharedRow {
    /// These bounds. They share a whole row if there is room for what differs, and are a whole row of their own else.
    pub(crate) fn new(
        alloc: Global,
        near: &Rc<Vec<u32>>,
        room: usize,
        bounds: Vec<u32>,
    ) -> Result<Self, AllocError>
        requires { length bounds.items ≤ 512 }
        ensures { IfOk result (λ row. row ≡ bounds.items) }
    {
        if let Some(changes) = changes_of(alloc, near, &bounds, room)? {
            let whole = near.clone()?;
            let room = room.saturating_sub(changes.len());
            return Ok(SharedRow {
                whole,
                changes,
                room,
            });
        }
        let room = bounds.len() / 2;
        let whole = Rc::new(alloc, bounds)?;
        let changes = Vec::new(alloc);
        Ok(SharedRow {
            whole,
            changes,
            room,
        })
    }

    /// The whole row that others may share.
    pub(crate) fn whole(&self) -> &Rc<Vec<u32>> {
        &self.whole
    }

    /// How many changes rows that come after it may have together.
    pub(crate) fn room(&self) -> usize {
        self.room
    }

    /// The bounds.
    pub(crate) fn bounds(&self, alloc: Global) -> Result<Vec<u32>, AllocError>
        ensures { IfOk result (λ bounds. bounds.items ≡ self.now) }
    {
        let mut bounds = copied(alloc, &self.whole)?;
        make_changes(&mut bounds, &self.changes);
        Ok(bounds)
    }
}

/// The changes that lead from some bounds to others, or `None` if there is no room for them.
fn changes_of(
    alloc: Global,
    from: &[u32],
    to: &[u32],
    room: usize,
) -> Result<Option<Vec<Change>>, AllocError>
    requires { length to.now ≤ 512 }
    ensures { IfOk result (λ found. IfSome found (λ changes. changed from.now changes.items ≡ to.now)) }
{
    let mut changes = Vec::new(alloc);
    if from.len() != to.len() {
        return Ok(None);
    }
    for i in 0..to.len() {
        if from[i] == to[i] {
            continue;
        }
        if room <= changes.len() {
            return Ok(None);
        }
        let place = i as u32;
        let bound = to[i];
        changes.push(Change { place, bound })?;
    }
    Ok(Some(changes))
}

/// Changes bounds.
fn make_changes(bounds: &mut [u32], changes: &[Change])
    ensures { bounds.new ≡ changed bounds.old changes.now }
{
    for k in 0..changes.len() {
        let place = changes[k].place as usize;
        if place < bounds.len() {
            bounds[place] = changes[k].bound;
        }
    }
}
