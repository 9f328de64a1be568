//! A row that is done.

ghost use Rattle.std.specs.Prelude.{◌≡◌};
ghost use Rattle.racp_batch.specs.Places.{IsPlaced};
ghost use Rattle.racp_batch.specs.Rows.{MayBeOpen};

use crate::named::OfCases;
use crate::row::Row;
use std::marker::{Model, PhantomData};

/// A row that is right of the case at its place, from 0, of those that `T` names. Contracts see the place and the row.
#[derive(Drop)]
pub(crate) struct Done<T: OfCases> {
    place: usize,
    row: Row,
    of: PhantomData<T>,
}

impl<T: OfCases> Model for Done<T> {
    ghost use Rattle.racp_batch.specs.Places.{IsPlaced, Placed};
    ghost use Rattle.racp_batch.specs.Rows.{MayBeOpen};

    ghost Value = { Placed };

    ghost view = { λ d. record { place = d.place; row = d.row } };

    ghost invariant = { λ d. IsPlaced (MayBeOpen T.unlimited T.quiet) T.cases (record { place = d.place; row = d.row }) };
}

impl<T: OfCases> Done<T> {
    /// A row of the case at this place.
    pub(crate) fn of(place: usize, row: Row) -> Self
        requires { IsPlaced (MayBeOpen T.unlimited T.quiet) T.cases (record { place = place; row = row }) }
        ensures { result ≡ record { place = place; row = row } }
    {
        Done {
            place,
            row,
            of: PhantomData,
        }
    }

    /// The place, from 0.
    pub(crate) fn place(&self) -> usize
        ensures { result ≡ self.now.place }
    {
        self.place
    }

    /// The row.
    pub(crate) fn row(&self) -> &Row
        ensures row { result.now ≡ self.now.row }
        ensures right { IsPlaced (MayBeOpen T.unlimited T.quiet) T.cases self.now }
    {
        &self.row
    }
}
