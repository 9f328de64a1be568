//! The rows are written.

ghost use Rattle.std.specs.Prelude.{◌≡◌, ℕ, List, Option, IfOk, OnOk};
ghost use Rattle.std.specs.Io.KnownBytes.{Appends};
ghost use Rattle.racp_batch.specs.Lines.{head_line, row_line};
ghost use Rattle.racp_batch.specs.Rows.{MayBeOpen};
ghost use Rattle.racp_batch.specs.Tables.{IsTold};

use crate::batch::{Batch, BatchFault};
use crate::board::Shared;
use crate::case::Case;
use crate::host::Host;
use crate::line::{head_line, row_line};
use crate::named::{OfCases, UserAsked};
use crate::row::Row;
use std::io::Write;
use std::marker::PhantomData;
use std::sync::Wait;
use std::thread;
use std::time::{Clock, Duration};

/// How many thousandths of a second lie between two looks at what is done: at first, and at most.
const SHORTEST: u64 = 1;

const LONGEST: u64 = 50;

/// Writes the first row.
pub(crate) fn write_head<W: Write>(batch: &Batch<'_>, out: &mut W) -> Result<(), BatchFault>
    ensures { OnOk result (Appends (W.contents out.old) (W.contents out.new) (head_line batch.now.calendar)) }
{
    let line = head_line(batch.alloc, batch.calendar)?;
    write_line(out, &line)
}

/// Writes the row of a case.
fn write_row<W: Write>(
    batch: &Batch<'_>,
    case: &Case<'_>,
    row: &Row,
    out: &mut W,
) -> Result<(), BatchFault>
    ensures { OnOk result (Appends (W.contents out.old) (W.contents out.new) (row_line batch.now.calendar case.now row.now)) }
{
    let line = row_line(batch.alloc, batch.calendar, case, row)?;
    write_line(out, &line)
}

/// Writes a line.
fn write_line<W: Write>(out: &mut W, line: &[u8]) -> Result<(), BatchFault>
    ensures { OnOk result (Appends (W.contents out.old) (W.contents out.new) line.now) }
{
    match out.write_all(line) {
        Ok(()) => Ok(()),
        Err(_) => Err(BatchFault::Write),
    }
}

/// Writes the rows from a place on that are done, up to the first that is not, and tells its place.
fn write_done<T: OfCases, H: Host, W: Write>(
    shared: &Shared<'_, T>,
    host: &H,
    from: usize,
    out: &mut W,
) -> Result<usize, BatchFault>
    requires { shared.now.batch.now.cases.now ≡ T.cases }
    ensures { (base : Option (List ℕ)) → IsTold shared.now.batch.now.calendar (MayBeOpen T.unlimited T.quiet) T.cases base (W.contents out.old) from →
        IfOk result (IsTold shared.now.batch.now.calendar (MayBeOpen T.unlimited T.quiet) T.cases base (W.contents out.new)) }
{
    let mut told = from;
    for place in from..shared.batch.cases.len() {
        let Some(done) = shared.row_at(place) else {
            return Ok(told);
        };
        let Some(case) = shared.batch.cases.get(place) else {
            return Ok(told);
        };
        write_row(shared.batch, case, done.row(), out)?;
        host.hear(case, done.row());
        told = place + 1;
    }
    Ok(told)
}

/// Writes each row as soon as all before it are written, until so many workers have ended, and tells how many there are.
pub(crate) fn write_rows<T: OfCases, H: Host, W: Write, R: Clock + Wait>(
    rt: &R,
    shared: &Shared<'_, T>,
    host: &H,
    workers: usize,
    out: &mut W,
) -> Result<usize, BatchFault>
    requires cases { shared.now.batch.now.cases.now ≡ T.cases }
    requires quiet { H.is_quiet host.now ≡ T.quiet }
    ensures { IfOk result (IsTold shared.now.batch.now.calendar (MayBeOpen T.unlimited T.quiet) T.cases (W.contents out.old) (W.contents out.new)) }
{
    let mut told = 0;
    let mut pause = SHORTEST;
    for _round in rt.forever() {
        let are_all_ended = workers <= shared.ended();
        let before = told;
        told = write_done(shared, host, told, out)?;
        if are_all_ended || told == shared.batch.cases.len() {
            return Ok(told);
        }
        if !shared.is_asked() && host.is_asked() {
            shared.note_asked(rt, UserAsked { of: PhantomData });
        }
        pause = pause_after(pause, before < told);
        thread::sleep(rt, Duration::from_millis(pause));
    }
    unreachable!()
}

/// How many thousandths of a second to wait after so many: the least again if a row was written.
fn pause_after(pause: u64, has_written: bool) -> u64 {
    if has_written {
        SHORTEST
    } else {
        pause.saturating_mul(2).min(LONGEST)
    }
}
