//! What the threads of a batch share.

ghost use Rattle.std.specs.Prelude.{◌≡◌, false, IfSome, IfOk, IsTrue, is_none};
ghost use Rattle.racp_batch.specs.Places.{IsPlaced};
ghost use Rattle.racp_batch.specs.Rows.{MayBeOpen, is_open};

use crate::batch::Batch;
use crate::done::Done;
use crate::named::{OfCases, UserAsked};
use crate::planning::Planning;
use crate::row::Row;
use std::alloc::AllocError;
use std::sync::Wait;
use std::sync::atomic::{AtomicBool, AtomicUsize, Ordering};
use std::thread::Threads;
use std::time::Clock;

/// What the threads of a batch share: how cases are planned, the rows that are done, the place of the next case, how many
/// workers have ended, that the user has asked for a stop, whether all are to stop, and whether a row or a worker was lost
/// for want of memory.
#[derive(Drop)]
pub(crate) struct Shared<'a, T: OfCases> {
    pub(crate) batch: &'a Batch<'a>,
    planner: &'a Planning,
    rows: boxcar::Vec<Done<T>>,
    next: AtomicUsize,
    ended: AtomicUsize,
    asked: boxcar::Vec<UserAsked<T>>,
    is_halted: AtomicBool,
    is_lost: AtomicBool,
    ghost limited: { is_none planner.now.limit ≡ T.unlimited },
}

impl<'a, T: OfCases> Shared<'a, T> {
    /// Nothing is done.
    pub(crate) fn new(batch: &'a Batch<'a>, planner: &'a Planning) -> Result<Self, AllocError>
        requires { is_none planner.now.limit ≡ T.unlimited }
        ensures { IfOk result (λ shared. shared.batch ≡ batch.entry) }
    {
        Ok(Shared {
            batch,
            planner,
            rows: boxcar::Vec::new(batch.alloc)?,
            next: AtomicUsize::new(0),
            ended: AtomicUsize::new(0),
            asked: boxcar::Vec::new(batch.alloc)?,
            is_halted: AtomicBool::new(false),
            is_lost: AtomicBool::new(false),
        })
    }

    /// Lets all stop.
    pub(crate) fn halt(&self) {
        self.is_halted.store(true, Ordering::SeqCst);
    }

    /// Whether all are to stop.
    pub(crate) fn is_halted(&self) -> bool {
        self.is_halted.load(Ordering::SeqCst)
    }

    /// Notes that the user has asked for a stop, and lets all stop.
    pub(crate) fn note_asked<R: Wait>(&self, rt: &R, asked: UserAsked<T>) {
        if self.asked.push(rt, asked).is_err() {
            self.lose();
        }
        self.halt();
    }

    /// Whether the user has asked for a stop.
    pub(crate) fn is_asked(&self) -> bool
        ensures { IsTrue result → T.quiet ≡ false }
    {
        self.asked.get(0).is_some()
    }

    /// Whether a row may be told: one that leaves a plan open only if the time for it was limited, or the user has asked for
    /// a stop. Another one was stopped because rows can no longer be written.
    fn may_tell(&self, row: &Row) -> bool
        ensures { IsTrue result → IsTrue (is_open row.now) → MayBeOpen T.unlimited T.quiet }
    {
        !row.is_open() || self.planner.limit.is_some() || self.is_asked()
    }

    /// Notes that a row was lost, or a worker.
    pub(crate) fn lose(&self) {
        self.is_lost.store(true, Ordering::SeqCst);
    }

    /// Whether a row was lost, or a worker.
    pub(crate) fn is_lost(&self) -> bool {
        self.is_lost.load(Ordering::SeqCst)
    }

    /// How many workers have ended.
    pub(crate) fn ended(&self) -> usize {
        self.ended.load(Ordering::SeqCst)
    }

    /// The row of the case at a place, from 0, if it is done.
    pub(crate) fn row_at(&self, place: usize) -> Option<&Done<T>>
        ensures { IfSome result (λ done. done.now.place ≡ place) }
    {
        for k in 0..self.rows.count() {
            if let Some(done) = self.rows.get(k) {
                if done.place() == place {
                    return Some(done);
                }
            }
        }
        None
    }

    /// Plans cases, until none is left or all are to stop.
    pub(crate) fn work<R: Clock + Threads + Wait + Sync>(&self, rt: &R)
        requires { self.now.batch.now.cases.now ≡ T.cases }
    {
        for _ in 0..self.batch.cases.len() {
            if !self.plan_next(rt) {
                break;
            }
        }
        let _ = self.ended.fetch_add(1, Ordering::SeqCst);
    }

    /// Plans the next case, and says whether there may be another one.
    fn plan_next<R: Clock + Threads + Wait + Sync>(&self, rt: &R) -> bool
        requires { self.now.batch.now.cases.now ≡ T.cases }
    {
        if self.is_halted() {
            return false;
        }
        let place = self.next.fetch_add(1, Ordering::SeqCst);
        let Some(case) = self.batch.cases.get(place) else {
            return false;
        };
        let row = self.planner.row(rt, case, &self.is_halted);
        if !self.may_tell(&row) {
            return false;
        }
        if self.rows.push(rt, Done::of(place, row)).is_err() {
            self.lose();
            return false;
        }
        true
    }
}
