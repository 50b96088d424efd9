ghost use Rattle.std.specs.Prelude.{◌≡◌, OnOk, OnErr};
ghost use Rattle.mr_replica.specs.Writes.{changed_rows, rows_of, rows_settled, AreAllFresh, AreAllSteps, AreNone};

use crate::indexed::Indexed;
use crate::journal::{Journal, settle, take_back};
use mr_tables::{BookingRow, CancelRow, CancelledRow, Change, ErrorRow, LogRow};
use std::alloc::{AllocError, Global};

/// The tables of writes.
#[derive(Drop)]
pub(crate) struct Writes {
    pub log: Indexed<LogRow>,
    pub booking: Indexed<BookingRow>,
    pub errorlog: Indexed<ErrorRow>,
    pub cancelled: Indexed<CancelledRow>,
    pub cancels: Indexed<CancelRow>,
}

/// What a change has done to each of them so far.
#[derive(Drop)]
struct Journals {
    log: Journal<LogRow>,
    booking: Journal<BookingRow>,
    errorlog: Journal<ErrorRow>,
    cancelled: Journal<CancelledRow>,
    cancels: Journal<CancelRow>,
}

impl Writes {
    /// No rows.
    pub(crate) fn new(alloc: Global) -> Writes
        ensures { AreNone result }
    {
        Writes {
            log: Indexed::new(alloc),
            booking: Indexed::new(alloc),
            errorlog: Indexed::new(alloc),
            cancelled: Indexed::new(alloc),
            cancels: Indexed::new(alloc),
        }
    }

    /// Makes the whole change in these tables, or nothing.
    pub(crate) fn apply(&mut self, alloc: Global, change: &Change) -> Result<(), AllocError>
        ensures changed { OnOk result (rows_of self.new ≡ changed_rows change.now (rows_of self.old)) }
        ensures refused { OnErr result (rows_of self.new ≡ rows_of self.old) }
    {
        let mut journals = Journals {
            log: Journal::new(alloc),
            booking: Journal::new(alloc),
            errorlog: Journal::new(alloc),
            cancelled: Journal::new(alloc),
            cancels: Journal::new(alloc),
        };
        match self.put(change, &mut journals) {
            Ok(()) => {
                self.settle(journals);
                Ok(())
            }
            Err(AllocError) => {
                self.take_back(journals, change);
                Err(AllocError)
            }
        }
    }

    fn put(&mut self, change: &Change, journals: &mut Journals) -> Result<(), AllocError>
        requires { AreAllFresh journals.old }
        ensures steps { AreAllSteps journals.new self.old self.new }
        ensures made { OnOk result (rows_settled journals.new (rows_of self.new) ≡ changed_rows change.now (rows_of self.old)) }
    {
        journals
            .log
            .put_all(&mut self.log, &change.dropped, &change.log)?;
        journals
            .booking
            .put_all(&mut self.booking, &change.unbooked, &change.booking)?;
        journals
            .errorlog
            .put_all(&mut self.errorlog, &change.unlogged, &change.errorlog)?;
        journals.cancelled.put_all(&mut self.cancelled, &change.uncancelled, &change.cancelled)?;
        journals
            .cancels
            .put_all(&mut self.cancels, &[], &change.cancels)
    }

    fn take_back(&mut self, journals: Journals, change: &Change)
        ensures { (before : Writes) → AreAllSteps journals before self.old → rows_of self.new ≡ rows_of before }
    {
        take_back(&mut self.log, journals.log, &change.log);
        take_back(&mut self.booking, journals.booking, &change.booking);
        take_back(&mut self.errorlog, journals.errorlog, &change.errorlog);
        take_back(&mut self.cancelled, journals.cancelled, &change.cancelled);
        take_back(&mut self.cancels, journals.cancels, &change.cancels);
    }

    fn settle(&mut self, journals: Journals)
        ensures { rows_of self.new ≡ rows_settled journals (rows_of self.old) }
    {
        settle(&mut self.log, journals.log);
        settle(&mut self.booking, journals.booking);
        settle(&mut self.errorlog, journals.errorlog);
        settle(&mut self.cancelled, journals.cancelled);
        settle(&mut self.cancels, journals.cancels);
    }
}
