ghost use Rattle.std.specs.Prelude.{◌≡◌, Ok};
ghost use Rattle.mr_model.specs.Queries.{cancelled_id, cancel_id};
ghost use Rattle.mr_base.specs.Answers.{OrOutOfMemory};

use crate::BookingRow;
use mr_base::{Refusal, RoomName, ServerId, WriteId};
use std::alloc::Global;
use std::marker::Model;

/// A row of `cancelled`: the row of a booking as it stood until a cancel took it back, and the id of that cancel.
#[derive(Debug, Drop)]
pub struct CancelledRow {
    pub booking: BookingRow,
    pub by: WriteId,
}

impl Model for CancelledRow {
    ghost use Rattle.mr_model.specs.Tables as tables;

    ghost Value = { tables.CancelledRow };

    ghost view = { λ r. tables.taken_back r.by r.booking };
}

impl CancelledRow {
    /// The id of the booking.
    pub fn id(&self) -> WriteId
        ensures { result ≡ cancelled_id self.now }
    {
        self.booking.id()
    }

    /// An equal row.
    pub fn copy(&self, alloc: Global) -> Result<CancelledRow, Refusal>
        ensures { OrOutOfMemory result (Ok self.now) }
    {
        let booking = self.booking.copy(alloc)?;
        Ok(CancelledRow {
            booking,
            by: self.by,
        })
    }
}

/// A row of `cancels`: a cancel, and whether it took its target back. `seq` is its commit number, 0 if it is tentative.
#[derive(Debug, Drop)]
pub struct CancelRow {
    pub server: ServerId,
    pub n: u32,
    pub room: RoomName,
    pub target: WriteId,
    pub done: bool,
    pub time: u64,
    pub seq: u64,
}

impl Model for CancelRow {
    ghost use Rattle.std.specs.Prelude.{IsTrue};
    ghost use Rattle.mr_model.specs.Tables as tables;
    ghost use Rattle.mr_model.specs.Writes.{is_count};

    ghost Value = { tables.CancelRow };

    ghost view = { λ r. record {
      server = r.server;
      n = r.n;
      room = r.room;
      target = r.target;
      done = r.done;
      time = r.time;
      seq = r.seq;
    } };

    ghost invariant = { λ r. IsTrue (is_count r.n) };
}

impl CancelRow {
    /// The id of the cancel.
    pub fn id(&self) -> WriteId
        ensures { result ≡ cancel_id self.now }
    {
        let (server, n) = (self.server, self.n);
        // For the prover alone: a server is from 1 to 99.
        server.number();
        WriteId { server, n }
    }

    /// An equal row.
    pub fn copy(&self, alloc: Global) -> Result<CancelRow, Refusal>
        ensures { OrOutOfMemory result (Ok self.now) }
    {
        let room = self.room.copy(alloc)?;
        Ok(CancelRow {
            server: self.server,
            n: self.n,
            room,
            target: self.target,
            done: self.done,
            time: self.time,
            seq: self.seq,
        })
    }
}
