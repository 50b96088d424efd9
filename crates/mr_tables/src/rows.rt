ghost use Rattle.std.specs.Prelude.{◌≡◌, Ok};
ghost use Rattle.mr_model.specs.Replica.{opening};
ghost use Rattle.mr_model.specs.Tables.{tables_of};
ghost use Rattle.mr_model.specs.Queries.{booking_id, error_id};
ghost use Rattle.mr_base.specs.Answers.{OrOutOfMemory};

use mr_base::{Day, Refusal, RoomName, ServerId, Title, WriteId};
use std::alloc::Global;
use std::marker::Model;

/// The one row of `meta`: the replica's server and its primary, how many commits there are and how many of them are dropped,
/// and the greatest time known.
#[derive(Clone, Copy, Debug)]
pub struct MetaRow {
    pub server: ServerId,
    pub primary: ServerId,
    pub commits: u64,
    pub dropped: u64,
    pub clock: u64,
}

impl Model for MetaRow {
    ghost use Rattle.mr_model.specs.Tables as tables;

    ghost Value = { tables.MetaRow };

    ghost view = { λ r. record {
      server = r.server;
      primary = r.primary;
      commits = r.commits;
      dropped = r.dropped;
      clock = r.clock;
    } };

    ghost inverse = { λ v. record {
      server = v.server;
      primary = v.primary;
      commits = v.commits;
      dropped = v.dropped;
      clock = v.clock;
    } };
}

impl MetaRow {
    /// An equal row. It takes no memory.
    pub fn copy(&self, _alloc: Global) -> Result<MetaRow, Refusal>
        ensures { result ≡ Ok self.now }
    {
        Ok(*self)
    }

    /// The row of a replica that knows nothing yet.
    pub fn opening(server: ServerId, primary: ServerId) -> MetaRow
        ensures { result ≡ (tables_of (opening server primary)).meta }
    {
        MetaRow {
            server,
            primary,
            commits: 0,
            dropped: 0,
            clock: 0,
        }
    }
}

/// A row of `vector`: how many writes of a server are known, the time of the last, and how many are committed.
#[derive(Clone, Copy, Debug)]
pub struct VectorRow {
    pub server: ServerId,
    pub count: u32,
    pub last_time: u64,
    pub committed: u32,
}

impl Model for VectorRow {
    ghost use Rattle.mr_model.specs.Tables as tables;

    ghost Value = { tables.VectorRow };

    ghost view = { λ r. record {
      server = r.server;
      count = r.count;
      last_time = r.last_time;
      committed = r.committed;
    } };

    ghost inverse = { λ v. record {
      server = v.server;
      count = v.count;
      last_time = v.last_time;
      committed = v.committed;
    } };
}

impl VectorRow {
    /// An equal row. It takes no memory.
    pub fn copy(&self, _alloc: Global) -> Result<VectorRow, Refusal>
        ensures { result ≡ Ok self.now }
    {
        Ok(*self)
    }
}

/// A row of `booking`: a booking that stands. `start` and `stop` are minutes of the day, from 0 to 1440.
#[derive(Debug, Drop)]
pub struct BookingRow {
    pub room: RoomName,
    pub day: Day,
    pub start: u32,
    pub stop: u32,
    pub server: ServerId,
    pub n: u32,
    pub title: Title,
    pub committed: bool,
}

impl Model for BookingRow {
    ghost use Rattle.std.specs.Prelude.{◌≤◌, IsTrue};
    ghost use Rattle.mr_model.specs.Tables as tables;
    ghost use Rattle.mr_model.specs.Writes.{is_count};

    ghost Value = { tables.BookingRow };

    ghost view = { λ r. record {
      room = r.room;
      day = r.day;
      start = r.start;
      stop = r.stop;
      server = r.server;
      n = r.n;
      title = r.title;
      committed = r.committed;
    } };

    ghost invariant = { λ r. (r.start ≤ 1440) × (r.stop ≤ 1440) × IsTrue (is_count r.n) };
}

impl BookingRow {
    /// The id of the booking.
    pub fn id(&self) -> WriteId
        ensures { result ≡ booking_id self.now }
    {
        let (server, n) = (self.server, self.n);
        // For the prover alone: a server is from 1 to 99.
        server.number();
        WriteId { server, n }
    }

    /// An equal row.
    pub fn copy(&self, alloc: Global) -> Result<BookingRow, Refusal>
        ensures { OrOutOfMemory result (Ok self.now) }
    {
        let room = self.room.copy(alloc)?;
        let title = self.title.copy(alloc)?;
        Ok(BookingRow {
            room,
            day: self.day,
            start: self.start,
            stop: self.stop,
            server: self.server,
            n: self.n,
            title,
            committed: self.committed,
        })
    }
}

/// A row of `errorlog`: a request that found no free choice, with its wished slot. `start` and `stop` are minutes of the day,
/// `seq` is the commit number, 0 if the request is tentative.
#[derive(Debug, Drop)]
pub struct ErrorRow {
    pub room: RoomName,
    pub day: Day,
    pub start: u32,
    pub stop: u32,
    pub server: ServerId,
    pub n: u32,
    pub title: Title,
    pub time: u64,
    pub seq: u64,
}

impl Model for ErrorRow {
    ghost use Rattle.std.specs.Prelude.{◌≤◌, IsTrue};
    ghost use Rattle.mr_model.specs.Tables as tables;
    ghost use Rattle.mr_model.specs.Writes.{is_count};

    ghost Value = { tables.ErrorRow };

    ghost view = { λ r. record {
      room = r.room;
      day = r.day;
      start = r.start;
      stop = r.stop;
      server = r.server;
      n = r.n;
      title = r.title;
      time = r.time;
      seq = r.seq;
    } };

    ghost invariant = { λ r. (r.start ≤ 1440) × (r.stop ≤ 1440) × IsTrue (is_count r.n) };
}

impl ErrorRow {
    /// The id of the request.
    pub fn id(&self) -> WriteId
        ensures { result ≡ error_id self.now }
    {
        let (server, n) = (self.server, self.n);
        // For the prover alone: a server is from 1 to 99.
        server.number();
        WriteId { server, n }
    }

    /// An equal row.
    pub fn copy(&self, alloc: Global) -> Result<ErrorRow, Refusal>
        ensures { OrOutOfMemory result (Ok self.now) }
    {
        let room = self.room.copy(alloc)?;
        let title = self.title.copy(alloc)?;
        let (time, seq) = (self.time, self.seq);
        Ok(ErrorRow {
            room,
            day: self.day,
            start: self.start,
            stop: self.stop,
            server: self.server,
            n: self.n,
            title,
            time,
            seq,
        })
    }
}
