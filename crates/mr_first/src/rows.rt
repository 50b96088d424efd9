ghost use Rattle.std.specs.Prelude.{◌≡◌};
ghost use Rattle.mr_first.specs.Forms.{write_id, undo_id};

use mr_base::{RoomName, ServerId, WriteId};
use mr_replay::Place;
use mr_tables::MeetingCells;
use std::marker::Model;

/// A row of `write_log`: a kept write, which is a booking. `seq` is its commit number, 0 if it is tentative.
#[derive(Debug, Drop)]
pub struct WriteRow {
    pub server: ServerId,
    pub n: u32,
    pub time: u64,
    pub room: RoomName,
    pub meeting: MeetingCells,
    pub seq: u64,
}

impl Model for WriteRow {
    ghost use Rattle.std.specs.Prelude.{IsTrue};
    ghost use Rattle.mr_model.specs.First as tables;
    ghost use Rattle.mr_model.specs.Writes.{is_count};

    ghost Value = { tables.WriteRow };

    ghost view = { λ r. record {
      server = r.server;
      n = r.n;
      time = r.time;
      room = r.room;
      length = r.meeting.length;
      choices = r.meeting.choices;
      title = r.meeting.title;
      seq = r.seq;
    } };

    ghost invariant = { λ r. IsTrue (is_count r.n) };
}

impl WriteRow {
    /// The server and the count of the row's write.
    pub fn id(&self) -> WriteId
        ensures { result ≡ write_id self.now }
    {
        let (server, n) = (self.server, self.n);
        // For the prover alone: a server is from 1 to 99.
        server.number();
        WriteId { server, n }
    }
}

/// A row of `undo`: the place of a kept write, the number of its choice or the error log.
#[derive(Clone, Copy, Debug)]
pub struct FirstUndoRow {
    pub server: ServerId,
    pub n: u32,
    pub place: Place,
}

impl Model for FirstUndoRow {
    ghost use Rattle.std.specs.Prelude.{IsTrue};
    ghost use Rattle.mr_model.specs.First as tables;
    ghost use Rattle.mr_model.specs.Writes.{is_count};
    ghost use Rattle.mr_replay.specs.Places.{place_seen, place_from};

    ghost Value = { tables.FirstUndoRow };

    ghost view = { λ r. record { server = r.server; n = r.n; place = place_seen r.place } };

    ghost invariant = { λ r. IsTrue (is_count r.n) };

    ghost inverse = { λ v. record { server = v.server; n = v.n; place = place_from v.place } };
}

impl FirstUndoRow {
    /// The server and the count of the row's write.
    pub fn id(&self) -> WriteId
        ensures { result ≡ undo_id self.now }
    {
        let (server, n) = (self.server, self.n);
        // For the prover alone: a server is from 1 to 99.
        server.number();
        WriteId { server, n }
    }
}
