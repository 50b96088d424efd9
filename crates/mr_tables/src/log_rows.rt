ghost use Rattle.std.specs.Prelude.{◌≡◌, Ok, IfOk, IfErr};
ghost use Rattle.mr_model.specs.Queries.{log_id};
ghost use Rattle.mr_base.specs.Answers.{OrOutOfMemory};
ghost use Rattle.mr_tables.specs.Cells.{action_cells};

use mr_base::{Refusal, RoomName, ServerId, Title, WriteId};
use mr_replay::Place;
use std::alloc::Global;
use std::marker::Model;

/// What a row of `log` has of a meeting. `choices` is `<day> <HH:MM>` for the wish and each alternative, parted by one space.
#[derive(Debug, Drop)]
pub struct MeetingCells {
    pub length: u32,
    pub choices: String,
    pub title: Title,
}

impl Model for MeetingCells {
    ghost use Rattle.std.specs.String.{string_bytes};
    ghost use Rattle.mr_model.specs.Tables as tables;

    ghost Value = { tables.MeetingCells };

    ghost view = { λ c. record { length = c.length; choices = string_bytes c.choices; title = c.title } };
}

impl MeetingCells {
    /// Equal cells.
    pub fn copy(&self, alloc: Global) -> Result<MeetingCells, Refusal>
        ensures { OrOutOfMemory result (Ok self.now) }
    {
        let choices = String::from_str(alloc, self.choices.as_str())?;
        let title = self.title.copy(alloc)?;
        Ok(MeetingCells {
            length: self.length,
            choices,
            title,
        })
    }
}

/// What a row of `log` has of a write: the meeting that it books, or the id of the booking that it takes back.
#[derive(Debug, Drop)]
pub enum ActionCells {
    OfMeeting(MeetingCells),
    OfCancel(WriteId),
}

impl ActionCells {
    /// Equal cells.
    pub fn copy(&self, alloc: Global) -> Result<ActionCells, Refusal>
        ensures ok { IfOk result (λ copied. action_cells copied ≡ action_cells self.now) }
        ensures only { IfErr result (λ e. e ≡ Refusal.OutOfMemory) }
    {
        match self {
            ActionCells::OfMeeting(cells) => Ok(ActionCells::OfMeeting(cells.copy(alloc)?)),
            ActionCells::OfCancel(target) => Ok(ActionCells::OfCancel(*target)),
        }
    }
}

/// A row of `log`: a kept write with the place that it has. `seq` is its commit number, 0 if it is tentative.
#[derive(Debug, Drop)]
pub struct LogRow {
    pub server: ServerId,
    pub n: u32,
    pub time: u64,
    pub room: RoomName,
    pub action: ActionCells,
    pub place: Place,
    pub seq: u64,
}

impl Model for LogRow {
    ghost use Rattle.std.specs.Prelude.{IsTrue};
    ghost use Rattle.mr_model.specs.Tables as tables;
    ghost use Rattle.mr_model.specs.Writes.{is_count};
    ghost use Rattle.mr_replay.specs.Places.{place_seen};
    ghost use Rattle.mr_tables.specs.Cells.{action_cells};

    ghost Value = { tables.LogRow };

    ghost view = { λ r. record {
      server = r.server;
      n = r.n;
      time = r.time;
      room = r.room;
      action = action_cells r.action;
      place = place_seen r.place;
      seq = r.seq;
    } };

    ghost invariant = { λ r. IsTrue (is_count r.n) };
}

impl LogRow {
    /// The id of the write.
    pub fn id(&self) -> WriteId
        ensures { result ≡ log_id self.now }
    {
        let (server, n) = (self.server, self.n);
        // For the prover alone: a server is from 1 to 99.
        server.number();
        WriteId { server, n }
    }

    /// An equal row.
    pub fn copy(&self, alloc: Global) -> Result<LogRow, Refusal>
        ensures { OrOutOfMemory result (Ok self.now) }
    {
        let room = self.room.copy(alloc)?;
        let action = self.action.copy(alloc)?;
        Ok(LogRow {
            server: self.server,
            n: self.n,
            time: self.time,
            room,
            action,
            place: self.place,
            seq: self.seq,
        })
    }
}
