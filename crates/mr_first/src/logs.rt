ghost use Rattle.std.specs.Prelude.{◌≡◌, refl};
ghost use Rattle.mr_model.specs.Writes.{Id};
ghost use Rattle.mr_tables.specs.Change.{id_before};
ghost use Rattle.mr_tables.specs.TableOrders.{id_order};
ghost use Rattle.mr_rows.specs.Schema.{first_schema};
ghost use Rattle.mr_first.specs.FirstMadeRows.{write_row_of, first_undo_row_of, write_made, undo_made};
ghost use Rattle.mr_first.specs.Forms.{write_id, undo_id, write_form, undo_form};

use crate::cells::FirstPlace;
use crate::rows::{FirstUndoRow, WriteRow};
use mr_base::{RoomName, WriteId};
use mr_rows::columns::{Commit, Time, Within};
use mr_rows::{RowTexts, StoredRow};
use mr_tables::{MeetingCells, TableRow, is_id_before};
use std::alloc::{AllocError, Global};

impl TableRow for WriteRow {
    ghost Key = { Id };

    ghost key = { write_id };

    ghost before = { id_before };

    ghost order = { id_order };

    fn is_before(&self, other: &WriteRow) -> bool {
        is_id_before(self.id(), other.id())
    }

    fn copied(&self, alloc: Global) -> Result<WriteRow, AllocError> {
        match (self.room.copy(alloc), self.meeting.copy(alloc)) {
            (Ok(room), Ok(meeting)) => Ok(WriteRow {
                server: self.server,
                n: self.n,
                time: self.time,
                room,
                meeting,
                seq: self.seq,
            }),
            _ => Err(AllocError),
        }
    }
}

impl StoredRow for WriteRow {
    ghost Key = { Id };

    ghost form = { write_form };

    ghost stands_in = { λ under. under ≡ first_schema };

    type Parts = ((((WriteId, Time), RoomName), MeetingCells), Commit);

    ghost of = { write_row_of };

    fn texts() -> RowTexts {
        RowTexts {
            all: "SELECT server, n, tm, room, length, choices, title, seq FROM write_log",
            put: "INSERT OR REPLACE INTO write_log (server, n, tm, room, length, choices, title, seq) VALUES (?1, ?2, ?3, ?4, ?5, ?6, ?7, ?8)",
        }
    }

    fn of(parts: Self::Parts) -> WriteRow {
        let ((((id, time), room), meeting), seq) = parts;
        WriteRow {
            server: id.server,
            n: id.n,
            time: time.0,
            room,
            meeting,
            seq: seq.0,
        }
    }

    fn parts(self) -> Self::Parts {
        let key = ((self.id(), Within(self.time)), self.room);
        ((key, self.meeting), Within(self.seq))
    }

    ghost made = { write_made };

    ghost order = { id_order };

    ghost ordered = { λ a b. refl };
}

impl TableRow for FirstUndoRow {
    ghost Key = { Id };

    ghost key = { undo_id };

    ghost before = { id_before };

    ghost order = { id_order };

    fn is_before(&self, other: &FirstUndoRow) -> bool {
        is_id_before(self.id(), other.id())
    }

    fn copied(&self, _alloc: Global) -> Result<FirstUndoRow, AllocError> {
        Ok(*self)
    }
}

impl StoredRow for FirstUndoRow {
    ghost Key = { Id };

    ghost form = { undo_form };

    ghost stands_in = { λ under. under ≡ first_schema };

    type Parts = (WriteId, FirstPlace);

    ghost of = { first_undo_row_of };

    fn texts() -> RowTexts {
        RowTexts {
            all: "SELECT server, n, place FROM undo",
            put: "INSERT OR REPLACE INTO undo (server, n, place) VALUES (?1, ?2, ?3)",
        }
    }

    fn of(parts: Self::Parts) -> FirstUndoRow {
        let (id, place) = parts;
        FirstUndoRow {
            server: id.server,
            n: id.n,
            place: place.0,
        }
    }

    fn parts(self) -> Self::Parts {
        (self.id(), FirstPlace(self.place))
    }

    ghost made = { undo_made };

    ghost order = { id_order };

    ghost ordered = { λ a b. refl };
}
