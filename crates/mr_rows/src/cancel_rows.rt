ghost use Rattle.std.specs.Prelude.{◌≡◌, refl};
ghost use Rattle.mr_model.specs.Writes.{Id};
ghost use Rattle.mr_model.specs.Queries.{cancel_id};
ghost use Rattle.mr_tables.specs.TableOrders.{id_order};
ghost use Rattle.mr_rows.specs.Schema.{our_schema};
ghost use Rattle.mr_rows.specs.MadeRows.{cancel_row_of, cancel_made};
ghost use Rattle.mr_rows.specs.Form.{cancel_form};
ghost use Rattle.mr_rows.specs.OurTables.{cancel_is};

use crate::asked_rows::{AskedRow, AskedTexts};
use crate::columns::{Commit, Time, Within};
use crate::stored_rows::{OurRow, RowTexts, StoredRow};
use mr_base::{RoomName, WriteId};
use mr_tables::CancelRow;

impl StoredRow for CancelRow {
    ghost Key = { Id };

    ghost form = { cancel_form };

    ghost stands_in = { λ under. under ≡ our_schema };

    type Parts = (((((WriteId, RoomName), WriteId), bool), Time), Commit);

    ghost of = { cancel_row_of };

    fn texts() -> RowTexts {
        RowTexts {
            all: "SELECT server, n, room, tserver, tn, done, tm, seq FROM cancel",
            put: "INSERT OR REPLACE INTO cancel (server, n, room, tserver, tn, done, tm, seq) VALUES (?1, ?2, ?3, ?4, ?5, ?6, ?7, ?8)",
        }
    }

    fn of(parts: Self::Parts) -> CancelRow {
        let (((((id, room), target), done), time), seq) = parts;
        CancelRow {
            server: id.server,
            n: id.n,
            room,
            target,
            done,
            time: time.0,
            seq: seq.0,
        }
    }

    fn parts(self) -> Self::Parts {
        let key = ((self.id(), self.room), self.target);
        (((key, self.done), Within(self.time)), Within(self.seq))
    }

    ghost made = { cancel_made };

    ghost order = { id_order };

    ghost ordered = { λ a b. refl };
}

impl OurRow for CancelRow {
    ghost rows_of = { λ t. t.cancels };

    ghost with_rows = { λ xs t. record t { cancels = xs } };

    ghost is_ours = { cancel_is };

    ghost stands = { refl };
}

impl AskedRow for CancelRow {
    ghost room_of = { λ row. row.room };

    ghost id_of = { cancel_id };

    fn asked() -> AskedTexts {
        AskedTexts {
            of_room: "SELECT server, n, room, tserver, tn, done, tm, seq FROM cancel WHERE room = ?1",
            of_id: "SELECT server, n, room, tserver, tn, done, tm, seq FROM cancel WHERE server = ?1 AND n = ?2",
        }
    }

    ghost by_id = { λ stored. refl };
}
