ghost use Rattle.std.specs.Prelude.{◌≡◌, refl};
ghost use Rattle.mr_model.specs.Writes.{Id};
ghost use Rattle.mr_model.specs.Queries.{log_id};
ghost use Rattle.mr_tables.specs.TableOrders.{id_order};
ghost use Rattle.mr_rows.specs.Schema.{our_schema};
ghost use Rattle.mr_rows.specs.MadeRows.{log_of, log_made};
ghost use Rattle.mr_rows.specs.Form.{log_form};
ghost use Rattle.mr_rows.specs.OurTables.{log_is};

use crate::actions::Logged;
use crate::columns::{Commit, Time, Within};
use crate::stored_rows::{OurRow, RequestRow, RowTexts, StoredRow};
use mr_base::{RoomName, WriteId};
use mr_tables::LogRow;

impl StoredRow for LogRow {
    ghost Key = { Id };

    ghost form = { log_form };

    ghost stands_in = { λ under. under ≡ our_schema };

    type Parts = ((((WriteId, Time), RoomName), Logged), Commit);

    ghost of = { log_of };

    fn texts() -> RowTexts {
        RowTexts {
            all: "SELECT server, n, tm, room, kind, length, choices, title, tserver, tn, place, seq FROM log",
            put: "INSERT OR REPLACE INTO log (server, n, tm, room, kind, length, choices, title, tserver, tn, place, seq) VALUES (?1, ?2, ?3, ?4, ?5, ?6, ?7, ?8, ?9, ?10, ?11, ?12)",
        }
    }

    fn of(parts: Self::Parts) -> LogRow {
        let ((((id, time), room), logged), seq) = parts;
        LogRow {
            server: id.server,
            n: id.n,
            time: time.0,
            room,
            action: logged.action,
            place: logged.place,
            seq: seq.0,
        }
    }

    fn parts(self) -> Self::Parts {
        let key = ((self.id(), Within(self.time)), self.room);
        let (action, place) = (self.action, self.place);
        ((key, Logged { action, place }), Within(self.seq))
    }

    ghost made = { log_made };

    ghost order = { id_order };

    ghost ordered = { λ a b. refl };
}

impl OurRow for LogRow {
    ghost rows_of = { λ t. t.log };

    ghost with_rows = { λ xs t. record t { log = xs } };

    ghost is_ours = { log_is };

    ghost stands = { refl };
}

impl RequestRow for LogRow {
    ghost id_of = { log_id };

    fn taking() -> &'static str {
        "DELETE FROM log WHERE server = ?1 AND n = ?2"
    }
}
