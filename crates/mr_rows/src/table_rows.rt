ghost use Rattle.std.specs.Prelude.{◌≡◌, ℕ, refl};
ghost use Rattle.std.proofs.Common.{inl};
ghost use Rattle.mr_model.specs.Texts.{Text};
ghost use Rattle.mr_tables.specs.TableOrders.{name_order, number_order};
ghost use Rattle.mr_rows.specs.Schema.{IsOfTwo};
ghost use Rattle.mr_rows.specs.MadeRows.{vector_of, room_made, vector_made};
ghost use Rattle.mr_rows.specs.Form.{room_form, vector_form};
ghost use Rattle.mr_rows.specs.OurTables.{room_is, vector_is};

use crate::columns::{Counted, Time, Within};
use crate::stored_rows::{OurRow, RowTexts, StoredRow};
use mr_base::{RoomName, ServerId};
use mr_tables::VectorRow;

impl StoredRow for RoomName {
    ghost Key = { Text };

    ghost form = { room_form };

    ghost stands_in = { IsOfTwo };

    type Parts = RoomName;

    ghost of = { λ name. name };

    fn texts() -> RowTexts {
        RowTexts {
            all: "SELECT name FROM room",
            put: "INSERT OR REPLACE INTO room (name) VALUES (?1)",
        }
    }

    fn of(parts: RoomName) -> RoomName {
        parts
    }

    fn parts(self) -> RoomName {
        self
    }

    ghost made = { room_made };

    ghost order = { name_order };

    ghost ordered = { λ a b. refl };
}

impl OurRow for RoomName {
    ghost rows_of = { λ t. t.room };

    ghost with_rows = { λ xs t. record t { room = xs } };

    ghost is_ours = { room_is };

    ghost stands = { inl refl };
}

impl StoredRow for VectorRow {
    ghost Key = { ℕ };

    ghost form = { vector_form };

    ghost stands_in = { IsOfTwo };

    type Parts = (((ServerId, Counted<1>), Time), Counted<0>);

    ghost of = { vector_of };

    fn texts() -> RowTexts {
        RowTexts {
            all: "SELECT server, n, tm, committed FROM vector",
            put: "INSERT OR REPLACE INTO vector (server, n, tm, committed) VALUES (?1, ?2, ?3, ?4)",
        }
    }

    fn of(parts: (((ServerId, Counted<1>), Time), Counted<0>)) -> VectorRow {
        let (((server, count), time), committed) = parts;
        VectorRow {
            server,
            count: count.0,
            last_time: time.0,
            committed: committed.0,
        }
    }

    fn parts(self) -> Self::Parts {
        let id = (self.server, Counted(self.count));
        ((id, Within(self.last_time)), Counted(self.committed))
    }

    ghost made = { vector_made };

    ghost order = { number_order };

    ghost ordered = { λ a b. refl };
}

impl OurRow for VectorRow {
    ghost rows_of = { λ t. t.vector };

    ghost with_rows = { λ xs t. record t { vector = xs } };

    ghost is_ours = { vector_is };

    ghost stands = { inl refl };
}
