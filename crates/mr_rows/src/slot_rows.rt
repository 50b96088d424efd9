ghost use Rattle.std.specs.Prelude.{◌≡◌, refl};
ghost use Rattle.std.proofs.Common.{inl};
ghost use Rattle.mr_model.specs.Writes.{Id};
ghost use Rattle.mr_model.specs.Queries.{booking_id, error_id, cancelled_id};
ghost use Rattle.mr_tables.specs.TableOrders.{id_order};
ghost use Rattle.mr_rows.specs.Schema.{our_schema, IsOfTwo};
ghost use Rattle.mr_rows.specs.Form.{booking_form, error_form, cancelled_form};
ghost use Rattle.mr_rows.specs.MadeRows.{booking_row_of, error_of, cancelled_of, booking_made, error_made, cancelled_made};
ghost use Rattle.mr_rows.specs.OurTables.{booking_is, error_is, cancelled_is};

use crate::asked_rows::{AskedRow, AskedTexts};
use crate::columns::{Commit, Span, Time, Within};
use crate::stored_rows::{OurRow, RequestRow, RowTexts, StoredRow};
use mr_base::{Day, RoomName, Title, WriteId};
use mr_tables::{BookingRow, CancelledRow, ErrorRow};

/// The values of the columns that `booking`, `errorlog` and `cancelled` begin with.
type SlotParts = ((((RoomName, Day), Span), WriteId), Title);

impl StoredRow for BookingRow {
    ghost Key = { Id };

    ghost form = { booking_form };

    ghost stands_in = { IsOfTwo };

    type Parts = (SlotParts, bool);

    ghost of = { booking_row_of };

    fn texts() -> RowTexts {
        RowTexts {
            all: "SELECT room, day, start, stop, server, n, title, committed FROM booking",
            put: "INSERT OR REPLACE INTO booking (room, day, start, stop, server, n, title, committed) VALUES (?1, ?2, ?3, ?4, ?5, ?6, ?7, ?8)",
        }
    }

    fn of(parts: (SlotParts, bool)) -> BookingRow {
        let (((((room, day), span), id), title), committed) = parts;
        BookingRow {
            room,
            day,
            start: span.start,
            stop: span.stop,
            server: id.server,
            n: id.n,
            title,
            committed,
        }
    }

    fn parts(self) -> (SlotParts, bool) {
        let id = self.id();
        let (start, stop) = (self.start, self.stop);
        let span = Span { start, stop };
        (
            ((((self.room, self.day), span), id), self.title),
            self.committed,
        )
    }

    ghost made = { booking_made };

    ghost order = { id_order };

    ghost ordered = { λ a b. refl };
}

impl OurRow for BookingRow {
    ghost rows_of = { λ t. t.booking };

    ghost with_rows = { λ xs t. record t { booking = xs } };

    ghost is_ours = { booking_is };

    ghost stands = { inl refl };
}

impl RequestRow for BookingRow {
    ghost id_of = { booking_id };

    fn taking() -> &'static str {
        "DELETE FROM booking WHERE server = ?1 AND n = ?2"
    }
}

impl StoredRow for ErrorRow {
    ghost Key = { Id };

    ghost form = { error_form };

    ghost stands_in = { IsOfTwo };

    type Parts = ((SlotParts, Time), Commit);

    ghost of = { error_of };

    fn texts() -> RowTexts {
        RowTexts {
            all: "SELECT room, day, start, stop, server, n, title, tm, seq FROM errorlog",
            put: "INSERT OR REPLACE INTO errorlog (room, day, start, stop, server, n, title, tm, seq) VALUES (?1, ?2, ?3, ?4, ?5, ?6, ?7, ?8, ?9)",
        }
    }

    fn of(parts: ((SlotParts, Time), Commit)) -> ErrorRow {
        let ((((((room, day), span), id), title), time), seq) = parts;
        ErrorRow {
            room,
            day,
            start: span.start,
            stop: span.stop,
            server: id.server,
            n: id.n,
            title,
            time: time.0,
            seq: seq.0,
        }
    }

    fn parts(self) -> ((SlotParts, Time), Commit) {
        let id = self.id();
        let (start, stop) = (self.start, self.stop);
        let span = Span { start, stop };
        let slot = ((((self.room, self.day), span), id), self.title);
        ((slot, Within(self.time)), Within(self.seq))
    }

    ghost made = { error_made };

    ghost order = { id_order };

    ghost ordered = { λ a b. refl };
}

impl OurRow for ErrorRow {
    ghost rows_of = { λ t. t.errorlog };

    ghost with_rows = { λ xs t. record t { errorlog = xs } };

    ghost is_ours = { error_is };

    ghost stands = { inl refl };
}

impl RequestRow for ErrorRow {
    ghost id_of = { error_id };

    fn taking() -> &'static str {
        "DELETE FROM errorlog WHERE server = ?1 AND n = ?2"
    }
}

impl StoredRow for CancelledRow {
    ghost Key = { Id };

    ghost form = { cancelled_form };

    ghost stands_in = { λ under. under ≡ our_schema };

    type Parts = ((SlotParts, bool), WriteId);

    ghost of = { cancelled_of };

    fn texts() -> RowTexts {
        RowTexts {
            all: "SELECT room, day, start, stop, server, n, title, committed, bserver, bn FROM cancelled",
            put: "INSERT OR REPLACE INTO cancelled (room, day, start, stop, server, n, title, committed, bserver, bn) VALUES (?1, ?2, ?3, ?4, ?5, ?6, ?7, ?8, ?9, ?10)",
        }
    }

    fn of(parts: ((SlotParts, bool), WriteId)) -> CancelledRow {
        let (booking, by) = parts;
        let booking = BookingRow::of(booking);
        CancelledRow { booking, by }
    }

    fn parts(self) -> ((SlotParts, bool), WriteId) {
        (self.booking.parts(), self.by)
    }

    ghost made = { cancelled_made };

    ghost order = { id_order };

    ghost ordered = { λ a b. refl };
}

impl OurRow for CancelledRow {
    ghost rows_of = { λ t. t.cancelled };

    ghost with_rows = { λ xs t. record t { cancelled = xs } };

    ghost is_ours = { cancelled_is };

    ghost stands = { refl };
}

impl RequestRow for CancelledRow {
    ghost id_of = { cancelled_id };

    fn taking() -> &'static str {
        "DELETE FROM cancelled WHERE server = ?1 AND n = ?2"
    }
}

impl AskedRow for BookingRow {
    ghost room_of = { λ row. row.room };

    ghost id_of = { booking_id };

    fn asked() -> AskedTexts {
        AskedTexts {
            of_room: "SELECT room, day, start, stop, server, n, title, committed FROM booking WHERE room = ?1",
            of_id: "SELECT room, day, start, stop, server, n, title, committed FROM booking WHERE server = ?1 AND n = ?2",
        }
    }

    ghost by_id = { λ stored. refl };
}

impl AskedRow for ErrorRow {
    ghost room_of = { λ row. row.room };

    ghost id_of = { error_id };

    fn asked() -> AskedTexts {
        AskedTexts {
            of_room: "SELECT room, day, start, stop, server, n, title, tm, seq FROM errorlog WHERE room = ?1",
            of_id: "SELECT room, day, start, stop, server, n, title, tm, seq FROM errorlog WHERE server = ?1 AND n = ?2",
        }
    }

    ghost by_id = { λ stored. refl };
}

impl AskedRow for CancelledRow {
    ghost room_of = { λ row. row.room };

    ghost id_of = { cancelled_id };

    fn asked() -> AskedTexts {
        AskedTexts {
            of_room: "SELECT room, day, start, stop, server, n, title, committed, bserver, bn FROM cancelled WHERE room = ?1",
            of_id: "SELECT room, day, start, stop, server, n, title, committed, bserver, bn FROM cancelled WHERE server = ?1 AND n = ?2",
        }
    }

    ghost by_id = { λ stored. refl };
}
