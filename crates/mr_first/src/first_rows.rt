ghost use Rattle.std.proofs.Common.{inr};
ghost use Rattle.std.specs.Prelude.{◌≡◌, List, refl};
ghost use Rattle.mr_model.specs.First.{FirstTables};
ghost use Rattle.mr_rows.specs.Schema.{first_schema};
ghost use Rattle.mr_rows.specs.TableSteps.{IsTableOf};
ghost use Rattle.mr_first.specs.FirstDatabase.{AreHeldFirst, first_in};
ghost use Rattle.mr_first.specs.FirstTables.{first_room_is, first_vector_is, write_is, undo_is, first_booking_is, first_error_is};

use crate::rows::{FirstUndoRow, WriteRow};
use mr_base::RoomName;
use mr_rows::StoredRow;
use mr_tables::{BookingRow, ErrorRow, VectorRow};

/// A row of a table of the first schema.
pub trait FirstRow: StoredRow {
    ghost rows_of: { FirstTables → List Self };

    ghost with_rows: { List Self → FirstTables → FirstTables };

    ghost is_first: { IsTableOf AreHeldFirst first_in Self.StoredRow.form rows_of with_rows };

    ghost stands: { Self.StoredRow.stands_in first_schema };
}

impl FirstRow for RoomName {
    ghost rows_of = { λ t. t.room };

    ghost with_rows = { λ xs t. record t { room = xs } };

    ghost is_first = { first_room_is };

    ghost stands = { inr refl };
}

impl FirstRow for VectorRow {
    ghost rows_of = { λ t. t.vector };

    ghost with_rows = { λ xs t. record t { vector = xs } };

    ghost is_first = { first_vector_is };

    ghost stands = { inr refl };
}

impl FirstRow for WriteRow {
    ghost rows_of = { λ t. t.write_log };

    ghost with_rows = { λ xs t. record t { write_log = xs } };

    ghost is_first = { write_is };

    ghost stands = { refl };
}

impl FirstRow for FirstUndoRow {
    ghost rows_of = { λ t. t.undo };

    ghost with_rows = { λ xs t. record t { undo = xs } };

    ghost is_first = { undo_is };

    ghost stands = { refl };
}

impl FirstRow for BookingRow {
    ghost rows_of = { λ t. t.booking };

    ghost with_rows = { λ xs t. record t { booking = xs } };

    ghost is_first = { first_booking_is };

    ghost stands = { inr refl };
}

impl FirstRow for ErrorRow {
    ghost rows_of = { λ t. t.errorlog };

    ghost with_rows = { λ xs t. record t { errorlog = xs } };

    ghost is_first = { first_error_is };

    ghost stands = { inr refl };
}
