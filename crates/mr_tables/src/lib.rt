//! Rows of the tables that stand for a replica, what a command changes in them, and what rows tell: writes, choices, counts, boards.
//! It stands on `mr_replay` and `mr_agree`; all that keeps or reads tables stands above it. README.md has lines of use, and what is proved.
#![tactic(auto)]

ghost use Rattle.mr_tables.specs.TableLaws.{RowsAreWithin, RowsTellTheBoard};

pub mod board_changes;
pub mod boards;
mod cancel_rows;
mod change;
pub mod choices;
mod log_rows;
pub mod numbers;
pub mod place_rows;
pub mod reading;
pub mod rooms;
mod rows;
pub mod summary;
pub mod table_row;
mod table_rows;
mod tables;
pub mod vector;
pub mod written;

pub use cancel_rows::{CancelRow, CancelledRow};
pub use change::Change;
pub use log_rows::{ActionCells, LogRow, MeetingCells};
pub use place_rows::PlaceRow;
pub use rows::{BookingRow, ErrorRow, MetaRow, VectorRow};
pub use table_row::{IdRow, TableRow};
pub use table_rows::is_id_before;
pub use tables::Tables;

/// The rows of a replica's tables, and no others, tell the board of its writes: what `board_with` makes of them holds, room by
/// room, what the replay of these writes gives.
pub fn board_law()
    ensures within { RowsAreWithin }
    ensures told { RowsTellTheBoard }
{}
