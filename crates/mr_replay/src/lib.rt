//! The board: the bookings and the error log of all rooms, on which writes are executed and undone.
//! It stands on `mr_base`; a part of a replica (`mr_part`) reads a board, and replays in an overlay over it. README.md has lines of use, and what is proved.
#![tactic(auto)]

mod board;
mod choice;
mod index;
mod marks;
mod overlay;
mod rows;
mod seen;
mod taken;

ghost use Rattle.mr_replay.specs.BoardLaws.{OneBoard, ExecutingHolds, UndoingHolds, AnotherOrderHolds, UndoIsExact, UndoInReverseIsExact, CancelsMark, OthersAreNew, UndoRowsAreOfTheList, UndoRowsAreOfTheRoom, PlacesAreOfTheBoard, RoomsExecuteApart};
ghost use Rattle.mr_replay.specs.Bookings.{BookingsReplay};

pub use board::Board;
pub use index::padded;
pub use overlay::Overlay;
pub use rows::{Place, Row, Standing, Trace, UndoRow};
pub use seen::SeenBoard;

/// A list of writes has one board. Executing writes leads from the board of a list to that of a longer one, undoing them
/// leads back, and undoing an execution gives just the board from before it. A cancel marks its target's row, and undoing it takes
/// the mark away.
pub fn board_law()
    ensures one { OneBoard }
    ensures executed { ExecutingHolds }
    ensures undone { UndoingHolds }
    ensures replaced { AnotherOrderHolds }
    ensures exact { UndoIsExact }
    ensures reverse { UndoInReverseIsExact }
    ensures cancels { CancelsMark }
    ensures new { OthersAreNew }
{}

/// What executing writes notes of them is what their list says: their ids, and the places that the replay gives them. So
/// executing a whole order and taking a room's places is replaying that room's part of it. On a board that has a room's
/// bookings, whatever others, replaying the room's last writes gives them these places too.
pub fn undo_row_law()
    ensures list { UndoRowsAreOfTheList }
    ensures room { UndoRowsAreOfTheRoom }
    ensures places { PlacesAreOfTheBoard }
    ensures apart { RoomsExecuteApart }
    ensures bookings { BookingsReplay }
{}
