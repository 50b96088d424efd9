ghost use Rattle.std.specs.Prelude.{◌≡◌, IfSome};
ghost use Rattle.mr_model.specs.Tables.{Tables as RowsOfTables};
ghost use Rattle.mr_part.specs.ScopeOf.{scope_of};
ghost use Rattle.mr_tables.specs.BoardChanges.{HaveOneRowEach};
ghost use Rattle.mr_tables.specs.Boards.{board_of};
ghost use Rattle.mr_tables.specs.Change.{changed};
ghost use Rattle.mr_replica.specs.Needed.{is_of_rooms};

use mr_part::Scope;
use mr_replay::Board;
use mr_tables::board_changes::{BoardTables, change_board};
use mr_tables::boards::board_with;
use mr_tables::{Change, Tables};
use std::alloc::Global;
use std::rc::Rc;

/// The board that these tables tell, if none of their rows is out of the limits and memory takes it.
pub(crate) fn shared_board(alloc: Global, tables: &Tables) -> Option<Rc<Board>>
    ensures { IfSome result (λ board. board.value ≡ board_of tables.now) }
{
    let board = board_with(alloc, tables).ok()?;
    Rc::new(alloc, board).ok()
}

/// The board of the tables from before the change, as they tell it after the change. There is none any more if a row is out of the
/// limits, without memory, and if somebody else still has the board.
pub(crate) fn board_after<T: BoardTables>(
    alloc: Global,
    board: Option<Rc<Board>>,
    change: &Change,
    tables: &T,
) -> Option<Rc<Board>>
    ensures { (before : RowsOfTables) → IfSome board (λ b. b.value ≡ board_of before) → T.tables tables.now ≡ changed change.now before → HaveOneRowEach (T.tables tables.now)
        → IfSome result (λ after. after.value ≡ board_of (T.tables tables.now)) }
{
    let mut board = Rc::try_unwrap(board?).ok()?;
    change_board(&mut board, alloc, change, tables).ok()?;
    Rc::new(alloc, board).ok()
}

/// Whether the scope has the bookings of rooms.
pub(crate) fn is_of_rooms(scope: &Scope<'_>) -> bool
    ensures { result ≡ is_of_rooms (scope_of scope.now) }
{
    matches!(*scope, Scope::InRoom(_) | Scope::Items(_))
}
