ghost use Rattle.std.specs.Prelude.{◌↔◌, IsTrue};
ghost use Rattle.mr_replica.specs.Ordered.{AreInOrder};

use mr_tables::Tables;
use mr_tables::table_row::is_in_order;

/// Whether the rows of each table are in the order of their keys.
pub(crate) fn are_in_order(tables: &Tables) -> bool
    ensures { IsTrue result ↔ AreInOrder tables.now }
{
    let room = is_in_order(&tables.room);
    let vector = is_in_order(&tables.vector);
    let log = is_in_order(&tables.log);
    let booking = is_in_order(&tables.booking);
    let errorlog = is_in_order(&tables.errorlog);
    let cancelled = is_in_order(&tables.cancelled);
    let cancels = is_in_order(&tables.cancels);
    room & vector & log & booking & errorlog & cancelled & cancels
}
