ghost use Rattle.std.specs.Prelude.{◌≡◌, ◌↔◌, false, map, MatchOption, IsTrue};
ghost use Rattle.mr_model.specs.Writes.{same_id};
ghost use Rattle.mr_model.specs.Replica.{is_among};
ghost use Rattle.mr_model.specs.Dropped.{Has};
ghost use Rattle.mr_tables.specs.Change.{id_before};
ghost use Rattle.mr_tables.specs.TableOrders.{InOrder};
ghost use Rattle.mr_agree.specs.Agreeing.{next_id};

use mr_base::WriteId;
use mr_tables::{IdRow, is_id_before};

/// The row with this id, among rows that stand in the order of their ids.
pub(crate) fn find<R: IdRow>(rows: &[R], id: WriteId) -> Option<&R>
    requires { InOrder id_before R.id rows.now }
    ensures { MatchOption result (is_among id (map R.id rows.now) ≡ false) (λ row. Has row.now rows.now × (R.id row.now ≡ id)) }
{
    let at = rows.partition_point(|row| is_id_before(row.write_id(), id));
    if at >= rows.len() {
        return None;
    }
    let row = &rows[at];
    if row.write_id() == id {
        Some(row)
    } else {
        None
    }
}

/// Whether one of these rows, which stand in the order of their ids, has this id.
pub(crate) fn has<R: IdRow>(rows: &[R], id: WriteId) -> bool
    requires { InOrder id_before R.id rows.now }
    ensures { result ≡ is_among id (map R.id rows.now) }
{
    match find(rows, id) {
        Some(_) => true,
        None => false,
    }
}

/// Whether one of these rows, which stand in the order of their ids, is of the next write of the same server.
pub(crate) fn has_next<R: IdRow>(rows: &[R], id: WriteId) -> bool
    requires { InOrder id_before R.id rows.now }
    ensures { result ≡ is_among (next_id id) (map R.id rows.now) }
{
    let at = rows.partition_point(|row| !is_id_before(id, row.write_id()));
    if at >= rows.len() {
        return false;
    }
    is_next_id(id, rows[at].write_id())
}

/// Whether the other is the next write of the same server.
fn is_next_id(id: WriteId, other: WriteId) -> bool
    ensures { result ≡ same_id other (next_id id) }
{
    other.server == id.server && other.n == id.n + 1
}

/// Whether the rows stand in the order of their ids, so that none is there twice.
pub(crate) fn are_rising<R: IdRow>(rows: &[R]) -> bool
    ensures { IsTrue result ↔ InOrder id_before R.id rows.now }
{
    rows.is_sorted_by(|one, next| is_id_before(one.write_id(), next.write_id()))
}
