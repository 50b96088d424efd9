ghost use Rattle.std.specs.Prelude.{◌≡◌};
ghost use Rattle.mr_replay.specs.Rows.{with_mark, without_mark, row_changed};

use crate::Row;
use crate::rows::Rows;
use mr_base::WriteId;
use std::collections::BTreeMap;

/// The cancel takes the booking of this id back, if it stands. This takes no memory.
pub(crate) fn mark_row(rows: &mut Rows, target: WriteId, cancel: WriteId)
    ensures { rows.new.entries ≡ row_changed (with_mark cancel) target rows.old.entries }
{
    if let Some(row) = rows.get_mut(&target) {
        row.mark(cancel);
    }
}

/// The booking of this id stands again, if the cancel took it back. This takes no memory.
pub(crate) fn unmark_row(rows: &mut Rows, target: WriteId, cancel: WriteId)
    ensures { rows.new.entries ≡ row_changed (without_mark cancel) target rows.old.entries }
{
    if let Some(row) = rows.get_mut(&target) {
        row.unmark(cancel);
    }
}
