ghost use Rattle.std.specs.Prelude.{◌≡◌, ◌++◌, ◌∷◌, IfOk};
ghost use Rattle.mr_tables.specs.Change.{put, put_all};
ghost use Rattle.mr_replica.specs.Puts.{rows_after};

use mr_tables::table_row::{TableRow, copies_of};
use std::alloc::{AllocError, Global};

/// Equal rows with these put among them, each at the place of its key, where it replaces the row that has this key. It is None if there
/// are none to put.
pub(crate) fn with_rows<R: TableRow>(
    alloc: Global,
    rows: &[R],
    news: &[R],
) -> Result<Option<Vec<R>>, AllocError>
    ensures { IfOk result (λ after. rows_after rows.now after ≡ put_all R.before R.key news.now rows.now) }
{
    if news.is_empty() {
        return Ok(None);
    }
    let mut after = copies_of(alloc, rows)?;
    for row in news {
        after = with_row(alloc, &after, row)?;
    }
    Ok(Some(after))
}

/// The rows give way to those with others put among them, if there are such.
pub(crate) fn put_rows<R: TableRow>(rows: &mut Vec<R>, after: Option<Vec<R>>)
    ensures { rows.new.items ≡ rows_after rows.old.items after }
{
    if let Some(after) = after {
        *rows = after;
    }
}

fn with_row<R: TableRow>(alloc: Global, rows: &[R], row: &R) -> Result<Vec<R>, AllocError>
    ensures { IfOk result (λ after. after.items ≡ put R.before R.key row.now rows.now) }
{
    let mut front = Vec::new(alloc);
    for (k, other) in rows.iter().enumerate() {
        if row.is_before(other) {
            return joined(alloc, front, row, &rows[k..]);
        }
        if !other.is_before(row) {
            return joined(alloc, front, row, &rows[k + 1..]);
        }
        front.push(other.copied(alloc)?)?;
    }
    joined(alloc, front, row, &[])
}

/// These rows, and behind them rows equal to the one and to the others.
fn joined<R: TableRow>(
    alloc: Global,
    front: Vec<R>,
    row: &R,
    behind: &[R],
) -> Result<Vec<R>, AllocError>
    ensures { IfOk result (λ rows. rows.items ≡ front.items ++ row.now ∷ behind.now) }
{
    let mut rows = front;
    rows.push(row.copied(alloc)?)?;
    rows.append(&mut copies_of(alloc, behind)?)?;
    Ok(rows)
}
