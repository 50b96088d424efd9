ghost use Rattle.std.specs.Prelude.{◌≡◌, List, IfOk, IfErr, map, filter};
ghost use Rattle.mr_model.specs.Writes.{Write as WriteOfRoom};
ghost use Rattle.mr_model.specs.Replica.{Replica, IsReplica};
ghost use Rattle.mr_part.specs.KeptRows.{kept_row};
ghost use Rattle.mr_part.specs.declared.kept_rows.KeptRow.{KeptRow as KeptRowOfWrite};
ghost use Rattle.mr_part.specs.RowTests.{log_row_of, AreWritesWithin, ArePicked, passes_log_test};

use crate::kept_rows::{KeptRow, kept_row, sort_rows};
use crate::scope::batch_scope::BatchScope;
use mr_base::Refusal;
use mr_tables::LogRow;
use std::alloc::Global;

/// Which rows of `log` are in scope, told row by row.
#[derive(Clone, Copy)]
pub(crate) enum LogTest<'a> {
    /// The commits up to this number.
    UpTo(u64),
    /// The commits above this number and all tentative writes.
    Above(u64),
    /// What a batch needs.
    OfBatch(&'a BatchScope),
}

impl LogTest<'_> {
    fn passes(&self, row: &LogRow) -> bool
        ensures { result ≡ passes_log_test self.now row.now }
    {
        match *self {
            LogTest::UpTo(number) => row.seq >= 1 && row.seq <= number,
            LogTest::Above(number) => row.seq == 0 || row.seq > number,
            LogTest::OfBatch(batch) => batch.has_log(row),
        }
    }
}

/// The writes of the rows that pass, in the order of execution.
pub(crate) fn writes_where(
    alloc: Global,
    rows: &[LogRow],
    test: &LogTest<'_>,
) -> Result<Vec<KeptRow>, Refusal>
    ensures writes { (a : Replica) (ws : List WriteOfRoom) → IsReplica a → ArePicked a (passes_log_test test.now) rows.now ws
        → IfOk result (λ writes. writes.items ≡ map (kept_row a) ws) }
    ensures only { (a : Replica) (ws : List WriteOfRoom) → IsReplica a → ArePicked a (passes_log_test test.now) rows.now ws
        → IfErr result (λ e. e ≡ Refusal.OutOfMemory) }
{
    let mut writes = writes_in(alloc, rows, test)?;
    sort_rows(&mut writes);
    Ok(writes)
}

/// The same in the order of the rows.
fn writes_in(alloc: Global, rows: &[LogRow], test: &LogTest<'_>) -> Result<Vec<KeptRow>, Refusal>
    ensures writes { (xs : List KeptRowOfWrite) → AreWritesWithin xs → filter (passes_log_test test.now) rows.now ≡ map log_row_of xs
        → IfOk result (λ writes. writes.items ≡ xs) }
    ensures only { (xs : List KeptRowOfWrite) → AreWritesWithin xs → filter (passes_log_test test.now) rows.now ≡ map log_row_of xs
        → IfErr result (λ e. e ≡ Refusal.OutOfMemory) }
{
    let mut writes = Vec::new(alloc);
    for row in rows {
        if test.passes(row) {
            writes.push(kept_row(alloc, row)?)?;
        }
    }
    Ok(writes)
}
