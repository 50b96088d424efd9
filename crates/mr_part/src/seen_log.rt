ghost use Rattle.std.specs.Prelude.{◌≡◌, drop, IfOk, IfErr};

use crate::kept_rows::KeptRow;
use mr_base::Refusal;
use std::alloc::Global;
use std::marker::Model;
use std::rc::Rc;

/// Kept writes in the order of execution that are only read: a list of one's own, or one that is shared, of which the first so many aren't
/// seen. Sharing copies no write.
#[derive(Drop)]
pub(crate) struct SeenLog {
    rows: LogRows,
}

/// Which rows are seen.
#[derive(Drop)]
enum LogRows {
    Own(Vec<KeptRow>),
    Behind(Rc<Vec<KeptRow>>, usize),
}

impl Model for SeenLog {
    ghost use Rattle.std.specs.Prelude.{List};
    ghost use Rattle.mr_part.specs.declared.kept_rows.KeptRow.{KeptRow};

    ghost Value = { List KeptRow };

    ghost use Rattle.mr_part.specs.SeenLog.{seen_log};

    ghost view = { λ s. seen_log s.rows };
}

impl SeenLog {
    /// These rows.
    pub(crate) fn own(rows: Vec<KeptRow>) -> SeenLog
        ensures { result ≡ rows.items }
    {
        SeenLog {
            rows: LogRows::Own(rows),
        }
    }

    /// The rows of this log behind the first so many.
    pub(crate) fn behind(log: Rc<Vec<KeptRow>>, first: usize) -> SeenLog
        ensures { result ≡ drop first log.value.items }
    {
        SeenLog {
            rows: LogRows::Behind(log, first),
        }
    }

    /// The rows that are seen.
    pub(crate) fn as_slice(&self) -> &[KeptRow]
        ensures { result.now ≡ self.now }
    {
        match &self.rows {
            LogRows::Own(rows) => rows.as_slice(),
            LogRows::Behind(log, first) => behind_in(log.as_ref(), *first),
        }
    }

    /// The rows that are seen, moved if they are one's own, and else copied.
    pub(crate) fn into_rows(self, alloc: Global) -> Result<Vec<KeptRow>, Refusal>
        ensures rows { IfOk result (λ rows. rows.items ≡ self) }
        ensures only { IfErr result (λ e. e ≡ Refusal.OutOfMemory) }
    {
        match self.rows {
            LogRows::Own(rows) => Ok(rows),
            LogRows::Behind(log, first) => copies_of(alloc, behind_in(log.as_ref(), first)),
        }
    }
}

/// The rows behind the first so many.
fn behind_in(rows: &[KeptRow], first: usize) -> &[KeptRow]
    ensures { result.now ≡ drop first rows.now }
{
    let (_, seen) = rows.split_at(first.min(rows.len()));
    seen
}

/// Equal rows.
fn copies_of(alloc: Global, rows: &[KeptRow]) -> Result<Vec<KeptRow>, Refusal>
    ensures rows { IfOk result (λ copies. copies.items ≡ rows.now) }
    ensures only { IfErr result (λ e. e ≡ Refusal.OutOfMemory) }
{
    let mut copies = Vec::new(alloc);
    for row in rows {
        copies.push(row.copy(alloc)?)?;
    }
    Ok(copies)
}
