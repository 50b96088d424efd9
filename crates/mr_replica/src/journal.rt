ghost use Rattle.std.specs.Prelude.{◌≡◌, [], List, Option, reverse, IsTrue, OnOk};
ghost use Rattle.mr_model.specs.Replica.{is_among};
ghost use Rattle.mr_model.specs.Writes.{Id};
ghost use Rattle.mr_tables.specs.Change.{id_before, put, put_all, rows_without};
ghost use Rattle.mr_replica.specs.declared.row_key.RowKey.{RowKey as Key};
ghost use Rattle.mr_replica.specs.Journal.{is_going, rows_but, AreSteps, IsFresh, IsRowStep};
ghost use Rattle.mr_replica.specs.RowKeys.{has_row_key, IsRowNoted};

use crate::indexed::Indexed;
use crate::row_key::KeyedRow;
use mr_base::WriteId;
use std::alloc::{AllocError, Global};
use std::collections::BTreeSet;

/// What a change has done to a table so far. Either all of it is taken back or it is settled, which takes no memory.
#[derive(Drop)]
pub(crate) struct Journal<R> {
    alloc: Global,
    /// For each row that was put its id, and the row in whose place it came. The latest is the last.
    pub puts: Vec<(WriteId, Option<R>)>,
    /// The ids whose rows are still to go: none is that of a row that was put.
    pub going: BTreeSet<WriteId>,
}

impl<R: KeyedRow> Journal<R> {
    /// Of nothing. It takes its memory from this allocator later, as it grows.
    pub(crate) fn new(alloc: Global) -> Journal<R>
        ensures { IsFresh result }
    {
        Journal {
            alloc,
            puts: Vec::new(alloc),
            going: BTreeSet::new(alloc),
        }
    }

    /// Puts equal rows, and notes whose rows are to go, as far as memory lasts.
    pub(crate) fn put_all(
        &mut self,
        table: &mut Indexed<R>,
        gone: &[WriteId],
        news: &[R],
    ) -> Result<(), AllocError>
        requires { IsFresh self.old }
        ensures steps { AreSteps R.id (IsRowNoted R.second_key table.new.keys) (reverse self.new.puts.items) table.old.rows table.new.rows }
        ensures made { OnOk result (rows_but R.id (is_going self.new.going) table.new.rows ≡ put_all id_before R.id news.now (rows_without R.id gone.now table.old.rows)) }
    {
        self.going.extend(gone)?;
        for row in news {
            put_one(table, row.copied(self.alloc)?, self)?;
        }
        Ok(())
    }
}

fn put_one<R: KeyedRow>(
    table: &mut Indexed<R>,
    row: R,
    journal: &mut Journal<R>,
) -> Result<(), AllocError>
    ensures steps { (before : List R) → AreSteps R.id (IsRowNoted R.second_key table.old.keys) (reverse journal.old.puts.items) before table.old.rows
        → AreSteps R.id (IsRowNoted R.second_key table.new.keys) (reverse journal.new.puts.items) before table.new.rows }
    ensures made { OnOk result (rows_but R.id (is_going journal.new.going) table.new.rows ≡ put id_before R.id row (rows_but R.id (is_going journal.old.going) table.old.rows)) }
{
    let id = row.write_id();
    journal.puts.reserve(1)?;
    let old = table.put(row)?;
    journal.puts.push_reserved((id, old));
    journal.going.remove(&id);
    Ok(())
}

/// Gives the table the rows that it had before the puts in the journal, and drops the keys that the new rows left.
pub(crate) fn take_back<R: KeyedRow>(table: &mut Indexed<R>, journal: Journal<R>, news: &[R])
    ensures { (before : List R) → AreSteps R.id (IsRowNoted R.second_key table.old.keys) (reverse journal.puts.items) before table.old.rows → table.new.rows ≡ before }
{
    go_back(table, journal.puts);
    for row in news {
        table.forget(row);
    }
}

fn go_back<R: KeyedRow>(table: &mut Indexed<R>, puts: Vec<(WriteId, Option<R>)>)
    ensures { (before : List R) → AreSteps R.id (IsRowNoted R.second_key table.old.keys) (reverse puts.items) before table.old.rows → table.new.rows ≡ before }
{
    let mut left = puts;
    while let Some((id, old)) = left.pop() {
        step_back(table, id, old);
    }
}

fn step_back<R: KeyedRow>(table: &mut Indexed<R>, id: WriteId, old: Option<R>)
    ensures rows { (before : List R) → IsRowStep R.id (IsRowNoted R.second_key table.old.keys) (id, old) before table.old.rows → table.new.rows ≡ before }
    ensures keys { (k : Key) → IsTrue (has_row_key table.old.keys k) → IsTrue (has_row_key table.new.keys k) }
{
    match old {
        Some(row) => {
            // It takes no memory: a row of its write is there, and its key is.
            let _ = table.put(row);
        }
        None => {
            table.take(id);
        }
    }
}

/// Takes the rows away that are to go, and the old keys of rows that were replaced.
pub(crate) fn settle<R: KeyedRow>(table: &mut Indexed<R>, journal: Journal<R>)
    ensures { table.new.rows ≡ rows_but R.id (is_going journal.going) table.old.rows }
{
    let Journal { puts, going, .. } = journal;
    take_going(table, going);
    forget_old(table, puts);
}

fn take_going<R: KeyedRow>(table: &mut Indexed<R>, going: BTreeSet<WriteId>)
    ensures { table.new.rows ≡ rows_but R.id (is_going going) table.old.rows }
{
    let mut left = going;
    while let Some(id) = left.pop_first() {
        let row = table.take(id);
        forget(table, row);
    }
}

fn forget_old<R: KeyedRow>(table: &mut Indexed<R>, puts: Vec<(WriteId, Option<R>)>)
    ensures { table.new.rows ≡ table.old.rows }
{
    let mut left = puts;
    while let Some((_, old)) = left.pop() {
        forget(table, old);
    }
}

fn forget<R: KeyedRow>(table: &mut Indexed<R>, row: Option<R>)
    ensures { table.new.rows ≡ table.old.rows }
{
    if let Some(row) = row {
        table.forget(&row);
    }
}
