ghost use Rattle.std.specs.Prelude.{◌≡◌, IsTrue, IfOk, string_bytes};
ghost use Rattle.sqlite.specs.State.{Survives};
ghost use Rattle.sqlite.specs.Held.{state};
ghost use Rattle.mr_model.specs.Calendar.{is_date, date_text};
ghost use Rattle.mr_rows.specs.Schema.{IsOfTwo};
ghost use Rattle.mr_rows.specs.Form.{meta_form_of};
ghost use Rattle.mr_rows.specs.Database.{MakesTables, tables_in};
ghost use Rattle.mr_rows.specs.TableSteps.{PutsRow};
ghost use Rattle.mr_rows.specs.ChangeParts.{put_meta as with_meta};

use crate::numbers::Number;
use mr_base::Day;
use mr_tables::MetaRow;
use sqlite::{Alter, Error, Transaction, params};
use std::alloc::Global;

/// Puts the row of `meta` of the schema of this number.
pub fn put_meta_of<S: Alter>(
    tx: &mut Transaction<'_, S>,
    row: &MetaRow,
    schema: u32,
) -> Result<usize, Error>
    ensures same_reference { tx.new.conn.ghost_name ≡ tx.old.conn.ghost_name }
    ensures put { PutsRow IsOfTwo (meta_form_of schema) row.now (state S.Store tx.old.conn.now) (state S.Store tx.new.conn.now) result }
    ensures survives { Survives (state S.Store tx.old.conn.now) (state S.Store tx.new.conn.now) (λ _. ⊥) }
{
    let commits = Number::new(row.commits, 4)?;
    let dropped = Number::new(row.dropped, 5)?;
    let clock = Number::new(row.clock, 6)?;
    tx.execute(
        "INSERT OR REPLACE INTO meta (one, schema, server, prim, commits, dropped, clock) VALUES (?1, ?2, ?3, ?4, ?5, ?6, ?7)",
        params![
            1u32,
            schema,
            row.server.number(),
            row.primary.number(),
            commits,
            dropped,
            clock
        ],
    )
}

/// Puts the row of `meta` into our tables.
pub fn put_meta<S: Alter>(tx: &mut Transaction<'_, S>, row: &MetaRow) -> Result<usize, Error>
    ensures same_reference { tx.new.conn.ghost_name ≡ tx.old.conn.ghost_name }
    ensures put { MakesTables (state S.Store tx.old.conn.now) (state S.Store tx.new.conn.now)
        (with_meta row.now (tables_in (state S.Store tx.old.conn.now).now.trees)) result }
    ensures survives { Survives (state S.Store tx.old.conn.now) (state S.Store tx.new.conn.now) (λ _. ⊥) }
{
    put_meta_of(tx, row, 2)
}

/// The text of a day, which is within the calendar.
pub fn day_text(alloc: Global, day: Day) -> Result<String, Error>
    ensures { IfOk result (λ text. (string_bytes text ≡ date_text day) × IsTrue (is_date day)) }
{
    // For the prover alone: the day is within the calendar.
    day.is_within_calendar();
    Ok(format!(in alloc; "{day}")?)
}
