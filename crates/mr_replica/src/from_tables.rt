ghost use Rattle.std.specs.Prelude.{◌≡◌, ◌⊎◌, ◌↔◌, true, false, IsTrue, Err, IfOk, IfErr};
ghost use Rattle.mr_agree.specs.Agreeing.{agree};
ghost use Rattle.mr_audit.specs.Parts.{do_parts_agree};
ghost use Rattle.mr_model.specs.Changes.{AreInKeyOrder};
ghost use Rattle.mr_model.specs.Replica.{Replica, IsReplica};
ghost use Rattle.mr_model.specs.Tables.{tables_of};
ghost use Rattle.mr_replica.specs.Desk.{StandsFor, IsWithinLimits};

use crate::order::are_in_order;
use crate::{Desk, Memory};
use mr_audit::do_tables_agree;
use mr_base::{GREATEST_COMMIT, GREATEST_COUNT, Refusal};
use mr_part::kept_rows::{kept_rows, of_store};
use mr_tables::Tables;
use mr_tables::boards::board_with;
use mr_tables::table_row::copies_of;
use std::alloc::{AllocError, Global};
use std::rc::Rc;

impl Desk {
    /// The desk that has these tables. Tables that stand for no replica are not believed: rows that break their limits, or
    /// that contradict each other, are refused as the store's.
    pub fn from_tables(alloc: Global, tables: &Tables) -> Result<Desk, Refusal>
        ensures tables { IfOk result (λ desk. desk ≡ tables.now) }
        ensures desk { (a : Replica) → IsReplica a → tables.now ≡ tables_of a → IfOk result (λ desk. StandsFor desk a) }
        ensures only { (a : Replica) → IsReplica a → tables.now ≡ tables_of a → IfErr result (λ e. e ≡ Refusal.OutOfMemory) }
        ensures within { IfOk result IsWithinLimits }
        ensures agree { IfOk result (λ desk. (agree tables.now ≡ true) × AreInKeyOrder tables.now) }
        // What disagrees in a part that is tested without memory is refused without memory.
        ensures due { do_parts_agree tables.now ≡ false → result ≡ Err Refusal.Store }
        ensures cause { IfErr result (λ e. (e ≡ Refusal.OutOfMemory) ⊎ (e ≡ Refusal.Store)) }
    {
        match copy_of_agreeing(alloc, tables) {
            Ok(memory) => Ok(Desk { memory }),
            Err(refusal) => Err(of_store(refusal)),
        }
    }
}

/// Equal tables, if their numbers are within the limits of positions, their rows agree with each other, and each can be read.
fn copy_of_agreeing(alloc: Global, tables: &Tables) -> Result<Memory, Refusal>
    ensures copy { IfOk result (λ copy. copy ≡ tables.now) }
    ensures only { (a : Replica) → IsReplica a → tables.now ≡ tables_of a → IfErr result (λ e. e ≡ Refusal.OutOfMemory) }
    ensures within { IfOk result (λ copy. IsWithinLimits tables.now) }
    ensures agree { IfOk result (λ copy. (agree tables.now ≡ true) × AreInKeyOrder tables.now) }
    ensures due { do_parts_agree tables.now ≡ false → result ≡ Err Refusal.Store }
{
    if !is_within(tables) {
        return Err(Refusal::Store);
    }
    match do_tables_agree(alloc, tables) {
        Ok(true) => copy_of_read(alloc, tables),
        Ok(false) => Err(Refusal::Store),
        Err(refusal) => Err(refusal),
    }
}

/// Equal tables with their board, if each row can be read and each table is in the order of its keys.
fn copy_of_read(alloc: Global, tables: &Tables) -> Result<Memory, Refusal>
    ensures copy { IfOk result (λ copy. copy ≡ tables.now) }
    ensures only { (a : Replica) → IsReplica a → tables.now ≡ tables_of a → IfErr result (λ e. e ≡ Refusal.OutOfMemory) }
{
    if !are_in_order(tables) {
        return Err(Refusal::Store);
    }
    kept_rows(alloc, &tables.log)?;
    let board = Rc::new(alloc, board_with(alloc, tables)?)?;
    Ok(Memory::of(alloc, copy_of(alloc, tables)?, Some(board))?)
}

fn copy_of(alloc: Global, tables: &Tables) -> Result<Tables, AllocError>
    ensures { IfOk result (λ copy. copy ≡ tables.now) }
{
    Ok(Tables {
        meta: tables.meta,
        room: copies_of(alloc, &tables.room)?,
        vector: copies_of(alloc, &tables.vector)?,
        log: copies_of(alloc, &tables.log)?,
        booking: copies_of(alloc, &tables.booking)?,
        errorlog: copies_of(alloc, &tables.errorlog)?,
        cancelled: copies_of(alloc, &tables.cancelled)?,
        cancels: copies_of(alloc, &tables.cancels)?,
    })
}

/// Whether the numbers in the rows are within the limits of positions.
fn is_within(tables: &Tables) -> bool
    ensures { IsTrue result ↔ IsWithinLimits tables.now }
{
    let commits = tables.meta.commits <= GREATEST_COMMIT;
    commits && tables.vector.iter().all(|row| row.count <= GREATEST_COUNT)
}
