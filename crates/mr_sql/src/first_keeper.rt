//! A database of the first schema, by itself.

ghost use Rattle.std.specs.Prelude.{◌≡◌, ◌⊎◌, Err, IfOk, IfErr, OnOk, IsTrue};
ghost use Rattle.sqlite_trees.specs.Tree.{Trees};
ghost use Rattle.sqlite.specs.State.{HasCleanDisk};
ghost use Rattle.sqlite.specs.Held.{state};
ghost use Rattle.sqlite.specs.Steps.{over_memory};
ghost use Rattle.mr_first.specs.FirstDatabase.{first_in};
ghost use Rattle.mr_first.specs.FirstParts.{AreFirstKeysRising};
ghost use Rattle.mr_sql.specs.Found.{IsRaised, LeavesRows};
ghost use Rattle.mr_sql.specs.Opened.{IsNewKeeper};

use crate::create_first::create_first;
use crate::faults::refusal_of;
use crate::sql_keeper::{SqlKeeper, open_connection};
use mr_base::Refusal;
use mr_first::puts::are_keys_rising;
use mr_first::{First, moving};
use mr_rows::Idle;
use sqlite::{Alter, Connection, MemStore};
use std::alloc::Global;
use std::marker::Model;

/// A database with the tables of the first schema. It can do nothing but move up. Contracts see it as its connection.
#[derive(Drop)]
pub struct FirstKeeper<S: Alter> {
    conn: Idle<S>,
    alloc: Global,
}

impl<S: Alter> Model for FirstKeeper<S> {
    ghost use Rattle.std.specs.Prelude.{IsTrue};
    ghost use Rattle.sqlite.specs.State.{HasCleanDisk};
    ghost use Rattle.sqlite.specs.Held.{Held, state, held_code};
    ghost use Rattle.mr_first.specs.FirstDatabase.{IsKeptFirst};

    ghost Value = { Held S };

    ghost coded = { held_code S.code };

    ghost view = { λ k. k.conn };

    ghost invariant = { λ k. HasCleanDisk (state S.Store k.conn) → IsTrue (state S.Store k.conn).is_open → IsKeptFirst (state S.Store k.conn) };
}

impl FirstKeeper<MemStore> {
    /// A database in memory that has these tables. Tables in which a key is there twice, or whose rows don't stand in the order of
    /// their keys, are refused with 25, and so is a number that no column has room for.
    pub fn from_tables(alloc: Global, tables: &First) -> Result<FirstKeeper<MemStore>, Refusal>
        ensures made { IfOk result (λ k. first_in (state over_memory k).now.trees ≡ tables.now) }
        ensures settled { IfOk result (λ k. LeavesRows (state over_memory k)) }
        ensures rising { OnOk result (AreFirstKeysRising tables.now) }
        ensures twice { (AreFirstKeysRising tables.now → ⊥) → result ≡ Err Refusal.Store }
        ensures cause { IfErr result (λ e. (e ≡ Refusal.OutOfMemory) ⊎ (e ≡ Refusal.Store)) }
    {
        if !are_keys_rising(tables) {
            return Err(Refusal::Store);
        }
        let mut conn = open_connection(alloc)?;
        match create_first(&mut conn, alloc, tables) {
            Ok(()) => Ok(FirstKeeper { conn, alloc }),
            Err(error) => Err(refusal_of(error)),
        }
    }
}

impl<S: Alter + Drop> FirstKeeper<S> {
    /// Moves the tables up to the second schema, in one transaction. `log` takes the place of `write_log` and `undo`, which stay there
    /// without rows; all other rows stay. Rows of the two logs without a partner in the other, and rows that contradict each
    /// other once they are moved, are refused with 25. What a refusal gives back can be moved up again, unless the store failed.
    pub fn move_up(self) -> Result<SqlKeeper<S>, (FirstKeeper<S>, Refusal)>
        ensures raised { IfOk result (λ k. IsNewKeeper (IsRaised (state S.Store self).now.trees) (state S.Store k.0) k.1) }
        ensures cause { IfErr result (λ e. (e.1 ≡ Refusal.OutOfMemory) ⊎ (e.1 ≡ Refusal.Store)) }
        ensures stays { IfErr result (λ e. HasCleanDisk (state S.Store e.0) → IsTrue (state S.Store e.0).is_open
            → ((state S.Store e.0).now ≡ (state S.Store self).now) × ((state S.Store e.0).committed ≡ (state S.Store self).committed)) }
        ensures crash { IfErr result
            (λ e. HasCleanDisk (state S.Store e.0) → IsTrue (state S.Store self).is_open → (trees : Trees) → (state S.Store e.0).may_leave trees
            → (state S.Store self).may_leave trees ⊎ IsRaised (state S.Store self).now.trees trees) }
        ensures clean_after { IfOk result (λ k. HasCleanDisk (state S.Store k.0) → HasCleanDisk (state S.Store self)) }
        ensures clean { IfErr result (λ e. HasCleanDisk (state S.Store e.0) → HasCleanDisk (state S.Store self)) }
    {
        let FirstKeeper { mut conn, alloc } = self;
        match moving::move_up(&mut conn, alloc) {
            Ok(()) => Ok(SqlKeeper::opened(alloc, conn, None)),
            Err(error) => Err((FirstKeeper { conn, alloc }, refusal_of(error))),
        }
    }
}

impl<S: Alter> FirstKeeper<S> {
    /// Gives the connection back.
    pub fn release(self) -> Connection<S>
        ensures { result ≡ self }
    {
        let FirstKeeper { conn, .. } = self;
        conn.connection
    }
}

/// In memory nobody else writes the store, and nothing shuts it: so what a refused `move_up` gives back has its tables as they were. It does
/// nothing.
pub fn first_memory_is_honest(keeper: &FirstKeeper<MemStore>)
    ensures clean { HasCleanDisk (state over_memory keeper.now) }
    ensures open { IsTrue (state over_memory keeper.now).is_open }
{}
