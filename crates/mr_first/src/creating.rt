ghost use Rattle.std.specs.Prelude.{◌≡◌, map};
ghost use Rattle.sqlite_schema.specs.declared.schema.Schema.{Schema};
ghost use Rattle.sqlite.specs.State.{HasCleanDisk, KeepsCommit, Survives};
ghost use Rattle.sqlite.specs.Held.{state};
ghost use Rattle.mr_rows.specs.Schema.{no_schema, first_schema, our_schema};
ghost use Rattle.mr_first.specs.MoveUpSteps.{Extends};
ghost use Rattle.mr_first.specs.TableTexts.{MakesSchema};

use sqlite::{Alter, Error, Transaction};

/// Makes the table of each text, one after the other.
fn create_tables<S: Alter>(tx: &mut Transaction<'_, S>, texts: &[&str]) -> Result<(), Error>
    ensures same_reference { tx.new.conn.ghost_name ≡ tx.old.conn.ghost_name }
    ensures extended { (before after : Schema) → MakesSchema before (map (λ text. text.now) texts.now) after
        → Extends before after (state S.Store tx.old.conn.now) (state S.Store tx.new.conn.now) result }
    ensures kept { HasCleanDisk (state S.Store tx.new.conn.now) → KeepsCommit (state S.Store tx.old.conn.now) (state S.Store tx.new.conn.now) }
    ensures survives { Survives (state S.Store tx.old.conn.now) (state S.Store tx.new.conn.now) (λ _. ⊥) }
{
    'texts: for text in texts {
        tx.execute(text, &[])?;
    }
    Ok(())
}

/// Makes the tables of the first schema, with no rows, in a database that has none yet.
pub fn create_first_tables<S: Alter>(tx: &mut Transaction<'_, S>) -> Result<(), Error>
    ensures same_reference { tx.new.conn.ghost_name ≡ tx.old.conn.ghost_name }
    ensures extended { Extends no_schema first_schema (state S.Store tx.old.conn.now) (state S.Store tx.new.conn.now) result }
    ensures kept { HasCleanDisk (state S.Store tx.new.conn.now) → KeepsCommit (state S.Store tx.old.conn.now) (state S.Store tx.new.conn.now) }
    ensures survives { Survives (state S.Store tx.old.conn.now) (state S.Store tx.new.conn.now) (λ _. ⊥) }
{
    create_tables(
        tx,
        &[
            "CREATE TABLE meta (one INTEGER NOT NULL UNIQUE, schema INTEGER NOT NULL, server INTEGER NOT NULL, prim INTEGER NOT NULL, commits INTEGER NOT NULL, dropped INTEGER NOT NULL, clock INTEGER NOT NULL) STRICT",
            "CREATE TABLE room (name TEXT NOT NULL PRIMARY KEY) STRICT",
            "CREATE TABLE vector (server INTEGER NOT NULL UNIQUE, n INTEGER NOT NULL, tm INTEGER NOT NULL, committed INTEGER NOT NULL) STRICT",
            "CREATE TABLE write_log (server INTEGER NOT NULL, n INTEGER NOT NULL, tm INTEGER NOT NULL, room TEXT NOT NULL, length INTEGER NOT NULL, choices TEXT NOT NULL, title TEXT NOT NULL, seq INTEGER NOT NULL, PRIMARY KEY (server, n)) STRICT",
            "CREATE TABLE undo (server INTEGER NOT NULL, n INTEGER NOT NULL, place INTEGER NOT NULL, PRIMARY KEY (server, n)) STRICT",
            "CREATE TABLE booking (room TEXT NOT NULL, day TEXT NOT NULL, start INTEGER NOT NULL, stop INTEGER NOT NULL, server INTEGER NOT NULL, n INTEGER NOT NULL, title TEXT NOT NULL, committed INTEGER NOT NULL, PRIMARY KEY (server, n)) STRICT",
            "CREATE TABLE errorlog (room TEXT NOT NULL, day TEXT NOT NULL, start INTEGER NOT NULL, stop INTEGER NOT NULL, server INTEGER NOT NULL, n INTEGER NOT NULL, title TEXT NOT NULL, tm INTEGER NOT NULL, seq INTEGER NOT NULL, PRIMARY KEY (server, n)) STRICT",
        ],
    )
}

/// Makes the tables that the second schema has beside those of the first, with no rows: of writes of either kind, of bookings that a
/// cancel took back, and of cancels. The rows of the others stay.
pub fn create_second_rows<S: Alter>(tx: &mut Transaction<'_, S>) -> Result<(), Error>
    ensures same_reference { tx.new.conn.ghost_name ≡ tx.old.conn.ghost_name }
    ensures widened { Extends first_schema our_schema (state S.Store tx.old.conn.now) (state S.Store tx.new.conn.now) result }
    ensures kept { HasCleanDisk (state S.Store tx.new.conn.now) → KeepsCommit (state S.Store tx.old.conn.now) (state S.Store tx.new.conn.now) }
    ensures survives { Survives (state S.Store tx.old.conn.now) (state S.Store tx.new.conn.now) (λ _. ⊥) }
{
    create_tables(
        tx,
        &[
            "CREATE TABLE log (server INTEGER NOT NULL, n INTEGER NOT NULL, tm INTEGER NOT NULL, room TEXT NOT NULL, kind INTEGER NOT NULL, length INTEGER NOT NULL, choices TEXT NOT NULL, title TEXT NOT NULL, tserver INTEGER NOT NULL, tn INTEGER NOT NULL, place INTEGER NOT NULL, seq INTEGER NOT NULL, PRIMARY KEY (server, n)) STRICT",
            "CREATE TABLE cancelled (room TEXT NOT NULL, day TEXT NOT NULL, start INTEGER NOT NULL, stop INTEGER NOT NULL, server INTEGER NOT NULL, n INTEGER NOT NULL, title TEXT NOT NULL, committed INTEGER NOT NULL, bserver INTEGER NOT NULL, bn INTEGER NOT NULL, PRIMARY KEY (server, n)) STRICT",
            "CREATE TABLE cancel (server INTEGER NOT NULL, n INTEGER NOT NULL, room TEXT NOT NULL, tserver INTEGER NOT NULL, tn INTEGER NOT NULL, done INTEGER NOT NULL, tm INTEGER NOT NULL, seq INTEGER NOT NULL, PRIMARY KEY (server, n)) STRICT",
        ],
    )
}
