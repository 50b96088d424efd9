//! Whether a connection is open, which no call of it tells by itself.

ghost use Rattle.std.specs.Prelude.{◌≡◌, Ok, Err, OnOk, IfErr, IsTrue, ⊤};
ghost use Rattle.sqlite.specs.State.{HasCleanDisk, Survives};
ghost use Rattle.sqlite.specs.Held.{state};
ghost use Rattle.mr_rows.specs.Reads.{ReadsKept};
ghost use Rattle.mr_sql.specs.FailedReads.{FailsByStoreAlone};

use mr_rows::Idle;
use sqlite::{Alter, Error};

/// An error, if a failure of the store has shut the connection. Nothing is asked of the disk: a text is compiled, which a shut connection refuses.
pub(crate) fn check_open<S: Alter>(conn: &mut Idle<S>) -> Result<(), Error>
    ensures open { HasCleanDisk (state S.Store conn.new) → OnOk result (IsTrue (state S.Store conn.old).is_open) }
    ensures lasts { HasCleanDisk (state S.Store conn.new) → OnOk result (IsTrue (state S.Store conn.new).is_open) }
    ensures reads { ReadsKept (state S.Store conn.old) (state S.Store conn.new) result (λ _. ⊤) }
    ensures survives { Survives (state S.Store conn.old) (state S.Store conn.new) (λ _. ⊥) }
    ensures failed { FailsByStoreAlone (state S.Store conn.old) (state S.Store conn.new) result }
{
    without_value(conn.connection.prepare("SELECT server FROM undo"))
}

/// The same, whatever was answered.
fn without_value<T: Drop>(answer: Result<T, Error>) -> Result<(), Error>
    ensures ok { OnOk answer (result ≡ Ok tt) }
    ensures err { IfErr answer (λ e. result ≡ Err e) }
{
    match answer {
        Ok(_) => Ok(()),
        Err(error) => Err(error),
    }
}
