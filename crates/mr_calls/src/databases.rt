//! The laws of the program's databases, as those of offices.

ghost use Rattle.mr_calls.specs.Databases.{AreFoundAgain, AreFounded};

use mr_sql::SqlKeeper;
use mr_store::Keeper;
use sqlite::Alter;

/// A database that was found again behind a crash is one that the crash could have left, and one that was made where there was no table is that of a new
/// office.
pub fn databases_law<S: Alter>()
    ensures again { AreFoundAgain S.Store ⟦<SqlKeeper<S> as Keeper>⟧ }
    ensures founded { AreFounded S.Store ⟦<SqlKeeper<S> as Keeper>⟧ }
{}
