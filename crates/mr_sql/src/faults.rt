ghost use Rattle.std.specs.Prelude.{◌≡◌, ◌≢◌, ◌⊎◌};

use mr_base::Refusal;
use sqlite::{Error, ErrorCode};

/// Out of memory, or else a failure of the store.
pub(crate) fn refusal_of(error: Error) -> Refusal
    ensures cause { (result ≡ Refusal.OutOfMemory) ⊎ (result ≡ Refusal.Store) }
    ensures memory { error ≡ Error.SqliteFailure ErrorCode.OutOfMemory → result ≡ Refusal.OutOfMemory }
    ensures store { error ≢ Error.SqliteFailure ErrorCode.OutOfMemory → result ≡ Refusal.Store }
{
    match error {
        Error::SqliteFailure(ErrorCode::OutOfMemory) => Refusal::OutOfMemory,
        _ => Refusal::Store,
    }
}

/// The same if the store's disks are in memory: a call of them fails if there is no memory.
pub(crate) fn refusal_in_memory(error: Error) -> Refusal
    ensures cause { (result ≡ Refusal.OutOfMemory) ⊎ (result ≡ Refusal.Store) }
    ensures disk { error ≡ Error.SqliteFailure ErrorCode.SystemIoFailure → result ≡ Refusal.OutOfMemory }
{
    match error {
        Error::SqliteFailure(ErrorCode::SystemIoFailure) => Refusal::OutOfMemory,
        other => refusal_of(other),
    }
}
