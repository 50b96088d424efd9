ghost use Rattle.std.specs.Prelude.{◌≡◌, IfOk, IfErr};
ghost use Rattle.mr_model.specs.Replica.{Replica, IsReplica};
ghost use Rattle.mr_model.specs.Scopes.{Above};
ghost use Rattle.mr_part.specs.Parts.{HasRowsButBookings, IsLogOf};

use crate::Scope;
use crate::kept_rows::KeptRow;
use crate::scope::wanted::Wanted;
use mr_base::{Item, Refusal};
use mr_tables::Tables;
use std::alloc::Global;

/// All kept writes in the order of execution, for `Part::over_log`. Of the tables only the rows of `log` are looked at. Refused if one of
/// them breaks its limits.
pub fn log_in_order(alloc: Global, tables: &Tables) -> Result<Vec<KeptRow>, Refusal>
    ensures rows { (a : Replica) → IsReplica a → HasRowsButBookings tables.now (Above 0) a → IfOk result (λ rows. IsLogOf rows.items a) }
    ensures only { (a : Replica) → IsReplica a → HasRowsButBookings tables.now (Above 0) a → IfErr result (λ e. e ≡ Refusal.OutOfMemory) }
{
    // For the prover alone: a scope may hold items.
    let _none: Option<&Item> = None;
    let wanted = Wanted::of(alloc, &Scope::Above(0), tables)?;
    let Wanted { kept, .. } = wanted;
    Ok(kept)
}
