ghost use Rattle.std.specs.Prelude.{◌≡◌, Bool, true, List, map, if◌then◌else◌, IfOk, IfErr};
ghost use Rattle.std.specs.Option.{option_map, option_copied};
ghost use Rattle.std.specs.BTreeMap.{IsOrdered, values as values_of};
ghost use Rattle.std.specs.List.{filter};
ghost use Rattle.mr_model.specs.Kept.{kept_in_order};
ghost use Rattle.mr_model.specs.Replica.{Replica, IsReplica};
ghost use Rattle.mr_model.specs.Writes.{Id, Write as WriteOfRoom, same_id};
ghost use Rattle.mr_base.specs.Ids.{id_cmp};
ghost use Rattle.mr_part.specs.KeptRows.{kept_row};
ghost use Rattle.mr_part.specs.KeptWrites.{logged_at, has_at, is_number_of, with_number, HasKept, held_row};

use crate::kept_rows::{KeptRow, sort_rows};
use mr_base::{Refusal, Write, WriteId};
use std::alloc::Global;
use std::collections::BTreeMap;

/// Kept writes by the ids of the writes. An item of a batch is asked of them at the cost of a logarithm.
pub(crate) type KeptWrites = BTreeMap<WriteId, KeptRow>;

/// These rows, by the ids of their writes.
pub(crate) fn kept_writes(alloc: Global, rows: Vec<KeptRow>) -> Result<KeptWrites, Refusal>
    ensures kept { (a : Replica) (ws : List WriteOfRoom) → rows.items ≡ map (kept_row a) ws → IfOk result (λ kept. HasKept kept (kept_row a) ws) }
    ensures only { IfErr result (λ e. e ≡ Refusal.OutOfMemory) }
{
    let mut kept = BTreeMap::new(alloc);
    let mut left = rows;
    while let Some(row) = left.pop() {
        kept.insert(row.id(), row)?;
    }
    Ok(kept)
}

/// The kept write of this id.
pub(crate) fn find_write(kept: &KeptWrites, id: WriteId) -> Option<&Write>
    ensures { option_copied result ≡ option_map (λ x. x.write) (logged_at kept.now id) }
{
    match kept.get(&id) {
        Some(one) => Some(&one.write),
        None => None,
    }
}

/// Whether the kept write of this id has this commit number.
pub(crate) fn has_number(kept: &KeptWrites, id: WriteId, number: u64) -> bool
    ensures { result ≡ is_number_of number (logged_at kept.now id) }
{
    match kept.get(&id) {
        Some(one) => one.seq == number,
        None => false,
    }
}

/// Gives the kept write of this id a commit number. It answers whether there is one.
pub(crate) fn number_write(kept: &mut KeptWrites, id: WriteId, seq: u64) -> bool
    ensures found { result ≡ has_at kept.old id }
    ensures numbered { result ≡ true
        → (other : Id) → logged_at kept.new other ≡ (if same_id id other then option_map (with_number seq) (logged_at kept.old id) else logged_at kept.old other) }
{
    match kept.get_mut(&id) {
        Some(one) => {
            one.seq = seq;
            true
        }
        None => false,
    }
}

/// The rows in the order of execution.
pub(crate) fn in_run_order(alloc: Global, kept: KeptWrites) -> Result<Vec<KeptRow>, Refusal>
    ensures sorted { (a r : Replica) (inside : WriteOfRoom → Bool) → IsReplica r → HasKept kept (held_row a r) (filter inside (kept_in_order r))
        → IfOk result (λ rows. rows.items ≡ map (held_row a r) (filter inside (kept_in_order r))) }
    ensures only { IfErr result (λ e. e ≡ Refusal.OutOfMemory) }
{
    let mut rows = all_of(alloc, kept)?;
    sort_rows(&mut rows);
    Ok(rows)
}

/// The rows in the order of their ids.
fn all_of(alloc: Global, kept: KeptWrites) -> Result<Vec<KeptRow>, Refusal>
    ensures values { IfOk result (λ rows. rows.items ≡ values_of kept) }
    ensures ordered { IsOrdered id_cmp kept }
    ensures only { IfErr result (λ e. e ≡ Refusal.OutOfMemory) }
{
    let mut rows = Vec::with_capacity(alloc, kept.len())?;
    for (_, one) in kept {
        rows.push(one)?;
    }
    Ok(rows)
}
