ghost use Rattle.std.specs.Prelude.{◌≡◌};
ghost use Rattle.std.specs.List.{list_any};
ghost use Rattle.mr_model.specs.Writes.{same_id};
ghost use Rattle.mr_agree.specs.Ids.{has_place_of};
ghost use Rattle.mr_replica.specs.Taken.{is_id_taken};

use mr_base::WriteId;
use mr_tables::{IdRow, Tables};

/// Whether a row of `log`, or one of what became of writes, has the id that a command would give, if it gives one. All rows are looked at.
pub fn is_taken(tables: &Tables, id: Option<WriteId>) -> bool
    ensures { result ≡ is_id_taken id tables.now }
{
    match id {
        Some(id) => has(&tables.log, id) || has_place_of(tables, id),
        None => false,
    }
}

/// Whether a row of what became of writes has this id.
fn has_place_of(tables: &Tables, id: WriteId) -> bool
    ensures { result ≡ has_place_of id tables.now }
{
    (has(&tables.booking, id) || has(&tables.errorlog, id))
        || (has(&tables.cancelled, id) || has(&tables.cancels, id))
}

/// Whether one of these rows has this id.
fn has<R: IdRow>(rows: &[R], id: WriteId) -> bool
    ensures { result ≡ list_any (λ r. same_id (R.id r) id) rows.now }
{
    rows.iter().any(|row| row.write_id() == id)
}
