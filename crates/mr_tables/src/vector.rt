ghost use Rattle.std.specs.Prelude.{◌≡◌, ◌++◌, ℕ, map, OnOk, IfOk, IfErr};
ghost use Rattle.mr_model.specs.Texts.{numbers_on};
ghost use Rattle.mr_model.specs.Replica.{Replica, IsReplica};
ghost use Rattle.mr_model.specs.Tables.{tables_of};
ghost use Rattle.mr_tables.specs.Summary.{summary_of};
ghost use Rattle.mr_tables.specs.Tallied.{tallied};
ghost use Rattle.mr_tables.specs.Written.{changed_tally, changed_tallies};

use crate::summary::{Summary, Tally};
use crate::{Tables, VectorRow};
use mr_base::{Refusal, ServerId};
use std::alloc::Global;

/// The rows of the servers that have a write in the new summary and whose tally isn't that in the old one.
pub fn changed_tallies(
    alloc: Global,
    old: &Summary,
    new: &Summary,
) -> Result<Vec<VectorRow>, Refusal>
    ensures rows { IfOk result (λ rows. rows.items ≡ changed_tallies old.now.tallies new.now.tallies) }
    ensures only { IfErr result (λ e. e ≡ Refusal.OutOfMemory) }
{
    let mut rows = Vec::new(alloc);
    for number in 1..100 {
        if let Some(server) = ServerId::new(number) {
            push_changed(&mut rows, old, new, server)?;
        }
    }
    Ok(rows)
}

/// Adds the row of a server, if it has a write in the new summary and its tally isn't that in the old one.
fn push_changed(
    rows: &mut Vec<VectorRow>,
    old: &Summary,
    new: &Summary,
    server: ServerId,
) -> Result<(), Refusal>
    ensures rows { OnOk result (rows.new.items ≡ rows.old.items ++ changed_tally old.now.tallies new.now.tallies server) }
    ensures only { IfErr result (λ e. e ≡ Refusal.OutOfMemory) }
{
    let was = old.tally(server);
    let tally = new.tally(server);
    if was == tally || tally.count == 0 {
        return Ok(());
    }
    rows.push(VectorRow {
        server,
        count: tally.count,
        last_time: tally.last_time,
        committed: tally.committed,
    })?;
    Ok(())
}

/// The numbers that the tables tell: those of `meta`, and the tallies of the servers that have a row.
pub fn summary_of(tables: &Tables) -> Summary
    ensures { (a : Replica) → IsReplica a → tables.now.meta ≡ (tables_of a).meta → tables.now.vector ≡ (tables_of a).vector → result ≡ summary_of a }
{
    let meta = tables.meta;
    let mut summary = Summary::new(meta.server, meta.primary);
    summary.commits = meta.commits;
    summary.dropped = meta.dropped;
    summary.clock = meta.clock;
    note_tallies(&mut summary.tallies, &tables.vector);
    summary
}

fn note_tallies(tallies: &mut [Tally; 100], rows: &[VectorRow])
    ensures { (f : ℕ → Tally) → tallies.old ≡ map f (numbers_on 0 100) → tallies.new ≡ map (tallied rows.now f) (numbers_on 0 100) }
{
    for row in rows {
        tallies[row.server.number() as usize] = Tally {
            count: row.count,
            last_time: row.last_time,
            committed: row.committed,
        };
    }
}
