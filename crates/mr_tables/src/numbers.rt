ghost use Rattle.std.specs.Prelude.{◌≡◌, ◌==◌, ◌&&◌, map};
ghost use Rattle.std.specs.List.{sum_by};
ghost use Rattle.mr_model.specs.Replica.{greatest};
ghost use Rattle.mr_agree.specs.Agreeing.{does_meta_agree, do_counts_agree};

use crate::{Tables, VectorRow};

/// Whether the rows of `meta` and `vector`, which each command has, agree with each other.
pub fn do_numbers_agree(tables: &Tables) -> bool
    ensures { result ≡ (does_meta_agree tables.now && do_counts_agree tables.now) }
{
    does_meta_agree(tables) && do_counts_agree(tables)
}

/// Whether `meta` has as many commits as the servers of `vector`, their latest time, and no more dropped commits than may be.
pub fn does_meta_agree(tables: &Tables) -> bool
    ensures { result ≡ does_meta_agree tables.now }
{
    let meta = tables.meta;
    let is_drop = meta.dropped <= meta.commits
        && (meta.server != meta.primary || meta.dropped == 0);
    is_drop
        && are_committed(&tables.vector, meta.commits)
        && meta.clock == latest_time(&tables.vector)
}

/// Whether each server that has a row has a write, and no more committed ones than it has.
pub fn do_counts_agree(tables: &Tables) -> bool
    ensures { result ≡ do_counts_agree tables.now }
{
    tables
        .vector
        .iter()
        .all(|row| row.count >= 1 && row.committed <= row.count)
}

/// Whether the servers have so many committed writes, all together.
fn are_committed(rows: &[VectorRow], commits: u64) -> bool
    ensures { result ≡ (commits == sum_by (λ row. row.committed) rows.now) }
{
    let mut left = commits;
    for row in rows {
        let committed = u64::from(row.committed);
        if committed > left {
            return false;
        }
        left -= committed;
    }
    left == 0
}

/// The latest time of all servers' last writes, 0 if there is none.
fn latest_time(rows: &[VectorRow]) -> u64
    ensures { result ≡ greatest (map (λ row. row.last_time) rows.now) }
{
    let mut latest: u64 = 0;
    for row in rows {
        latest = latest.max(row.last_time);
    }
    latest
}
