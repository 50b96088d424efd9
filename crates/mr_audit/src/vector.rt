ghost use Rattle.std.specs.Prelude.{◌≡◌, [], length};
ghost use Rattle.mr_agree.specs.Agreeing.{vector_in};
ghost use Rattle.mr_audit.specs.Tallies.{TellTheVector};

use mr_tables::summary::{Summary, Tally};
use mr_tables::{Tables, VectorRow};

/// The tally of each server, as its first row in `vector` has it, beside the server and the primary of `meta`, whose other numbers
/// aren't taken over.
pub fn summary_of(tables: &Tables) -> Summary
    ensures { TellTheVector tables.now.vector result.tallies }
{
    let meta = tables.meta;
    let mut summary = Summary::new(meta.server, meta.primary);
    note_tallies(&mut summary.tallies, &tables.vector);
    summary
}

/// Notes the rows from the last one on, so that the first of a server stays.
fn note_tallies(tallies: &mut [Tally; 100], rows: &[VectorRow])
    ensures { length tallies.old ≡ 100 → TellTheVector [] tallies.old → TellTheVector rows.now tallies.new }
{
    for k in 0..rows.len() {
        let row = rows[rows.len() - 1 - k];
        tallies[row.server.number() as usize] = Tally {
            count: row.count,
            last_time: row.last_time,
            committed: row.committed,
        };
    }
}
