ghost use Rattle.std.specs.Prelude.{◌≡◌, ◌↔◌, map, IsTrue};
ghost use Rattle.std.specs.List.{list_all};
ghost use Rattle.mr_agree.specs.Agreeing.{notes, does_time_agree};
ghost use Rattle.mr_audit.specs.KeyOrders.{AreByRisingId};
ghost use Rattle.mr_audit.specs.Turns.{are_all_in_turn, are_tables_fitting, AreChains, AreInTurn};

use crate::known::vector_row;
use crate::note_rows::NoteRow;
use crate::turns::{are_fitting, is_chain};
use mr_base::WriteId;
use mr_tables::Tables;

/// Whether the last write of each server has the time that the vector tells, and the others have earlier ones.
pub(crate) fn do_last_times_agree(tables: &Tables) -> bool
    ensures { result ≡ list_all (does_time_agree tables.now) (notes tables.now) }
{
    do_row_times_agree(&tables.log, tables)
        && (do_row_times_agree(&tables.errorlog, tables)
            && do_row_times_agree(&tables.cancels, tables))
}

fn do_row_times_agree<R: NoteRow>(rows: &[R], tables: &Tables) -> bool
    ensures { result ≡ list_all (does_time_agree tables.now) (map R.note rows.now) }
{
    for row in rows {
        let note = row.note();
        if !does_time_agree(tables, note.id, note.time) {
            return false;
        }
    }
    true
}

/// The same of one row: its id and its time are enough.
fn does_time_agree(tables: &Tables, id: WriteId, time: u64) -> bool
    ensures { result ≡ does_time_agree tables.now (record { id = id; time = time; seq = 0 }) }
{
    let row = vector_row(&tables.vector, id.server);
    if id.n == row.count {
        time == row.last_time
    } else {
        time < row.last_time
    }
}

/// Whether of two rows of one write both have its time and number, and of one server's writes the later have the later ones.
pub(crate) fn are_all_in_turn(tables: &Tables) -> bool
    requires { AreByRisingId tables.now }
    ensures { result ≡ are_all_in_turn tables.now }
{
    if !are_chains(tables) {
        return false;
    }
    are_tables_fitting(tables)
}

fn are_chains(tables: &Tables) -> bool
    ensures { IsTrue result ↔ AreChains tables.now }
{
    let log = is_chain(&tables.log);
    let errors = is_chain(&tables.errorlog);
    let cancels = is_chain(&tables.cancels);
    log & errors & cancels
}

fn are_tables_fitting(tables: &Tables) -> bool
    requires { AreInTurn tables.now }
    ensures { result ≡ are_tables_fitting tables.now }
{
    are_fitting(&tables.errorlog, &tables.log)
        && (are_fitting(&tables.cancels, &tables.log)
            && are_fitting(&tables.cancels, &tables.errorlog))
}
