ghost use Rattle.std.specs.Prelude.{◌≡◌, ◌↔◌, ◌&&◌, true, false, Ok, IfOk, IfErr, IsTrue};
ghost use Rattle.mr_model.specs.Changes.{AreInKeyOrder};
ghost use Rattle.mr_agree.specs.Agreeing.{agree};
ghost use Rattle.mr_agree.specs.Agreeing as agreeing;
ghost use Rattle.mr_audit.specs.KeyOrders.{AreByRisingId};
ghost use Rattle.mr_audit.specs.Apart as sorted_parts;
ghost use Rattle.mr_audit.specs.Parts.{do_parts_agree};

use crate::apart_rows::are_rows_apart;
use crate::cancels::do_cancels_agree;
use crate::commit_numbers::are_numbers_single;
use crate::id_rows::are_rising;
use crate::ids::do_ids_agree;
use crate::limits::do_limits_agree;
use crate::log::{does_log_agree, is_log_whole};
use crate::marks::do_marks_agree;
use crate::places::do_places_agree;
use crate::rooms::do_rooms_agree;
use crate::spans::do_spans_agree;
use crate::times::{are_all_in_turn, do_last_times_agree};
use crate::vector::summary_of;
use mr_base::Refusal;
use mr_tables::Tables;
use mr_tables::numbers::{do_counts_agree, does_meta_agree};
use std::alloc::Global;

/// Whether the rows of the tables agree with each other, and those of writes stand in the order of their ids, as both do if the
/// tables stand for a replica. It looks each row up in other tables, and takes a word of memory for each booking, and 24 bytes for
/// each row of `log`, `errorlog` and `cancels`.
pub fn do_tables_agree(alloc: Global, tables: &Tables) -> Result<bool, Refusal>
    ensures agree { IfOk result (λ yes. IsTrue yes ↔ ((agree tables.now ≡ true) × AreInKeyOrder tables.now)) }
    ensures only { IfErr result (λ e. e ≡ Refusal.OutOfMemory) }
    // All parts but two are tested without memory.
    ensures due { do_parts_agree tables.now ≡ false → result ≡ Ok false }
{
    if !are_in_key_order(tables) {
        return Ok(false);
    }
    if !do_parts_agree(tables) {
        return Ok(false);
    }
    do_sorted_parts_agree(alloc, tables)
}

/// Whether the rows of each table of writes stand in the order of their ids.
fn are_in_key_order(tables: &Tables) -> bool
    ensures { IsTrue result ↔ AreByRisingId tables.now }
{
    let log = are_rising(&tables.log);
    let bookings = are_rising(&tables.booking);
    let errors = are_rising(&tables.errorlog);
    let cancelled = are_rising(&tables.cancelled);
    let cancels = are_rising(&tables.cancels);
    log & bookings & errors & cancelled & cancels
}

/// Whether the parts agree that need no memory.
fn do_parts_agree(tables: &Tables) -> bool
    requires { AreByRisingId tables.now }
    ensures { result ≡ do_parts_agree tables.now }
{
    let summary = summary_of(tables);
    let meta = does_meta_agree(tables);
    let counts = do_counts_agree(tables);
    let ids = do_ids_agree(tables);
    let marks = do_marks_agree(tables, &summary);
    let rooms = do_rooms_agree(tables);
    let log = does_log_agree(tables);
    let whole = is_log_whole(tables);
    let times = do_last_times_agree(tables);
    let turns = are_all_in_turn(tables);
    let places = do_places_agree(tables);
    let cancels = do_cancels_agree(tables);
    let spans = do_spans_agree(tables);
    let limits = do_limits_agree(tables);
    meta & counts
        & ids
        & marks
        & rooms
        & log
        & whole
        & times
        & turns
        & places
        & cancels
        & spans
        & limits
}

/// Whether no bookings overlap and no commit number is that of two writes.
fn do_sorted_parts_agree(alloc: Global, tables: &Tables) -> Result<bool, Refusal>
    requires { do_parts_agree tables.now ≡ true }
    ensures agree { IfOk result (λ yes. yes ≡ (agreeing.are_rows_apart tables.now.booking && sorted_parts.are_numbers_single tables.now)) }
    ensures only { IfErr result (λ e. e ≡ Refusal.OutOfMemory) }
{
    let apart = are_rows_apart(alloc, &tables.booking)?;
    let single = are_numbers_single(alloc, tables)?;
    Ok(apart & single)
}
