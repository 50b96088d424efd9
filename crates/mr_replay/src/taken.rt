ghost use Rattle.std.specs.Prelude.{◌≡◌};
ghost use Rattle.std.specs.List.{list_any};
ghost use Rattle.std.specs.Map.{values_of};
ghost use Rattle.mr_model.specs.Replay.{is_free};
ghost use Rattle.mr_replay.specs.Rows.{bookings_of, is_in_the_way};
ghost use Rattle.mr_replay.specs.Index.{IsIndexed, way_at};
ghost use Rattle.mr_replay.specs.Hidden.{shown};

use crate::Row;
use crate::index::{Index, ends_of};
use crate::rows::{Hidden, Rows};
use mr_base::{RoomName, Slot, WriteId, overlaps};
use std::collections::{BTreeMap, BTreeSet};

/// Whether no booking of the room that stands overlaps the slot, those of the hidden ids aside.
pub(crate) fn is_free(
    rows: &Rows,
    index: &Index,
    hidden: &Hidden,
    room: &RoomName,
    slot: Slot,
    length: u32,
) -> bool
    requires { IsIndexed rows.now.entries index.now }
    ensures { result ≡ is_free (bookings_of room.now (shown hidden.now rows.now.entries)) length slot }
{
    !is_taken(rows, index, hidden, room, slot, length)
}

/// Whether some booking of the room that stands overlaps the slot, those of the hidden ids aside.
fn is_taken(
    rows: &Rows,
    index: &Index,
    hidden: &Hidden,
    room: &RoomName,
    slot: Slot,
    length: u32,
) -> bool
    requires { IsIndexed rows.now.entries index.now }
    ensures { result ≡ list_any (is_in_the_way room.now slot length) (values_of (shown hidden.now rows.now.entries)) }
{
    let (first, last) = ends_of(slot, room);
    for key in index.range(first..=last) {
        if overlaps(slot, key.slot, length, key.length)
            && is_row_in_the_way(rows, hidden, key.id, room, slot, length)
        {
            return true;
        }
    }
    false
}

/// Whether the row of this id is a booking of the room that stands and overlaps the slot, and isn't hidden.
fn is_row_in_the_way(
    rows: &Rows,
    hidden: &Hidden,
    id: WriteId,
    room: &RoomName,
    slot: Slot,
    length: u32,
) -> bool
    ensures { result ≡ way_at room.now slot length (shown hidden.now rows.now.entries) id }
{
    if hidden.contains(&id) {
        return false;
    }
    match rows.get(&id) {
        Some(row) => row.is_in_the_way(room, slot, length),
        None => false,
    }
}
