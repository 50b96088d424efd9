ghost use Rattle.std.specs.Prelude.{◌≡◌, OnOk, IfErr, IsTrue, Some};
ghost use Rattle.mr_replay.specs.declared.index.IndexKey.{IndexKey as Key};
ghost use Rattle.mr_replay.specs.Index.{padded, key_of, first_key, last_key, key_if_taken, has, Grows, IsNoted};

use crate::{Row, Standing, Trace};
use mr_base::{Day, Refusal, RoomName, ServerId, Slot, WriteId};
use std::alloc::AllocError;
use std::collections::BTreeSet;

/// The bookings of one day of one room stand together in the order of these keys. The room's name is filled up with zeros.
/// A key has all that its booking takes, so a row and the one that takes its place can both be noted.
#[derive(Clone, Copy, Debug, PartialEq, Eq, PartialOrd, Ord)]
pub(crate) struct IndexKey {
    pub day: Day,
    pub room: [u8; 16],
    /// 1 for a booking; 0 in front of the bookings of the room's day, and 2 behind them.
    pub edge: u8,
    pub id: WriteId,
    pub slot: Slot,
    /// In minutes.
    pub length: u32,
}

/// The bookings of a board, those that a cancel took back too, by day and room.
pub(crate) type Index = BTreeSet<IndexKey>;

/// Notes the row, if it is that of a booking that took its slot.
pub(crate) fn note(index: &mut Index, id: WriteId, row: &Row) -> Result<(), Refusal>
    ensures noted { OnOk result (IsNoted index.new id row.now) }
    ensures grows { Grows index.old index.new }
    ensures only { IfErr result (λ e. e ≡ Refusal.OutOfMemory) }
{
    if let Some(key) = key_if_taken(id, row) {
        index.insert(key)?;
    }
    Ok(())
}

/// Takes the key out, if there is one and it isn't the one that stays.
pub(crate) fn forget(index: &mut Index, key: Option<IndexKey>, stays: Option<IndexKey>)
    ensures { (k : Key) → (key ≡ Some k → stays ≡ Some k) → IsTrue (has index.old k) → IsTrue (has index.new k) }
{
    if let Some(gone) = key {
        take_out(index, gone, stays);
    }
}

/// Takes this key out, if it isn't the one that stays.
fn take_out(index: &mut Index, key: IndexKey, stays: Option<IndexKey>)
    ensures { (k : Key) → (key ≡ k → stays ≡ Some k) → IsTrue (has index.old k) → IsTrue (has index.new k) }
{
    if stays != Some(key) {
        index.remove(&key);
    }
}

/// Where a booking of the room stands.
fn key_of(id: WriteId, room: &RoomName, slot: Slot, length: u32) -> IndexKey
    ensures { result ≡ key_of id room.now slot length }
{
    IndexKey {
        day: slot.day,
        room: padded(room),
        edge: 1,
        id,
        slot,
        length,
    }
}

/// Where the row of this id stands, if it is that of a booking that took its slot.
pub(crate) fn key_if_taken(id: WriteId, row: &Row) -> Option<IndexKey>
    ensures { result ≡ key_if_taken id row.now }
{
    match &row.trace {
        Trace::OfBooking {
            slot,
            length,
            standing,
            ..
        } => {
            if *standing == Standing::InErrorLog {
                return None;
            }
            Some(key_of(id, &row.room, *slot, *length))
        }
        Trace::OfCancel { .. } => None,
    }
}

/// The keys in front of all bookings of the slot's day in this room, and behind them.
pub(crate) fn ends_of(slot: Slot, room: &RoomName) -> (IndexKey, IndexKey)
    ensures first { result.0 ≡ first_key slot room.now }
    ensures last { result.1 ≡ last_key slot room.now }
{
    let first = IndexKey {
        day: slot.day,
        room: padded(room),
        edge: 0,
        id: WriteId {
            server: ServerId::new(1).unwrap(),
            n: 1,
        },
        slot,
        length: 0,
    };
    (first, IndexKey { edge: 2, ..first })
}

/// The name, with zeros up to 16 bytes.
pub fn padded(room: &RoomName) -> [u8; 16]
    ensures { result ≡ padded room.now }
{
    let name = room.as_str().as_bytes();
    let mut bytes = [0; 16];
    bytes[..name.len()].copy_from_slice(name);
    bytes
}
