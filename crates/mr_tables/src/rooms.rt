ghost use Rattle.std.specs.Prelude.{◌≡◌, bytes_eq, IfOk, IfErr};
ghost use Rattle.std.specs.List.{list_any};
ghost use Rattle.mr_model.specs.Replica.{text_before};

use mr_base::{Refusal, RoomName};
use std::alloc::Global;

/// Whether the room is among these.
pub fn is_known(rooms: &[RoomName], room: &RoomName) -> bool
    ensures { result ≡ list_any (bytes_eq room.now) rooms.now }
{
    for name in rooms {
        if *room == *name {
            return true;
        }
    }
    false
}

/// Whether the name stands before the other, by the first byte that differs.
pub fn is_before(name: &RoomName, other: &RoomName) -> bool
    ensures { result ≡ text_before name.now other.now }
{
    *name < *other
}

/// Equal names in the same order.
pub fn copies_of(alloc: Global, rooms: &[RoomName]) -> Result<Vec<RoomName>, Refusal>
    ensures copies { IfOk result (λ copies. copies.items ≡ rooms.now) }
    ensures only { IfErr result (λ e. e ≡ Refusal.OutOfMemory) }
{
    let mut copies = Vec::new(alloc);
    for room in rooms {
        copies.push(room.copy(alloc)?)?;
    }
    Ok(copies)
}
