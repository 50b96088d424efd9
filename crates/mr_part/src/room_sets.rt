ghost use Rattle.std.specs.Prelude.{◌≡◌, ◌&&◌, ◌||◌, not, bytes_eq, OnOk, IfOk, IfErr};
ghost use Rattle.std.specs.List.{list_any};
ghost use Rattle.std.specs.BTreeSet.{IsOrdered};
ghost use Rattle.std.specs.Cmp.Lexicographic.{slice_cmp};
ghost use Rattle.std.specs.Ordering.{nat_cmp};
ghost use Rattle.mr_model.specs.Texts.{Text};
ghost use Rattle.mr_part.specs.Sets.{IsSetOf};
ghost use Rattle.mr_replay.specs.Seen.{has_room};

use mr_base::{Refusal, RoomName};
use std::alloc::Global;
use std::collections::BTreeSet;

/// Rooms, each once, in the order of names.
pub type RoomSet = BTreeSet<RoomName>;

/// These rooms as a set.
pub fn room_set(alloc: Global, rooms: &[RoomName]) -> Result<RoomSet, Refusal>
    ensures set { IfOk result (λ set. IsSetOf set rooms.now) }
    ensures only { IfErr result (λ e. e ≡ Refusal.OutOfMemory) }
{
    let mut set = BTreeSet::new(alloc);
    for room in rooms {
        add_room(alloc, &mut set, room)?;
    }
    Ok(set)
}

/// Adds the room, unless it is there.
pub(crate) fn add_room(alloc: Global, set: &mut RoomSet, room: &RoomName) -> Result<(), Refusal>
    ensures rooms { OnOk result ((name : Text) → has_room set.new name ≡ (bytes_eq name room.now || has_room set.old name)) }
    ensures only { IfErr result (λ e. e ≡ Refusal.OutOfMemory) }
{
    if !set.contains(room) {
        set.insert(room.copy(alloc)?)?;
    }
    Ok(())
}

/// The rooms of a set, as a list.
pub fn names_of(alloc: Global, set: RoomSet) -> Result<Vec<RoomName>, Refusal>
    ensures names { IfOk result (λ names. names.items ≡ set.keys) }
    ensures ordered { IsOrdered (slice_cmp nat_cmp) set }
    ensures only { IfErr result (λ e. e ≡ Refusal.OutOfMemory) }
{
    let mut names = Vec::with_capacity(alloc, set.len())?;
    for name in set {
        names.push(name)?;
    }
    Ok(names)
}

/// Those rooms of a set that are not among the known ones, in the order of names. Nothing is copied, and each known room costs a
/// logarithm of how many the set has.
pub(crate) fn unknown_rooms(
    alloc: Global,
    known: &[RoomName],
    rooms: RoomSet,
) -> Result<Vec<RoomName>, Refusal>
    ensures unknown { IfOk result (λ unknown. (name : Text) → list_any (bytes_eq name) unknown.items ≡ (not (list_any (bytes_eq name) known.now) && has_room rooms name)) }
    ensures only { IfErr result (λ e. e ≡ Refusal.OutOfMemory) }
{
    let mut left = rooms;
    for room in known {
        left.remove(room);
    }
    let unknown = names_of(alloc, left)?;
    Ok(unknown)
}
