ghost use Rattle.std.specs.Prelude.{◌≡◌, ◌&&◌, ◌||◌, map, bytes_eq, IfOk, OnOk, IfErr};
ghost use Rattle.mr_model.specs.Texts.{Text};
ghost use Rattle.mr_model.specs.Writes.{Id};
ghost use Rattle.mr_base.specs.Batches.{item_of};
ghost use Rattle.mr_part.specs.Sets.{has_id};
ghost use Rattle.mr_replay.specs.Seen.{has_room};
ghost use Rattle.mr_part.specs.Touched.{commits_id, writes_in, IsTouchedBy};

use crate::room_sets::{RoomSet, add_room};
use mr_base::{Item, Refusal, RoomName, WriteId};
use std::alloc::Global;
use std::collections::BTreeSet;

/// Ids of writes.
pub type IdSet = BTreeSet<WriteId>;

/// What a batch touches by itself, as far as it doesn't depend on the kept writes.
#[derive(Drop)]
pub struct Touched {
    /// The ids that its new commits name.
    pub committed: IdSet,
    /// The rooms of its writes.
    pub rooms: RoomSet,
}

impl Touched {
    /// What these items touch, if so many commits are known.
    pub fn by(alloc: Global, items: &[Item], commits: u64) -> Result<Touched, Refusal>
        ensures touched { IfOk result (λ touched. IsTouchedBy touched commits (map item_of items.now)) }
        ensures only { IfErr result (λ e. e ≡ Refusal.OutOfMemory) }
    {
        let mut touched = Touched {
            committed: BTreeSet::new(alloc),
            rooms: BTreeSet::new(alloc),
        };
        for item in items {
            touched.add(alloc, item, commits)?;
        }
        Ok(touched)
    }

    /// Adds what an item touches.
    fn add(&mut self, alloc: Global, item: &Item, commits: u64) -> Result<(), Refusal>
        ensures committed { OnOk result ((id : Id) → has_id self.new.committed id ≡ (commits_id commits id (item_of item.now) || has_id self.old.committed id)) }
        ensures rooms { OnOk result ((room : Text) → has_room self.new.rooms room ≡ (writes_in room (item_of item.now) || has_room self.old.rooms room)) }
        ensures only { IfErr result (λ e. e ≡ Refusal.OutOfMemory) }
    {
        match item {
            Item::W(write) => add_room(alloc, &mut self.rooms, &write.room),
            Item::C { seq, id } => {
                if seq.number() > commits {
                    self.committed.insert(*id)?;
                }
                Ok(())
            }
        }
    }
}

/// Adds the room of a write, if its id is one of these.
pub fn add_if_named(
    alloc: Global,
    rooms: &mut RoomSet,
    ids: &IdSet,
    id: WriteId,
    room: &RoomName,
) -> Result<(), Refusal>
    ensures rooms { OnOk result ((name : Text) → has_room rooms.new name ≡ ((has_id ids.now id && bytes_eq name room.now) || has_room rooms.old name)) }
    ensures only { IfErr result (λ e. e ≡ Refusal.OutOfMemory) }
{
    if ids.contains(&id) {
        add_room(alloc, rooms, room)?;
    }
    Ok(())
}
