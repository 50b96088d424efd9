ghost use Rattle.std.specs.Prelude.{◌≡◌, ◌||◌, ◌<◌, ◌+◌, ◌^◌, List, IsTrue, Bool, Ok, Some, true, map, filter, length, if◌then◌else◌, bytes_eq, OnOk, IfOk, IfErr};
ghost use Rattle.std.specs.Option.{option_map};
ghost use Rattle.std.specs.List.{list_all};
ghost use Rattle.mr_model.specs.Dropped.{Has};
ghost use Rattle.mr_model.specs.Exchange.{Second, is_item, Item as ItemOfBatch};
ghost use Rattle.mr_model.specs.Kept.{kept_in_order};
ghost use Rattle.mr_model.specs.Replica.{Replica, IsReplica};
ghost use Rattle.mr_model.specs.Texts.{Text};
ghost use Rattle.mr_model.specs.Writes.{Id, Write as WriteOfReplica, id_of, same_id};
ghost use Rattle.mr_model.specs.Taking.{Progress, take_items};
ghost use Rattle.mr_base.specs.Batches.{item_of};
ghost use Rattle.mr_tables.specs.Summary.{summary_of, noted_write, noted_commit};
ghost use Rattle.mr_part.specs.Answering.{NeverStore, nothing_taken};
ghost use Rattle.mr_part.specs.KeptRows.{kept_row, kept_row_with};
ghost use Rattle.mr_model.specs.Replay.{Logged};
ghost use Rattle.mr_part.specs.KeptWrites.{logged_at, has_at, with_number};
ghost use Rattle.mr_replay.specs.Seen.{has_room};
ghost use Rattle.mr_part.specs.Taken.{CoversScope, ShowsTaken, ShowsPicked, TakesItem, TakesItems, TakenPicked, logged_write_verdict, logged_commit_verdict};

use crate::batch::judge::{judge_commit, judge_write};
use crate::batch::kept_writes::{
    KeptWrites, find_write, has_number, in_run_order, kept_writes, number_write,
};
use crate::kept_rows::{KeptRow, kept_with};
use crate::room_sets::{RoomSet, add_room, unknown_rooms};
use mr_base::{CommitNumber, Item, Refusal, RoomName, Write, WriteId};
use mr_replay::Place;
use mr_tables::summary::Summary;
use std::alloc::Global;
use std::collections::BTreeSet;
use std::marker::Model;

/// The numbers and kept writes of a part, with the items of a batch that are taken so far, and the rooms of the writes that are new by
/// these. A batch is taken whole or not at all. Rooms and writes stand in ordered sets, so that an item costs a logarithm.
#[derive(Drop)]
struct Candidate {
    alloc: Global,
    summary: Summary,
    rooms: RoomSet,
    kept: KeptWrites,
}

/// What all items of a batch lead to.
#[derive(Drop)]
pub struct Reached {
    pub summary: Summary,
    /// Those that weren't known, in the order of names.
    pub rooms: Vec<RoomName>,
    /// In the order of execution.
    pub kept: Vec<KeptRow>,
}

impl Model for Reached {
    ghost use Rattle.mr_part.specs.Taken.{ReachedView};

    ghost Value = { ReachedView };

    ghost view = { λ c. record { summary = c.summary; rooms = c.rooms.items; kept = c.kept.items } };
}

/// What these numbers and kept writes are with all items, the first of which stands in line 2, and which rooms come to the known
/// ones; or why the batch is refused.
pub fn reached_with(
    alloc: Global,
    summary: Summary,
    known: &[RoomName],
    kept: Vec<KeptRow>,
    items: &[Item],
) -> Result<Reached, Refusal>
    ensures takes { (a : Replica) (inside : WriteOfReplica → Bool) → IsReplica a → IsTrue (list_all (is_item Second) (map item_of items.now)) → length items.now + 2 < 2 ^ 64
        → CoversScope a (map item_of items.now) inside → summary ≡ summary_of a → known.now ≡ a.rooms → kept.items ≡ map (kept_row a) (filter inside (kept_in_order a))
        → TakenPicked a inside (take_items (map item_of items.now) 2 (Ok (nothing_taken a))) result }
    ensures own { NeverStore result }
{
    let mut candidate = Candidate::new(alloc, summary, kept)?;
    candidate.take_all(items)?;
    let reached = candidate.reached(known)?;
    Ok(reached)
}

impl Candidate {
    /// What these numbers and kept writes are before the first item.
    fn new(alloc: Global, summary: Summary, kept: Vec<KeptRow>) -> Result<Candidate, Refusal>
        ensures begins { (a : Replica) (inside : WriteOfReplica → Bool) → IsReplica a → summary ≡ summary_of a → kept.items ≡ map (kept_row a) (filter inside (kept_in_order a))
            → IfOk result (λ c. ShowsTaken a inside c (nothing_taken a)) }
        ensures only { IfErr result (λ e. e ≡ Refusal.OutOfMemory) }
    {
        let kept = kept_writes(alloc, kept)?;
        Ok(Candidate {
            alloc,
            summary,
            rooms: BTreeSet::new(alloc),
            kept,
        })
    }

    /// Takes these items, the first of which stands in line 2, or tells why the batch is refused.
    fn take_all(&mut self, items: &[Item]) -> Result<(), Refusal>
        ensures takes { (a : Replica) (inside : WriteOfReplica → Bool) (p : Progress) → IsReplica p.replica → IsTrue (list_all (is_item Second) (map item_of items.now))
            → length items.now + 2 < 2 ^ 64 → CoversScope a (map item_of items.now) inside → ShowsTaken a inside self.old p
            → TakesItems a inside p (map item_of items.now) result self.new }
        ensures own { NeverStore result }
    {
        for (k, item) in items.iter().enumerate() {
            self.take((k as u64).saturating_add(2), item)?;
        }
        Ok(())
    }

    /// Takes an item that stands in this line, or tells why the batch is refused.
    fn take(&mut self, line: u64, item: &Item) -> Result<(), Refusal>
        ensures takes { (a : Replica) (items : List ItemOfBatch) (inside : WriteOfReplica → Bool) (p : Progress) → IsReplica p.replica → Has (item_of item.now) items → CoversScope a items inside
            → ShowsTaken a inside self.old p → TakesItem a inside line p (item_of item.now) result self.new }
        ensures own { NeverStore result }
    {
        match item {
            Item::W(write) => self.take_write(line, write),
            Item::C { seq, id } => self.take_commit(line, *seq, *id),
        }
    }

    fn take_write(&mut self, line: u64, write: &Write) -> Result<(), Refusal>
        ensures takes { (a : Replica) (items : List ItemOfBatch) (inside : WriteOfReplica → Bool) (p : Progress) → IsReplica p.replica → Has (ItemOfBatch.W write.now) items → CoversScope a items inside
            → ShowsTaken a inside self.old p → TakesItem a inside line p (ItemOfBatch.W write.now) result self.new }
        ensures own { NeverStore result }
    {
        // For the prover alone: the write is within its limits.
        write.is_within_limits();
        if !self.judge_write(line, write)? {
            return Ok(());
        }
        self.add_write(write)?;
        Ok(())
    }

    fn take_commit(&mut self, line: u64, seq: CommitNumber, id: WriteId) -> Result<(), Refusal>
        ensures takes { (a : Replica) (items : List ItemOfBatch) (inside : WriteOfReplica → Bool) (p : Progress) → IsReplica p.replica → Has (ItemOfBatch.C seq id) items → CoversScope a items inside
            → ShowsTaken a inside self.old p → TakesItem a inside line p (ItemOfBatch.C seq id) result self.new }
        ensures own { NeverStore result }
    {
        if !self.judge_commit(line, seq, id)? {
            return Ok(());
        }
        if !self.add_commit(id) {
            return Err(Refusal::Gap(line));
        }
        Ok(())
    }

    /// Whether a write in this line is new, and not one that is known or dropped.
    fn judge_write(&self, line: u64, write: &Write) -> Result<bool, Refusal>
        ensures verdict { result ≡ logged_write_verdict line self.now.summary self.now.kept write.now }
        ensures own { NeverStore result }
    {
        let there = find_write(&self.kept, write.stamp.id());
        judge_write(&self.summary, line, write, there)
    }

    /// Whether a commit in this line is new, and not one that is known or dropped.
    fn judge_commit(&self, line: u64, seq: CommitNumber, id: WriteId) -> Result<bool, Refusal>
        ensures verdict { result ≡ logged_commit_verdict line self.now.summary self.now.kept seq id }
        ensures own { NeverStore result }
        ensures in_range { id.server < 100 }
    {
        let is_there = has_number(&self.kept, id, seq.number());
        judge_commit(&self.summary, line, seq, id, is_there)
    }

    /// Adds the write, which is tentative.
    fn add_write(&mut self, write: &Write) -> Result<(), Refusal>
        ensures summary { OnOk result (self.new.summary ≡ noted_write self.old.summary write.now.stamp) }
        ensures rooms { OnOk result ((name : Text) → has_room self.new.rooms name ≡ (bytes_eq name write.now.room || has_room self.old.rooms name)) }
        ensures kept { OnOk result ((id : Id) → logged_at self.new.kept id ≡ (if same_id (id_of write.now) id then Some (kept_row_with write.now 0 Logged) else logged_at self.old.kept id)) }
        ensures only { IfErr result (λ e. e ≡ Refusal.OutOfMemory) }
    {
        add_room(self.alloc, &mut self.rooms, &write.room)?;
        let write = write.copy(self.alloc)?;
        let stamp = write.stamp;
        // It has no place yet: until it is executed it is held as logged.
        self.kept
            .insert(stamp.id(), kept_with(write, Place::Logged, 0))?;
        self.summary.note_write(stamp);
        Ok(())
    }

    /// Commits the write of this id. It answers whether there is one.
    fn add_commit(&mut self, id: WriteId) -> bool
        ensures found { result ≡ has_at self.old.kept id }
        ensures summary { self.new.summary ≡ noted_commit self.old.summary id }
        ensures rooms { self.new.rooms ≡ self.old.rooms }
        ensures kept { result ≡ true → (other : Id) → logged_at self.new.kept other
            ≡ (if same_id id other then option_map (with_number (noted_commit self.old.summary id).commits) (logged_at self.old.kept id) else logged_at self.old.kept other) }
    {
        self.summary.note_commit(id);
        number_write(&mut self.kept, id, self.summary.commits)
    }

    /// The rooms that aren't among the known ones, and the writes, in their orders.
    fn reached(self, known: &[RoomName]) -> Result<Reached, Refusal>
        ensures reached { (a : Replica) (inside : WriteOfReplica → Bool) (p : Progress) → IsReplica p.replica → known.now ≡ a.rooms → ShowsTaken a inside self p → IfOk result (λ x. ShowsPicked a inside x p) }
        ensures only { IfErr result (λ e. e ≡ Refusal.OutOfMemory) }
    {
        let Candidate {
            alloc,
            summary,
            rooms,
            kept,
        } = self;
        let rooms = unknown_rooms(alloc, known, rooms)?;
        let kept = in_run_order(alloc, kept)?;
        Ok(Reached {
            summary,
            rooms,
            kept,
        })
    }
}
