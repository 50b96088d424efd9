ghost use Rattle.std.specs.Prelude.{◌≡◌, ◌≤◌, ◌<◌, ◌++◌, [], ◌∷◌, map, OnOk, IfOk, IfErr, IsTrue, ◌↔◌};
ghost use Rattle.std.specs.List.{All};
ghost use Rattle.mr_model.specs.Texts.{numbers_on};
ghost use Rattle.mr_model.specs.Writes.{id_of};
ghost use Rattle.mr_model.specs.Replica.{opening};
ghost use Rattle.mr_base.specs.PositionCounts.{counts_of_pairs};
ghost use Rattle.mr_tables.specs.Summary.{summary_of, IsWithin, noted_write, noted_commit, noted_commits, counts_in, stamp_next, tally_at};

use mr_base::{
    GREATEST_COMMIT, GREATEST_COUNT, GREATEST_SERVER, GREATEST_TIME, Refusal, ServerId, Stamp,
    Write, WriteId,
};
use std::alloc::Global;

/// What is known of a server: how many of its writes, the time of the last, and how many are committed.
#[derive(Clone, Copy, Debug, PartialEq, Eq)]
pub struct Tally {
    pub count: u32,
    pub last_time: u64,
    pub committed: u32,
}

/// The numbers of a replica: its server and its primary, how many commits there are and how many of them are dropped, the
/// greatest time known, and the tally of each server, found by the server's number.
#[derive(Clone, Copy, Debug)]
pub struct Summary {
    pub server: ServerId,
    pub primary: ServerId,
    pub commits: u64,
    pub dropped: u64,
    pub clock: u64,
    pub tallies: [Tally; 100],
}

impl Summary {
    /// The numbers of a replica that knows nothing yet.
    pub fn new(server: ServerId, primary: ServerId) -> Summary
        ensures { result ≡ summary_of (opening server primary) }
    {
        let none = Tally {
            count: 0,
            last_time: 0,
            committed: 0,
        };
        Summary {
            server,
            primary,
            commits: 0,
            dropped: 0,
            clock: 0,
            tallies: [none; 100],
        }
    }

    /// Whether the numbers are within the limits of positions.
    pub fn is_within(&self) -> bool
        ensures { IsTrue result ↔ IsWithin self.now }
    {
        self.commits <= GREATEST_COMMIT && are_within(&self.tallies)
    }

    /// The tally of a server.
    pub fn tally(&self, server: ServerId) -> Tally
        ensures tally { result ≡ tally_at self.now.tallies server }
        ensures in_range { server < 100 }
    {
        self.tallies[server.number() as usize]
    }

    /// The next stamp of the own server.
    pub fn next_stamp(&self) -> Result<Stamp, Refusal>
        ensures { result ≡ stamp_next self.now }
    {
        let count = self.tally(self.server).count;
        if self.clock >= GREATEST_TIME {
            return Err(Refusal::ClockExhausted);
        }
        if count >= GREATEST_COUNT {
            return Err(Refusal::CountExhausted);
        }
        // For the prover alone: a server is from 1 to 99.
        self.server.number();
        Ok(Stamp {
            server: self.server,
            n: count + 1,
            time: self.clock + 1,
        })
    }

    /// Notes a write as the last of its server.
    pub fn note_write(&mut self, stamp: Stamp)
        ensures { self.new ≡ noted_write self.old stamp }
    {
        self.clock = self.clock.max(stamp.time);
        let tally = &mut self.tallies[stamp.server.number() as usize];
        tally.count = stamp.n;
        tally.last_time = stamp.time;
    }

    /// Notes one commit more, as the last of its server.
    pub fn note_commit(&mut self, id: WriteId)
        ensures { self.new ≡ noted_commit self.old id }
    {
        self.commits = self.commits.saturating_add(1);
        let tally = &mut self.tallies[id.server.number() as usize];
        tally.committed = id.n;
    }

    /// Notes these commits, in this order.
    pub fn note_commits(&mut self, writes: &[Write])
        ensures { self.new ≡ noted_commits self.old (map id_of writes.now) }
    {
        for write in writes {
            self.note_commit(write.stamp.id());
        }
    }

    /// The counts of the servers that have a write, by rising server.
    pub fn counts(&self, alloc: Global) -> Result<Vec<(ServerId, u32)>, Refusal>
        ensures counts { IfOk result (λ counts. counts_of_pairs counts.items ≡ counts_in self.now.tallies (numbers_on 1 99)) }
        ensures only { IfErr result (λ e. e ≡ Refusal.OutOfMemory) }
    {
        let mut counts = Vec::new(alloc);
        for k in 0..GREATEST_SERVER {
            self.push_count(k + 1, &mut counts)?;
        }
        Ok(counts)
    }

    fn push_count(&self, number: u32, counts: &mut Vec<(ServerId, u32)>) -> Result<(), Refusal>
        ensures counts { OnOk result (1 ≤ number → number ≤ 99
            → counts_of_pairs counts.new.items ≡ counts_of_pairs counts.old.items ++ counts_in self.now.tallies (number ∷ [])) }
        ensures only { IfErr result (λ e. e ≡ Refusal.OutOfMemory) }
    {
        if let Some(server) = ServerId::new(number) {
            let count = self.tally(server).count;
            if count != 0 {
                counts.push((server, count))?;
            }
        }
        Ok(())
    }
}

fn are_within(tallies: &[Tally]) -> bool
    ensures { IsTrue result ↔ All (λ t. t.count ≤ 999_999_999) tallies.now }
{
    tallies.iter().all(|tally| tally.count <= GREATEST_COUNT)
}
