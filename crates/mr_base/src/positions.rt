ghost use Rattle.std.specs.Prelude.{◌≡◌, ◌&&◌, IsTrue};
ghost use Rattle.std.specs.List.{list_all};
ghost use Rattle.mr_model.specs.Texts.{only_if};
ghost use Rattle.mr_model.specs.Writes.{is_server, is_count};
ghost use Rattle.mr_model.specs.Positions.{Position as PositionOfReplica, is_position, are_rising};
ghost use Rattle.mr_base.specs.PositionCounts.{counts_of_pairs, are_rising_above};
ghost use Rattle.mr_base.specs.Versions.{version_of};

use crate::{GREATEST_COMMIT, GREATEST_COUNT, ServerId, Version};
use std::marker::Model;

/// What a replica has: how many commits, and how many writes of each server of which it has one, by rising server. And the
/// version of the batches that it asks for.
#[derive(Debug, Drop)]
pub struct Position {
    pub version: Version,
    pub server: ServerId,
    pub primary: ServerId,
    pub commits: u64,
    pub counts: Vec<(ServerId, u32)>,
}

impl Model for Position {
    ghost Value = { PositionOfReplica };

    ghost view = { λ p. record {
      version = version_of p.version;
      server = p.server;
      primary = p.primary;
      commits = p.commits;
      counts = counts_of_pairs p.counts.items;
    } };

    ghost invariant = { λ p. IsTrue (is_position (record {
      version = version_of p.version;
      server = p.server;
      primary = p.primary;
      commits = p.commits;
      counts = counts_of_pairs p.counts.items;
    })) };
}

impl Position {
    /// The position, if the number of commits and the counts are within the limits and the servers rise.
    pub fn new(
        version: Version,
        server: ServerId,
        primary: ServerId,
        commits: u64,
        counts: Vec<(ServerId, u32)>,
    ) -> Option<Position>
        ensures { let p : PositionOfReplica = record {
          version = version_of version;
          server = server;
          primary = primary;
          commits = commits;
          counts = counts_of_pairs counts.items;
        } in result ≡ only_if (is_position p) p }
    {
        // For the prover alone: servers are from 1 to 99.
        server.number();
        primary.number();
        if commits > GREATEST_COMMIT
            || !counts_are_within_limits(counts.as_slice())
            || !servers_rise(counts.as_slice())
        {
            return None;
        }
        Some(Position {
            version,
            server,
            primary,
            commits,
            counts,
        })
    }

    /// Says to proofs that every position is within the limits. It does nothing.
    pub fn is_within_limits(&self)
        ensures { IsTrue (is_position self.now) }
    {
        let _commits = self.commits;
    }
}

fn counts_are_within_limits(counts: &[(ServerId, u32)]) -> bool
    ensures { result ≡ list_all (λ c. is_server c.server && is_count c.count) (counts_of_pairs counts.now) }
{
    for (server, n) in counts {
        // For the prover alone: a server is from 1 to 99.
        server.number();
        if *n < 1 || *n > GREATEST_COUNT {
            return false;
        }
    }
    true
}

fn servers_rise(counts: &[(ServerId, u32)]) -> bool
    ensures { result ≡ are_rising (counts_of_pairs counts.now) }
{
    match counts.split_first() {
        Some((first, others)) => rise_from(first.0, others),
        None => true,
    }
}

// Whether the servers rise, the first of them above this one.
fn rise_from(first: ServerId, counts: &[(ServerId, u32)]) -> bool
    ensures { result ≡ are_rising_above first (counts_of_pairs counts.now) }
{
    let mut last = first;
    for (server, _) in counts {
        if *server <= last {
            return false;
        }
        last = *server;
    }
    true
}
