use crate::{CommitNumber, Refusal, ServerId, Version, Write, WriteId};
use std::marker::Model;

/// A line of a batch: a write, or a commit of a write that is named.
#[derive(Debug, Drop)]
pub enum Item {
    W(Write),
    C { seq: CommitNumber, id: WriteId },
}

/// How a batch ends: all is there, more is held back, or the text was cut before its end.
#[derive(Clone, Copy, Debug, PartialEq, Eq)]
pub enum Ending {
    Complete,
    More,
    Cut,
}

/// Who made a batch, and the primary of its replicas.
#[derive(Clone, Copy, Debug, PartialEq, Eq)]
pub struct Header {
    pub from: ServerId,
    pub primary: ServerId,
}

/// What one replica hands another: the version of its text, its header, the lines, and how they end. Each
/// write is one that its version can say. Without a header it is of the first version, has no items and was cut.
#[derive(Debug, Drop)]
pub struct Batch {
    pub version: Version,
    pub header: Option<Header>,
    pub items: Vec<Item>,
    pub ending: Ending,
}

impl Model for Batch {
    ghost use Rattle.std.specs.Prelude.{IsTrue};
    ghost use Rattle.mr_model.specs.Exchange.{Batch as BatchOfLines, is_batch};
    ghost use Rattle.mr_base.specs.Batches.{batch_seen};

    ghost Value = { BatchOfLines };

    ghost view = { λ b. batch_seen b.version b.header b.items.items b.ending };

    ghost invariant = { λ b. IsTrue (is_batch (batch_seen b.version b.header b.items.items b.ending)) };
}

impl Batch {
    ghost use Rattle.std.specs.Prelude.{◌≡◌, Some, [], map, IsTrue};
    ghost use Rattle.std.specs.List.{list_all};
    ghost use Rattle.mr_model.specs.Exchange.{no_lines, is_item, is_batch};
    ghost use Rattle.mr_base.specs.Answers.{ok_if};
    ghost use Rattle.mr_base.specs.Versions.{version_of};
    ghost use Rattle.mr_base.specs.Batches.{item_of, batch_seen};

    /// The batch of these items under this header, if this version of the exchange text can say each of them. The second can say
    /// all.
    pub fn new(
        version: Version,
        header: Header,
        items: Vec<Item>,
        ending: Ending,
    ) -> Result<Batch, Refusal>
        ensures { result ≡ ok_if (list_all (is_item (version_of version)) (map item_of items.items))
            (batch_seen version (Some header) items.items ending) Refusal.NeedsVersion2 }
    {
        if !are_in_version(version, items.as_slice()) {
            return Err(Refusal::NeedsVersion2);
        }
        Ok(Batch::of_said(version, header, items, ending))
    }

    /// The batch of items that this version of the exchange text can say, under this header.
    pub fn of_said(version: Version, header: Header, items: Vec<Item>, ending: Ending) -> Batch
        requires { IsTrue (list_all (is_item (version_of version)) (map item_of items.items)) }
        ensures { result ≡ batch_seen version (Some header) items.items ending }
    {
        // For the prover alone: servers are from 1 to 99.
        header.from.number();
        header.primary.number();
        Batch {
            version,
            header: Some(header),
            items,
            ending,
        }
    }

    /// The batch of which no whole line came. The list is to be empty.
    pub fn without_header(items: Vec<Item>) -> Batch
        requires { items.items ≡ [] }
        ensures { result ≡ no_lines }
    {
        Batch {
            version: Version::First,
            header: None,
            items,
            ending: Ending::Cut,
        }
    }

    /// Says to proofs that every batch is within the limits. It does nothing.
    pub fn is_within_limits(&self)
        ensures { IsTrue (is_batch self.now) }
    {
        let _ending = self.ending;
    }
}

ghost use Rattle.std.specs.Prelude.{◌≡◌, map};
ghost use Rattle.std.specs.List.{list_all};
ghost use Rattle.mr_model.specs.Exchange.{is_item};
ghost use Rattle.mr_base.specs.Versions.{version_of};
ghost use Rattle.mr_base.specs.Batches.{item_of};

/// Whether this version of the exchange text can say all these items.
fn are_in_version(version: Version, items: &[Item]) -> bool
    ensures { result ≡ list_all (is_item (version_of version)) (map item_of items.now) }
{
    for item in items {
        if !is_in_version(version, item) {
            return false;
        }
    }
    true
}

/// Whether this version of the exchange text can say the item. Both can say every commit.
fn is_in_version(version: Version, item: &Item) -> bool
    ensures { result ≡ is_item (version_of version) (item_of item.now) }
{
    match item {
        Item::W(write) => {
            // For the prover alone: the write is within its limits.
            write.is_within_limits();
            write.is_in_version(version)
        }
        Item::C { seq, id } => {
            // For the prover alone: the commit number is within its limits.
            seq.number();
            let _count = id.n;
            true
        }
    }
}
