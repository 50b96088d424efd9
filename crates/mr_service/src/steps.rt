use crate::commands::Local;
use crate::replies::Reply;
use mr_base::{LineCount, ServerId};

/// A step of a world of replicas.
#[derive(Debug, Drop)]
pub enum Step {
    /// Adds a replica with this server; the first one is the primary.
    Add(ServerId),
    /// Gives the replica with this server a command.
    Do(ServerId, Local),
    /// Makes the batch of one replica for the present position of another, of that many lines at most. Its bytes get the next
    /// number, from 1 on.
    Make {
        from: ServerId,
        to: ServerId,
        max_lines: LineCount,
    },
    /// Gives the first bytes of a batch to a replica, or all if it has no more.
    Deliver {
        batch: u64,
        to: ServerId,
        bytes: u64,
    },
}

/// What is replied to a step.
#[derive(Debug, Drop)]
pub enum StepReply {
    Added,
    /// The server was added before.
    There,
    /// No replica has the server.
    NoReplica,
    /// No batch has the number.
    NoBatch,
    /// The number of the batch that was made, and how many bytes it has.
    Made { number: u64, bytes: u64 },
    /// What the replica replied to a command.
    Said(Reply),
}
