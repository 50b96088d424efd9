// Two replicas that exchange texts. How the texts travel is the caller's: here they are handed over in memory.

ghost use Rattle.std.specs.Prelude.{◌≡◌, IfOk};
ghost use Rattle.mr_model.specs.Replica.{Replica, IsReplica};
ghost use Rattle.mr_model.specs.Positions.{position_of, position_text};
ghost use Rattle.mr_model.specs.Tables.{Stands};
ghost use Rattle.mr_service.specs.Asked.{reply_of};
ghost use Rattle.mr_web_tests.specs.HandedOver.{IsTextFor, IsGiven};

use crate::uses::asking::{ask, order, tell};
use crate::uses::booking::{booking, sheet};
use mr_base::{LineCount, Refusal};
use mr_model::texts::{exchange_law, position_law};
use mr_service::{Command, Local, Reply, Service, reply_text};
use mr_store::ListKeeper;
use std::alloc::Global;

/// The text of the replica's position, which says what it has. The question leaves the replica as it is.
pub(crate) fn position_said(
    alloc: Global,
    service: &mut Service<ListKeeper>,
) -> Result<Vec<u8>, Refusal>
    ensures text { (a : Replica) → Stands service.old.tables a → IfOk result (λ text. text.items ≡ position_text (position_of a)) }
    ensures same { (a : Replica) → Stands service.old.tables a → Stands service.new.tables a }
{
    let reply = ask(service, &Command::Local(Local::Position))?;
    reply_text(alloc, &reply)
}

/// The text of what a replica at this position lacks, in so many lines at most.
pub(crate) fn batch_said(
    alloc: Global,
    service: &mut Service<ListKeeper>,
    position: Vec<u8>,
    max_lines: LineCount,
) -> Result<Vec<u8>, Refusal>
    ensures text { (a b : Replica) → Stands service.old.tables a → IsReplica b → position.items ≡ position_text (position_of b)
        → IfOk result (λ text. IsTextFor a b max_lines text.items) }
    ensures same { (a : Replica) → Stands service.old.tables a → Stands service.new.tables a }
{
    position_law();
    let question = Command::Local(Local::BatchFor {
        position,
        max_lines,
    });
    let reply = ask(service, &question)?;
    reply_text(alloc, &reply)
}

/// Gives one replica what the other has and it lacks: its position, the batch for that, and the receipt. What comes of it is what the
/// definitions say of the batch itself. The texts, which carry it, don't show in the contract: each is read back as what was
/// written. Either text may be lost or come late, and the batch may be cut between: what was received is then a prefix of it, or
/// nothing, and the same is done again.
pub(crate) fn give(
    alloc: Global,
    from: &mut Service<ListKeeper>,
    to: &mut Service<ListKeeper>,
    max_lines: LineCount,
) -> Result<Reply, Refusal>
    ensures given { (a b : Replica) → Stands from.old.tables a → Stands to.old.tables b
        → IfOk result (λ reply. IsGiven a b max_lines (reply_of reply) to.new.tables) }
    ensures from { (a : Replica) → Stands from.old.tables a → Stands from.new.tables a }
{
    exchange_law();
    let position = position_said(alloc, to)?;
    let batch = batch_said(alloc, from, position, max_lines)?;
    ask(to, &Command::Receive(batch))
}

/// Two offices, the first of them the primary, each book, and then each gives the other what that lacks.
pub(crate) fn meet(
    alloc: Global,
    west: &mut Service<ListKeeper>,
    east: &mut Service<ListKeeper>,
    lines: LineCount,
) -> Result<(), Refusal> {
    book(alloc, west, "14:00")?;
    book(alloc, east, "13:30")?;
    give(alloc, west, east, lines)?;
    give(alloc, east, west, lines)?;
    Ok(())
}

/// Books the hour from this time on.
fn book(alloc: Global, service: &mut Service<ListKeeper>, time: &str) -> Result<(), Refusal> {
    order(service, booking(alloc, time, "60")?)
}

/// The primary commits what it knows and gives that on. Then the other office drops its copies of what is committed, and both list the day.
pub(crate) fn commits_told(
    alloc: Global,
    west: &mut Service<ListKeeper>,
    east: &mut Service<ListKeeper>,
    lines: LineCount,
) -> Result<Vec<u8>, Refusal> {
    let mut told = Vec::new(alloc);
    tell(alloc, west, Command::Local(Local::Commit(10)), &mut told)?;
    give(alloc, west, east, lines)?;
    tell(alloc, east, Command::Local(Local::Truncate(2)), &mut told)?;
    day_told(alloc, west, &mut told)?;
    day_told(alloc, east, &mut told)?;
    Ok(told)
}

/// The day as this office lists it.
fn day_told(
    alloc: Global,
    service: &mut Service<ListKeeper>,
    told: &mut Vec<u8>,
) -> Result<(), Refusal> {
    let question = sheet(alloc, "oak", "1995-12-18")?;
    tell(alloc, service, question, told)
}
