ghost use Rattle.std.specs.Prelude.{◌≡◌, ◌≤◌, ◌<◌, ◌⊎◌, MatchOption, IfOk, IfErr, length};
ghost use Rattle.mr_model.specs.Replica.{Replica, opening};
ghost use Rattle.mr_model.specs.Positions.{position_of, position_text, read_position};
ghost use Rattle.mr_model.specs.Refusals.{OutOfMemory, Refusal as RefusalOfReplica};
ghost use Rattle.mr_model.specs.Replies.{Refused};
ghost use Rattle.mr_model.specs.Step.{Receive, reply_to_position};
ghost use Rattle.mr_base.specs.RefusalViews.{refusal_of};
ghost use Rattle.mr_service.specs.Asked.{local_of, reply_of};
ghost use Rattle.mr_service.specs.Worlds.{AnswersInMemory, StandsForMember, IsPositionText, IsBatchText, member_index, primary_in};

use crate::changing::receive;
use crate::commands::Local;
use crate::replies::Reply;
use crate::services::{ask_local, said};
use mr_base::{LineCount, Refusal, ServerId};
use mr_store::ListKeeper;
use mr_wire::{write_batch, write_position};
use std::alloc::Global;
use std::marker::Model;

/// A replica of a world, over lists.
#[derive(Drop)]
pub(crate) struct Member {
    server: ServerId,
    primary: ServerId,
    keeper: ListKeeper,
}

impl Model for Member {
    ghost use Rattle.mr_service.specs.Worlds.{MemberView};

    ghost Value = { MemberView };

    ghost view = { λ m. record { server = m.server; primary = m.primary; tables = m.keeper.tables } };
}

impl Member {
    /// A replica that knows nothing yet.
    pub(crate) fn new(alloc: Global, server: ServerId, primary: ServerId) -> Member
        ensures { StandsForMember result (opening server primary) }
    {
        Member {
            server,
            primary,
            keeper: ListKeeper::new(alloc, server, primary),
        }
    }

    pub(crate) fn server(&self) -> ServerId
        ensures { result ≡ self.now.server }
    {
        self.server
    }

    pub(crate) fn primary(&self) -> ServerId
        ensures { result ≡ self.now.primary }
    {
        self.primary
    }

    /// Does what a command of somebody at the replica says.
    pub(crate) fn ask(&mut self, alloc: Global, command: &Local) -> Reply
        ensures { AnswersInMemory self.old (local_of command.now) (reply_of result) self.new }
    {
        said(ask_local(&mut self.keeper, alloc, command))
    }

    /// The text of its position.
    pub(crate) fn position(&mut self, alloc: Global) -> Result<Vec<u8>, Refusal>
        ensures stays { (r : Replica) → StandsForMember self.old r → StandsForMember self.new r }
        ensures text { (r : Replica) → StandsForMember self.old r → IfOk result (λ text. text.items ≡ position_text (position_of r)) }
        ensures memory { IfErr result (λ e. e ≡ Refusal.OutOfMemory) }
    {
        let reply = self.ask(alloc, &Local::Position);
        position_in(alloc, &reply)
    }

    /// The text of its batch for a replica at the position with this text.
    pub(crate) fn batch(
        &mut self,
        alloc: Global,
        position: Vec<u8>,
        max_lines: LineCount,
    ) -> Result<Vec<u8>, Refusal>
        ensures stays { (r : Replica) → StandsForMember self.old r → StandsForMember self.new r }
        ensures text { (r : Replica) → StandsForMember self.old r
            → IfOk result (λ text. IsBatchText (reply_to_position r (read_position position.items) max_lines) text.items) }
        ensures refused { (r : Replica) → StandsForMember self.old r
            → IfErr result (λ e. (reply_to_position r (read_position position.items) max_lines ≡ Refused (refusal_of e)) ⊎ (refusal_of e ≡ OutOfMemory)) }
    {
        let command = Local::BatchFor {
            position,
            max_lines,
        };
        let reply = self.ask(alloc, &command);
        batch_in(alloc, &reply)
    }

    /// Takes the batch with this text.
    pub(crate) fn receive(&mut self, alloc: Global, bytes: &[u8]) -> Reply
        ensures { AnswersInMemory self.old (Receive bytes.now) (reply_of result) self.new }
    {
        said(receive(&mut self.keeper, alloc, bytes))
    }
}

/// The place of the first replica with this server.
pub(crate) fn find(members: &[Member], server: ServerId) -> Option<usize>
    ensures { MatchOption result (length members.now ≤ member_index members.now server)
        (λ k. (k ≡ member_index members.now server) × (k < length members.now)) }
{
    let place = place_of(members, server);
    if place < members.len() {
        Some(place)
    } else {
        None
    }
}

/// How many replicas stand before the first one with this server: all, if there is none.
fn place_of(members: &[Member], server: ServerId) -> usize
    ensures place { result ≡ member_index members.now server }
    ensures in_range { result ≤ length members.now }
{
    for (k, member) in members.iter().enumerate() {
        if member.server() == server {
            return k;
        }
    }
    members.len()
}

/// The primary that a replica of this server gets: that of the first replica, or itself if it is the first.
pub(crate) fn primary_for(members: &[Member], server: ServerId) -> ServerId
    ensures { result ≡ primary_in members.now server }
{
    match members.first() {
        Some(first) => first.primary(),
        None => server,
    }
}

/// The text of the position that is replied.
fn position_in(alloc: Global, reply: &Reply) -> Result<Vec<u8>, Refusal>
    ensures text { IfOk result (λ text. IsPositionText (reply_of reply.now) text.items) }
    ensures memory { IfErr result (λ e. e ≡ Refusal.OutOfMemory) }
{
    match reply {
        Reply::Position(position) => write_position(alloc, position),
        _ => Err(Refusal::OutOfMemory),
    }
}

/// The text of the batch that is replied, or the refusal.
fn batch_in(alloc: Global, reply: &Reply) -> Result<Vec<u8>, Refusal>
    ensures text { IfOk result (λ text. IsBatchText (reply_of reply.now) text.items) }
    ensures refused { IfErr result (λ e. (reply_of reply.now ≡ Refused (refusal_of e)) ⊎ (refusal_of e ≡ OutOfMemory)) }
    ensures told { (e : RefusalOfReplica) → reply_of reply.now ≡ Refused e → IfErr result (λ r. refusal_of r ≡ e) }
{
    match reply {
        Reply::Batch(batch) => write_batch(alloc, batch),
        Reply::Refused(refusal) => Err(*refusal),
        _ => Err(Refusal::OutOfMemory),
    }
}
