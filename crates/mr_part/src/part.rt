use crate::seen_log::SeenLog;
use mr_base::RoomName;
use mr_replay::SeenBoard;
use mr_tables::summary::Summary;
use std::alloc::Global;
use std::marker::Model;

/// The rows of a replica's tables that one command needs, as values: its numbers and its rooms; the kept writes in scope in the
/// order of execution; and a board of the bookings in scope, be they booked, logged or cancelled. Both are its own or shared. It is
/// read for one call: what the call changes is the tables.
#[derive(Drop)]
pub struct Part {
    pub(crate) alloc: Global,
    pub(crate) summary: Summary,
    pub(crate) rooms: Vec<RoomName>,
    pub(crate) kept: SeenLog,
    pub(crate) board: SeenBoard,
}

impl Model for Part {
    ghost use Rattle.mr_part.specs.Parts.{PartView};

    ghost Value = { PartView };

    ghost view = { λ p. record {
      summary = p.summary;
      rooms = p.rooms.items;
      kept = p.kept;
      board = p.board;
    } };
}
