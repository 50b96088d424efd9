use crate::{BookingRow, CancelRow, CancelledRow, ErrorRow, LogRow, MetaRow, VectorRow};
use mr_base::{RoomName, WriteId};
use std::marker::Model;

/// What a command changes in a replica's tables: keys of rows to take away first, and rows to put then, each instead of the
/// row that has its key. A write in `dropped` leaves `log`, one in `unbooked` leaves `booking`, one in `unlogged` leaves
/// `errorlog`, one in `uncancelled` leaves `cancelled`. Rooms, rows of the vector and those of cancels never leave.
#[derive(Debug, Drop)]
pub struct Change {
    pub meta: MetaRow,
    pub room: Vec<RoomName>,
    pub vector: Vec<VectorRow>,
    pub dropped: Vec<WriteId>,
    pub log: Vec<LogRow>,
    pub unbooked: Vec<WriteId>,
    pub booking: Vec<BookingRow>,
    pub unlogged: Vec<WriteId>,
    pub errorlog: Vec<ErrorRow>,
    pub uncancelled: Vec<WriteId>,
    pub cancelled: Vec<CancelledRow>,
    pub cancels: Vec<CancelRow>,
}

impl Model for Change {
    ghost use Rattle.mr_tables.specs.Change.{ChangeView};

    ghost Value = { ChangeView };

    ghost view = { λ c. record {
      meta = c.meta;
      room = c.room.items;
      vector = c.vector.items;
      dropped = c.dropped.items;
      log = c.log.items;
      unbooked = c.unbooked.items;
      booking = c.booking.items;
      unlogged = c.unlogged.items;
      errorlog = c.errorlog.items;
      uncancelled = c.uncancelled.items;
      cancelled = c.cancelled.items;
      cancels = c.cancels.items;
    } };
}
