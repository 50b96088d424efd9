use crate::{BookingRow, CancelRow, CancelledRow, ErrorRow, LogRow, MetaRow, VectorRow};
use mr_base::RoomName;
use std::marker::Model;

/// The tables that stand for a replica, each in the order of its keys: rooms by name, the vector by server, all others by server
/// and count.
#[derive(Debug, Drop)]
pub struct Tables {
    pub meta: MetaRow,
    pub room: Vec<RoomName>,
    pub vector: Vec<VectorRow>,
    pub log: Vec<LogRow>,
    pub booking: Vec<BookingRow>,
    pub errorlog: Vec<ErrorRow>,
    pub cancelled: Vec<CancelledRow>,
    pub cancels: Vec<CancelRow>,
}

impl Model for Tables {
    ghost use Rattle.mr_model.specs.Tables as tables;

    ghost Value = { tables.Tables };

    ghost view = { λ t. record {
      meta = t.meta;
      room = t.room.items;
      vector = t.vector.items;
      log = t.log.items;
      booking = t.booking.items;
      errorlog = t.errorlog.items;
      cancelled = t.cancelled.items;
      cancels = t.cancels.items;
    } };
}
