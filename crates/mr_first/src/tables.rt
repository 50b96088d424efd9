use crate::rows::{FirstUndoRow, WriteRow};
use mr_base::RoomName;
use mr_tables::{BookingRow, ErrorRow, MetaRow, VectorRow};
use std::marker::Model;

/// The tables of the first schema, each in the order of its keys: rooms by name, the vector by server, all others by server and
/// count. A kept write has a row in `write_log` and one in `undo`.
#[derive(Debug, Drop)]
pub struct First {
    pub meta: MetaRow,
    pub room: Vec<RoomName>,
    pub vector: Vec<VectorRow>,
    pub write_log: Vec<WriteRow>,
    pub undo: Vec<FirstUndoRow>,
    pub booking: Vec<BookingRow>,
    pub errorlog: Vec<ErrorRow>,
}

impl Model for First {
    ghost use Rattle.mr_model.specs.First as tables;

    ghost Value = { tables.FirstTables };

    ghost view = { λ t. record {
      meta = t.meta;
      room = t.room.items;
      vector = t.vector.items;
      write_log = t.write_log.items;
      undo = t.undo.items;
      booking = t.booking.items;
      errorlog = t.errorlog.items;
    } };
}
