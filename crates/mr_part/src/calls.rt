//! The other calls of a part, and the change of the tables that each hands out.

mod batch;
mod board_rows;
mod cancel;
pub(crate) mod changes;
mod commit;
mod next;
mod outgoing;
pub(crate) mod placing;
mod position;
mod rooms;
mod rows;
mod submit;
mod truncate;
