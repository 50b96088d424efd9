//! The names of the table's rows.

pub(crate) const INIT: &str = "init";

pub(crate) const EXPORT: &str = "export";

pub(crate) const IMPORT: &str = "import";

pub(crate) const REHEARSE: &str = "rehearse";

pub(crate) const SERVE: &str = "serve";

pub(crate) const EXCHANGE: &str = "exchange";

pub(crate) const BRIDGE: &str = "bridge";

pub(crate) const ADD_ROOM: &str = "add-room";

/// The name of the row of bookings; the line of a booking in a script begins with it too.
pub const BOOK: &str = "book";

pub(crate) const CANCEL: &str = "cancel";

pub(crate) const COMMIT: &str = "commit";

pub(crate) const TRUNCATE: &str = "truncate";

pub(crate) const POSITION: &str = "position";

pub(crate) const SHEET: &str = "sheet";

pub(crate) const CALENDAR: &str = "calendar";

pub(crate) const OUTCOME: &str = "outcome";

pub(crate) const ERRORS: &str = "errors";
