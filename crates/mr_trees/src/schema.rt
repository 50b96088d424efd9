use sqlite_trees::schema::Object;
use sqlite_trees::store::Shape;
use sqlite_value::keys::Order;

/// The tables and the indexes of their keys, as `mr_first` makes them; those of `write_log` and `undo` too, of which no row is read. Trees have their
/// places here as numbers, as `Database` of `mr_rows` has them. A file whose texts differ isn't opened by these.
pub(crate) const OBJECTS: [Object<'static>; 20] = [
    Object {
        shape: Shape::Table,
        kind: "table",
        name: "meta",
        table: "meta",
        reals: 0,
        sql: Some(
            "CREATE TABLE meta (one INTEGER NOT NULL UNIQUE, schema INTEGER NOT NULL, server INTEGER NOT NULL, prim INTEGER NOT NULL, commits INTEGER NOT NULL, dropped INTEGER NOT NULL, clock INTEGER NOT NULL) STRICT",
        ),
    },
    Object {
        shape: Shape::Index(Order::PLAIN),
        kind: "index",
        name: "sqlite_autoindex_meta_1",
        table: "meta",
        reals: 0,
        sql: None,
    },
    Object {
        shape: Shape::Table,
        kind: "table",
        name: "room",
        table: "room",
        reals: 0,
        sql: Some("CREATE TABLE room (name TEXT NOT NULL PRIMARY KEY) STRICT"),
    },
    Object {
        shape: Shape::Index(Order::PLAIN),
        kind: "index",
        name: "sqlite_autoindex_room_1",
        table: "room",
        reals: 0,
        sql: None,
    },
    Object {
        shape: Shape::Table,
        kind: "table",
        name: "vector",
        table: "vector",
        reals: 0,
        sql: Some(
            "CREATE TABLE vector (server INTEGER NOT NULL UNIQUE, n INTEGER NOT NULL, tm INTEGER NOT NULL, committed INTEGER NOT NULL) STRICT",
        ),
    },
    Object {
        shape: Shape::Index(Order::PLAIN),
        kind: "index",
        name: "sqlite_autoindex_vector_1",
        table: "vector",
        reals: 0,
        sql: None,
    },
    Object {
        shape: Shape::Table,
        kind: "table",
        name: "write_log",
        table: "write_log",
        reals: 0,
        sql: Some(
            "CREATE TABLE write_log (server INTEGER NOT NULL, n INTEGER NOT NULL, tm INTEGER NOT NULL, room TEXT NOT NULL, length INTEGER NOT NULL, choices TEXT NOT NULL, title TEXT NOT NULL, seq INTEGER NOT NULL, PRIMARY KEY (server, n)) STRICT",
        ),
    },
    Object {
        shape: Shape::Index(Order::PLAIN),
        kind: "index",
        name: "sqlite_autoindex_write_log_1",
        table: "write_log",
        reals: 0,
        sql: None,
    },
    Object {
        shape: Shape::Table,
        kind: "table",
        name: "undo",
        table: "undo",
        reals: 0,
        sql: Some(
            "CREATE TABLE undo (server INTEGER NOT NULL, n INTEGER NOT NULL, place INTEGER NOT NULL, PRIMARY KEY (server, n)) STRICT",
        ),
    },
    Object {
        shape: Shape::Index(Order::PLAIN),
        kind: "index",
        name: "sqlite_autoindex_undo_1",
        table: "undo",
        reals: 0,
        sql: None,
    },
    Object {
        shape: Shape::Table,
        kind: "table",
        name: "booking",
        table: "booking",
        reals: 0,
        sql: Some(
            "CREATE TABLE booking (room TEXT NOT NULL, day TEXT NOT NULL, start INTEGER NOT NULL, stop INTEGER NOT NULL, server INTEGER NOT NULL, n INTEGER NOT NULL, title TEXT NOT NULL, committed INTEGER NOT NULL, PRIMARY KEY (server, n)) STRICT",
        ),
    },
    Object {
        shape: Shape::Index(Order::PLAIN),
        kind: "index",
        name: "sqlite_autoindex_booking_1",
        table: "booking",
        reals: 0,
        sql: None,
    },
    Object {
        shape: Shape::Table,
        kind: "table",
        name: "errorlog",
        table: "errorlog",
        reals: 0,
        sql: Some(
            "CREATE TABLE errorlog (room TEXT NOT NULL, day TEXT NOT NULL, start INTEGER NOT NULL, stop INTEGER NOT NULL, server INTEGER NOT NULL, n INTEGER NOT NULL, title TEXT NOT NULL, tm INTEGER NOT NULL, seq INTEGER NOT NULL, PRIMARY KEY (server, n)) STRICT",
        ),
    },
    Object {
        shape: Shape::Index(Order::PLAIN),
        kind: "index",
        name: "sqlite_autoindex_errorlog_1",
        table: "errorlog",
        reals: 0,
        sql: None,
    },
    Object {
        shape: Shape::Table,
        kind: "table",
        name: "log",
        table: "log",
        reals: 0,
        sql: Some(
            "CREATE TABLE log (server INTEGER NOT NULL, n INTEGER NOT NULL, tm INTEGER NOT NULL, room TEXT NOT NULL, kind INTEGER NOT NULL, length INTEGER NOT NULL, choices TEXT NOT NULL, title TEXT NOT NULL, tserver INTEGER NOT NULL, tn INTEGER NOT NULL, place INTEGER NOT NULL, seq INTEGER NOT NULL, PRIMARY KEY (server, n)) STRICT",
        ),
    },
    Object {
        shape: Shape::Index(Order::PLAIN),
        kind: "index",
        name: "sqlite_autoindex_log_1",
        table: "log",
        reals: 0,
        sql: None,
    },
    Object {
        shape: Shape::Table,
        kind: "table",
        name: "cancelled",
        table: "cancelled",
        reals: 0,
        sql: Some(
            "CREATE TABLE cancelled (room TEXT NOT NULL, day TEXT NOT NULL, start INTEGER NOT NULL, stop INTEGER NOT NULL, server INTEGER NOT NULL, n INTEGER NOT NULL, title TEXT NOT NULL, committed INTEGER NOT NULL, bserver INTEGER NOT NULL, bn INTEGER NOT NULL, PRIMARY KEY (server, n)) STRICT",
        ),
    },
    Object {
        shape: Shape::Index(Order::PLAIN),
        kind: "index",
        name: "sqlite_autoindex_cancelled_1",
        table: "cancelled",
        reals: 0,
        sql: None,
    },
    Object {
        shape: Shape::Table,
        kind: "table",
        name: "cancel",
        table: "cancel",
        reals: 0,
        sql: Some(
            "CREATE TABLE cancel (server INTEGER NOT NULL, n INTEGER NOT NULL, room TEXT NOT NULL, tserver INTEGER NOT NULL, tn INTEGER NOT NULL, done INTEGER NOT NULL, tm INTEGER NOT NULL, seq INTEGER NOT NULL, PRIMARY KEY (server, n)) STRICT",
        ),
    },
    Object {
        shape: Shape::Index(Order::PLAIN),
        kind: "index",
        name: "sqlite_autoindex_cancel_1",
        table: "cancel",
        reals: 0,
        sql: None,
    },
];
