//! What the tables of a database have to be, said a second time beside the statements that make them: so no database has
//! to be made to compare a found schema with.

/// A table with one key, and the key's index. Each column is strict and takes no NULL, and none has a default.
pub(crate) struct Wanted {
    pub(crate) name: &'static str,
    /// The names of the columns, with a space between each two.
    pub(crate) columns: &'static str,
    /// The names of those of the kind TEXT. All others are of the kind INTEGER.
    pub(crate) texts: &'static [&'static str],
    /// The places of the columns of the key, counted from 1.
    pub(crate) key: &'static [usize],
    /// Whether the key is the primary one, and not merely unique.
    pub(crate) is_primary: bool,
    /// The number of its tree. The index has the tree that comes next.
    pub(crate) tree: u32,
    /// The name of the index.
    pub(crate) index: &'static str,
}

/// The tables of our schema. The first seven are those of the first schema.
pub(crate) const OURS: [Wanted; 10] = [
    Wanted {
        name: "meta",
        columns: "one schema server prim commits dropped clock",
        texts: &[],
        key: &[1],
        is_primary: false,
        tree: 0,
        index: "sqlite_autoindex_meta_1",
    },
    Wanted {
        name: "room",
        columns: "name",
        texts: &["name"],
        key: &[1],
        is_primary: true,
        tree: 2,
        index: "sqlite_autoindex_room_1",
    },
    Wanted {
        name: "vector",
        columns: "server n tm committed",
        texts: &[],
        key: &[1],
        is_primary: false,
        tree: 4,
        index: "sqlite_autoindex_vector_1",
    },
    Wanted {
        name: "write_log",
        columns: "server n tm room length choices title seq",
        texts: &["room", "choices", "title"],
        key: &[1, 2],
        is_primary: true,
        tree: 6,
        index: "sqlite_autoindex_write_log_1",
    },
    Wanted {
        name: "undo",
        columns: "server n place",
        texts: &[],
        key: &[1, 2],
        is_primary: true,
        tree: 8,
        index: "sqlite_autoindex_undo_1",
    },
    Wanted {
        name: "booking",
        columns: "room day start stop server n title committed",
        texts: &["room", "day", "title"],
        key: &[5, 6],
        is_primary: true,
        tree: 10,
        index: "sqlite_autoindex_booking_1",
    },
    Wanted {
        name: "errorlog",
        columns: "room day start stop server n title tm seq",
        texts: &["room", "day", "title"],
        key: &[5, 6],
        is_primary: true,
        tree: 12,
        index: "sqlite_autoindex_errorlog_1",
    },
    Wanted {
        name: "log",
        columns: "server n tm room kind length choices title tserver tn place seq",
        texts: &["room", "choices", "title"],
        key: &[1, 2],
        is_primary: true,
        tree: 14,
        index: "sqlite_autoindex_log_1",
    },
    Wanted {
        name: "cancelled",
        columns: "room day start stop server n title committed bserver bn",
        texts: &["room", "day", "title"],
        key: &[5, 6],
        is_primary: true,
        tree: 16,
        index: "sqlite_autoindex_cancelled_1",
    },
    Wanted {
        name: "cancel",
        columns: "server n room tserver tn done tm seq",
        texts: &["room"],
        key: &[1, 2],
        is_primary: true,
        tree: 18,
        index: "sqlite_autoindex_cancel_1",
    },
];
