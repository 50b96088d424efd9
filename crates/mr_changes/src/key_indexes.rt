ghost use Rattle.std.specs.Prelude.{◌≡◌, false, IsTrue};
ghost use Rattle.sqlite_trees.specs.Tree.{Trees};
ghost use Rattle.sqlite_trees.specs.View.{View};
ghost use Rattle.sqlite_sql.specs.Catalog.{IsIndexed};
ghost use Rattle.sqlite_exec.specs.Calls.{IsReady};
ghost use Rattle.mr_changes.specs.Indexed.{HasTrees, AreIndexed};

use sqlite_sql::query::Index;
use sqlite_value::keys::Order;

/// The indexes of the keys, table by table, those of `write_log` and `undo` too.
const INDEXES: [Index<'static>; 10] = [
    Index {
        tree: 1,
        table: 0,
        columns: &[1],
        order: Order::PLAIN,
    },
    Index {
        tree: 3,
        table: 2,
        columns: &[1],
        order: Order::PLAIN,
    },
    Index {
        tree: 5,
        table: 4,
        columns: &[1],
        order: Order::PLAIN,
    },
    Index {
        tree: 7,
        table: 6,
        columns: &[1, 2],
        order: Order::PLAIN,
    },
    Index {
        tree: 9,
        table: 8,
        columns: &[1, 2],
        order: Order::PLAIN,
    },
    Index {
        tree: 11,
        table: 10,
        columns: &[5, 6],
        order: Order::PLAIN,
    },
    Index {
        tree: 13,
        table: 12,
        columns: &[5, 6],
        order: Order::PLAIN,
    },
    Index {
        tree: 15,
        table: 14,
        columns: &[1, 2],
        order: Order::PLAIN,
    },
    Index {
        tree: 17,
        table: 16,
        columns: &[5, 6],
        order: Order::PLAIN,
    },
    Index {
        tree: 19,
        table: 18,
        columns: &[1, 2],
        order: Order::PLAIN,
    },
];

/// The indexes of a store that is fit, as the kit's writes want them.
pub fn indexes() -> &'static [Index<'static>]
    ensures ready { (v : View) → HasTrees v.shape → AreIndexed v.trees → IsReady v result.now }
    ensures indexed { (db : Trees) → IsIndexed result.now db → AreIndexed db }
{
    &INDEXES
}
