ghost use Rattle.std.specs.Prelude.{◌≡◌};
ghost use Rattle.std.specs.List.{sum_by};
ghost use Rattle.mr_agree.specs.Agreeing.{vector_in, is_counted, is_first, is_last};

use mr_base::{ServerId, WriteId};
use mr_tables::{Tables, VectorRow};

/// What the vector tells of a server: its row, or one of zeros if it has none.
pub(crate) fn vector_row(rows: &[VectorRow], server: ServerId) -> VectorRow
    ensures { result ≡ vector_in rows.now server }
{
    for row in rows {
        if row.server == server {
            return *row;
        }
    }
    VectorRow {
        server,
        count: 0,
        last_time: 0,
        committed: 0,
    }
}

/// Whether the write of this id is known.
pub(crate) fn is_counted(tables: &Tables, id: WriteId) -> bool
    ensures { result ≡ is_counted tables.now id }
{
    let row = vector_row(&tables.vector, id.server);
    1 <= id.n && id.n <= row.count
}

/// Whether it is among the first of its server, which are the committed ones.
pub(crate) fn is_first(tables: &Tables, id: WriteId) -> bool
    ensures { result ≡ is_first tables.now id }
{
    let row = vector_row(&tables.vector, id.server);
    id.n <= row.committed
}

/// Whether it is the last of its server.
pub(crate) fn is_last(tables: &Tables, id: WriteId) -> bool
    ensures { result ≡ is_last tables.now id }
{
    let row = vector_row(&tables.vector, id.server);
    id.n == row.count
}

/// How many writes of all servers are known. As many rows as there can be have no greater sum than 128 bits hold.
pub(crate) fn write_count(rows: &[VectorRow]) -> u128
    ensures { result ≡ sum_by (λ row. row.count) rows.now }
{
    let mut total: u128 = 0;
    for row in rows {
        total += u128::from(row.count);
    }
    total
}
