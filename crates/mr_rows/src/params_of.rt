ghost use Rattle.std.specs.Prelude.{◌≡◌, map, IfOk};
ghost use Rattle.sqlite.specs.Values.{bound, bound_value};

use sqlite::Error;
use sqlite::types::{ToSql, Value, ValueRef};
use std::alloc::Global;

/// The cells of a row as parameters.
pub(crate) fn lent<'a>(alloc: Global, cells: &'a [Value]) -> Result<Vec<ValueRef<'a>>, Error>
    ensures { IfOk result (λ params. bound params.items ≡ map bound_value cells.now) }
{
    let mut params = Vec::new(alloc);
    'cells: for cell in cells {
        params.push(cell.to_sql())?;
    }
    Ok(params)
}
