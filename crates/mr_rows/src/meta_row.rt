ghost use Rattle.std.specs.Prelude.{◌≡◌, ◌∷◌, false, map, IfOk, IfErr, IsTrue, Some};
ghost use Rattle.sqlite_value.specs.declared.value.Value.TheVariants.{Null};
ghost use Rattle.mr_rows.specs.RowCells.{meta_in, meta_cells_of};
ghost use Rattle.mr_rows.specs.RowLimits.{is_meta_row};
ghost use Rattle.mr_rows.specs.CellLimits.{are_meta_cells};
ghost use Rattle.mr_rows.specs.Reads.{first_of};
ghost use Rattle.mr_rows.specs.Shown.{columns_from};

use crate::cells::{has_number, read_commit, read_number, read_server};
use mr_base::GREATEST_TIME;
use mr_tables::MetaRow;
use sqlite::{Error, Row};

/// The row of `meta` of the schema of this number; its columns are counted from 0.
pub fn read_meta_of(row: &Row, schema: u32) -> Result<MetaRow, Error>
    ensures row { IfOk result (λ r. r ≡ meta_in (Null ∷ row.now)) }
    ensures cells { IfOk result (λ r. meta_cells_of schema r ≡ columns_from 0 7 row.now) }
    ensures within { IfOk result (λ r. IsTrue (is_meta_row r)) }
    ensures refused { IfErr result (λ _. are_meta_cells schema row.now ≡ false) }
{
    if !has_number(row, 0, 1, 1) || !has_number(row, 1, u64::from(schema), u64::from(schema)) {
        return Err(Error::IntegralValueOutOfRange(0));
    }
    let server = read_server(row, 2)?;
    let primary = read_server(row, 3)?;
    let commits = read_commit(row, 4)?;
    let dropped = read_commit(row, 5)?;
    let clock = read_number(row, 6, 0, GREATEST_TIME)?;
    Ok(MetaRow {
        server,
        primary,
        commits,
        dropped,
        clock,
    })
}

/// The first of these rows, under the schema of this number.
pub fn first_meta(rows: &[Row], schema: u32) -> Result<MetaRow, Error>
    ensures row { IfOk result (λ row. first_of (map (λ row. meta_in (Null ∷ row)) rows.now) ≡ Some row) }
    ensures refused { IfErr result (λ _. (row : _) → first_of rows.now ≡ Some row → are_meta_cells schema row ≡ false) }
{
    match rows.first() {
        None => Err(Error::QueryReturnedNoRows),
        Some(row) => read_meta_of(row, schema),
    }
}
