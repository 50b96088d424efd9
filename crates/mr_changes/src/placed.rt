ghost use Rattle.std.specs.Prelude.{◌≡◌, ◌+◌, true, [], ◌∷◌, ◌++◌, List, ℕ, map, pos, OnOk};
ghost use Rattle.std.proofs.Common.{ap, subst, refl};
ghost use Rattle.std.specs.declared.cmp.Ordering.TheVariants.{Equal};
ghost use Rattle.sqlite_value.specs.declared.value.Value.TheVariants.{Int, Text};
ghost use Rattle.sqlite_value.specs.Order.{Row as Cells, column};
ghost use Rattle.sqlite_value.specs.Keys.{plain, prefix_cmp};
ghost use Rattle.sqlite_trees.specs.Tree.{Trees};
ghost use Rattle.sqlite_sql.specs.Catalog.{IsIndexOf};
ghost use Rattle.mr_model.specs.Writes.{Id};
ghost use Rattle.mr_model.specs.Queries.{booking_id, error_id, cancelled_id, cancel_id, log_id};
ghost use Rattle.mr_rows.specs.Database.{IsRowOf};
ghost use Rattle.mr_changes.specs.Indexed.{is_ours, AreIndexed};
ghost use Rattle.mr_changes.specs.Found.{id_key};
ghost use Rattle.mr_changes.specs.KeyLaws.{number_alike, text_alike, value_same, id_alike, id_same};

use mr_base::{RoomName, WriteId};
use mr_rows::OurRow;
use mr_tables::{BookingRow, CancelRow, CancelledRow, ErrorRow, LogRow, VectorRow};
use sqlite_value::row::Row;
use sqlite_value::value::ValueRef;
use std::alloc::AllocError;

/// A row of a table, whose key an index has; the index is in the next tree.
pub(crate) trait PlacedRow: OurRow {
    ghost key_of: { Self → Cells };

    ghost key_at: { List ℕ };

    /// The number of the table's tree.
    fn table() -> u32
        ensures { result ≡ Self.StoredRow.form.table.tree };

    /// Puts the columns of the key behind the cells that are there.
    fn put_key(&self, key: &mut Row) -> Result<(), AllocError>
        ensures { OnOk result (key.new ≡ key.old ++ key_of self.now) };

    ghost ours: { is_ours Self.StoredRow.form.table.tree ≡ true };

    ghost indexed: { (db : Trees) → AreIndexed db → IsIndexOf key_at (db Self.StoredRow.form.table.tree) (db (Self.StoredRow.form.table.tree + 1)) };

    ghost keyed: { (r : Cells) → IsRowOf Self.StoredRow.form r → map (column r) key_at ≡ key_of (Self.StoredRow.form.row_in r) };

    // the index tells keys apart
    ghost alike: { (a b : Self) (rest : Cells) → prefix_cmp plain (key_of a ++ rest) (key_of b) ≡ Equal → Self.StoredRow.form.key a ≡ Self.StoredRow.form.key b };

    ghost same: { (a b : Self) (rest : Cells) → Self.StoredRow.form.key a ≡ Self.StoredRow.form.key b → prefix_cmp plain (key_of a ++ rest) (key_of b) ≡ Equal };
}

/// A row whose key is the id of its write.
pub(crate) trait IdRow: PlacedRow {
    ghost id_of: { Self → Id };

    ghost by_id: { (x : Self) → Self.PlacedRow.key_of x ≡ id_key (id_of x) };
}

/// Puts an id behind the cells that are there.
pub(crate) fn put_id(id: WriteId, key: &mut Row) -> Result<(), AllocError>
    ensures { OnOk result (key.new ≡ key.old ++ id_key id) }
{
    key.push(ValueRef::Int(i64::from(id.server.number())))?;
    key.push(ValueRef::Int(i64::from(id.n)))
}

impl PlacedRow for RoomName {
    ghost key_of = { λ name. Text name ∷ [] };

    ghost key_at = { 1 ∷ [] };

    fn table() -> u32 {
        2
    }

    fn put_key(&self, key: &mut Row) -> Result<(), AllocError> {
        key.push(ValueRef::Text(self.as_str().as_bytes()))
    }

    ghost ours = { refl };

    ghost indexed = { λ db all. all.room };

    ghost keyed = { λ r is. ap (λ x. column x 1 ∷ []) is };

    ghost alike = { λ a b rest tie. text_alike a b rest tie };

    ghost same = { λ a b rest is. subst (λ c. prefix_cmp plain (Text a ∷ rest) (Text c ∷ []) ≡ Equal) is (value_same (Text a) rest) };
}

impl PlacedRow for VectorRow {
    ghost key_of = { λ row. Int (pos row.server) ∷ [] };

    ghost key_at = { 1 ∷ [] };

    fn table() -> u32 {
        4
    }

    fn put_key(&self, key: &mut Row) -> Result<(), AllocError> {
        key.push(ValueRef::Int(i64::from(self.server.number())))
    }

    ghost ours = { refl };

    ghost indexed = { λ db all. all.vector };

    ghost keyed = { λ r is. ap (λ x. column x 1 ∷ []) is };

    ghost alike = { λ a b rest tie. number_alike a.server b.server rest tie };

    ghost same = { λ a b rest is. subst (λ n. prefix_cmp plain (Int (pos a.server) ∷ rest) (Int (pos n) ∷ []) ≡ Equal) is (value_same (Int (pos a.server)) rest) };
}

impl PlacedRow for LogRow {
    ghost key_of = { λ row. id_key (log_id row) };

    ghost key_at = { 1 ∷ 2 ∷ [] };

    fn table() -> u32 {
        14
    }

    fn put_key(&self, key: &mut Row) -> Result<(), AllocError> {
        put_id(self.id(), key)
    }

    ghost ours = { refl };

    ghost indexed = { λ db all. all.log };

    ghost keyed = { λ r is. ap (λ x. column x 1 ∷ column x 2 ∷ []) is };

    ghost alike = { λ a b rest tie. id_alike (log_id a) (log_id b) rest tie };

    ghost same = { λ a b rest is. subst (λ c. prefix_cmp plain (id_key (log_id a) ++ rest) (id_key c) ≡ Equal) is (id_same (log_id a) rest) };
}

impl PlacedRow for BookingRow {
    ghost key_of = { λ row. id_key (booking_id row) };

    ghost key_at = { 5 ∷ 6 ∷ [] };

    fn table() -> u32 {
        10
    }

    fn put_key(&self, key: &mut Row) -> Result<(), AllocError> {
        put_id(self.id(), key)
    }

    ghost ours = { refl };

    ghost indexed = { λ db all. all.booking };

    ghost keyed = { λ r is. ap (λ x. column x 5 ∷ column x 6 ∷ []) is };

    ghost alike = { λ a b rest tie. id_alike (booking_id a) (booking_id b) rest tie };

    ghost same = { λ a b rest is. subst (λ c. prefix_cmp plain (id_key (booking_id a) ++ rest) (id_key c) ≡ Equal) is (id_same (booking_id a) rest) };
}

impl PlacedRow for ErrorRow {
    ghost key_of = { λ row. id_key (error_id row) };

    ghost key_at = { 5 ∷ 6 ∷ [] };

    fn table() -> u32 {
        12
    }

    fn put_key(&self, key: &mut Row) -> Result<(), AllocError> {
        put_id(self.id(), key)
    }

    ghost ours = { refl };

    ghost indexed = { λ db all. all.errorlog };

    ghost keyed = { λ r is. ap (λ x. column x 5 ∷ column x 6 ∷ []) is };

    ghost alike = { λ a b rest tie. id_alike (error_id a) (error_id b) rest tie };

    ghost same = { λ a b rest is. subst (λ c. prefix_cmp plain (id_key (error_id a) ++ rest) (id_key c) ≡ Equal) is (id_same (error_id a) rest) };
}

impl PlacedRow for CancelledRow {
    ghost key_of = { λ row. id_key (cancelled_id row) };

    ghost key_at = { 5 ∷ 6 ∷ [] };

    fn table() -> u32 {
        16
    }

    fn put_key(&self, key: &mut Row) -> Result<(), AllocError> {
        put_id(self.id(), key)
    }

    ghost ours = { refl };

    ghost indexed = { λ db all. all.cancelled };

    ghost keyed = { λ r is. ap (λ x. column x 5 ∷ column x 6 ∷ []) is };

    ghost alike = { λ a b rest tie. id_alike (cancelled_id a) (cancelled_id b) rest tie };

    ghost same = { λ a b rest is. subst (λ c. prefix_cmp plain (id_key (cancelled_id a) ++ rest) (id_key c) ≡ Equal) is (id_same (cancelled_id a) rest) };
}

impl PlacedRow for CancelRow {
    ghost key_of = { λ row. id_key (cancel_id row) };

    ghost key_at = { 1 ∷ 2 ∷ [] };

    fn table() -> u32 {
        18
    }

    fn put_key(&self, key: &mut Row) -> Result<(), AllocError> {
        put_id(self.id(), key)
    }

    ghost ours = { refl };

    ghost indexed = { λ db all. all.cancels };

    ghost keyed = { λ r is. ap (λ x. column x 1 ∷ column x 2 ∷ []) is };

    ghost alike = { λ a b rest tie. id_alike (cancel_id a) (cancel_id b) rest tie };

    ghost same = { λ a b rest is. subst (λ c. prefix_cmp plain (id_key (cancel_id a) ++ rest) (id_key c) ≡ Equal) is (id_same (cancel_id a) rest) };
}

impl IdRow for LogRow {
    ghost id_of = { log_id };

    ghost by_id = { λ x. refl };
}

impl IdRow for BookingRow {
    ghost id_of = { booking_id };

    ghost by_id = { λ x. refl };
}

impl IdRow for ErrorRow {
    ghost id_of = { error_id };

    ghost by_id = { λ x. refl };
}

impl IdRow for CancelledRow {
    ghost id_of = { cancelled_id };

    ghost by_id = { λ x. refl };
}
