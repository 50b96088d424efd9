ghost use Rattle.std.specs.Prelude.{◌≡◌, OnOk};
ghost use Rattle.std.specs.List.Sorted.{IsPermutation, IsSorted};
ghost use Rattle.mr_rows.specs.Kept.{order_by};

use mr_tables::TableRow;
use std::alloc::AllocError;
use std::cmp::Ordering;

/// Compares the keys.
fn compare<R: TableRow>(a: &R, b: &R) -> Ordering
    ensures { result ≡ order_by (λ a b. R.before (R.key a) (R.key b)) a.now b.now }
{
    if a.is_before(b) {
        Ordering::Less
    } else if b.is_before(a) {
        Ordering::Greater
    } else {
        Ordering::Equal
    }
}

/// Sorts the rows by their keys.
pub(crate) fn sort_rows<R: TableRow>(rows: &mut Vec<R>) -> Result<(), AllocError>
    ensures same { IsPermutation rows.old.items rows.new.items }
    ensures sorted { OnOk result (IsSorted (order_by (λ a b. R.before (R.key a) (R.key b))) rows.new.items) }
{
    rows.sort_by(|a, b| compare(a, b))
}
