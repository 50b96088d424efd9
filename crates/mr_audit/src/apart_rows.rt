ghost use Rattle.std.specs.Prelude.{◌≡◌, true, map, IfOk, IfErr};
ghost use Rattle.std.specs.List.{list_all};
ghost use Rattle.std.specs.List.Sorted.{IsPermutation, IsSortedBy};
ghost use Rattle.std.specs.Ordering.{is_lt};
ghost use Rattle.mr_agree.specs.Agreeing.{do_rows_overlap, are_rows_apart};
ghost use Rattle.mr_audit.specs.Apart.{apart, place_cmp, start_cmp, is_next_booking, is_positive};

use mr_base::Refusal;
use mr_tables::BookingRow;
use std::alloc::Global;
use std::cmp::Ordering;

/// Whether no two of the bookings overlap, each of which is to end later than it begins. It takes a word for each.
pub fn are_rows_apart(alloc: Global, rows: &[BookingRow]) -> Result<bool, Refusal>
    ensures apart { list_all is_positive rows.now ≡ true → IfOk result (λ is_so. is_so ≡ are_rows_apart rows.now) }
    ensures only { IfErr result (λ e. e ≡ Refusal.OutOfMemory) }
{
    let mut sorted = references(alloc, rows)?;
    sort_rows(&mut sorted);
    Ok(is_each_over(&sorted))
}

fn references<'a>(alloc: Global, rows: &'a [BookingRow]) -> Result<Vec<&'a BookingRow>, Refusal>
    ensures rows { IfOk result (λ all. map (λ row. row.now) all.items ≡ rows.now) }
    ensures only { IfErr result (λ e. e ≡ Refusal.OutOfMemory) }
{
    let mut all = Vec::new(alloc);
    for row in rows {
        all.push(row)?;
    }
    Ok(all)
}

fn sort_rows(rows: &mut Vec<&BookingRow>)
    ensures moved { IsPermutation rows.old.items rows.new.items }
    ensures sorted { IsSortedBy (λ a b. is_lt (start_cmp a.now b.now)) rows.new.items }
{
    rows.sort_unstable_by(|a, b| compare(*a, *b));
}

fn compare(a: &BookingRow, b: &BookingRow) -> Ordering
    ensures { result ≡ start_cmp a.now b.now }
{
    compare_places(a, b).then(a.start.cmp(&b.start))
}

fn compare_places(a: &BookingRow, b: &BookingRow) -> Ordering
    ensures { result ≡ place_cmp a.now b.now }
{
    a.room.cmp(&b.room).then(a.day.cmp(&b.day))
}

/// Whether each of sorted bookings is over when the next one of its room begins.
fn is_each_over(rows: &[&BookingRow]) -> bool
    ensures { IsSortedBy (λ a b. is_lt (start_cmp a.now b.now)) rows.now → list_all (λ row. is_positive row.now) rows.now ≡ true
        → result ≡ apart (λ a b. do_rows_overlap a.now b.now) rows.now }
{
    rows.is_sorted_by(|one, next| is_next(*one, *next))
}

fn is_next(one: &BookingRow, next: &BookingRow) -> bool
    ensures { result ≡ is_next_booking one.now next.now }
{
    let is_over = one.stop <= next.start;
    match compare_places(one, next) {
        Ordering::Less => true,
        Ordering::Equal => is_over,
        Ordering::Greater => false,
    }
}
