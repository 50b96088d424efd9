// Each kind of row is copied. The memory is ample.

use crate::same::same;
use crate::tables::{Rows, tables};
use mr_base::Refusal;
use mr_replay::Place;
use mr_tables::Tables;
use std::alloc::{AllocError, Global};
use std::fmt::Debug;
use std::process::Abort;

/// One row of each table.
const ONE_EACH: Rows = Rows {
    meta: (7, 5, 9),
    vector: &[(2, 8, 1)],
    log: &[(2, 8, "1995-12-18 14:00", Place::Taken(3), 6)],
    kept_cancels: &[(4, 9, Place::Done, 0, 7)],
    booking: &[5],
    errorlog: &[(6, 2)],
    cancelled: &[(7, 4, true)],
    cancels: &[(4, 7, true, 9, 0)],
};

/// Whether the two are told alike.
fn are_alike<T: Debug>(alloc: Global, row: &T, copy: &T) -> Result<bool, AllocError> {
    let row = format!(in alloc; "{row:?}")?;
    let copy = format!(in alloc; "{copy:?}")?;
    Ok(row.as_str() == copy.as_str())
}

fn is_copied<T: Debug + Drop>(
    alloc: Global,
    row: &T,
    copy: Result<T, Refusal>,
) -> Result<bool, Refusal> {
    let copy = copy?;
    Ok(are_alike(alloc, row, &copy)?)
}

fn check_numbers(rt: &impl Abort, alloc: Global, tables: &Tables) {
    let meta = &tables.meta;
    same(
        rt,
        &is_copied(alloc, meta, meta.copy(alloc)),
        &Ok(true),
        "meta",
    );
    for row in &tables.vector {
        same(
            rt,
            &is_copied(alloc, row, row.copy(alloc)),
            &Ok(true),
            "vector",
        );
    }
}

fn check_log(rt: &impl Abort, alloc: Global, tables: &Tables) {
    for row in &tables.log {
        same(
            rt,
            &is_copied(alloc, row, row.copy(alloc)),
            &Ok(true),
            "log",
        );
    }
}

fn check_cancels(rt: &impl Abort, alloc: Global, tables: &Tables) {
    for row in &tables.cancels {
        same(
            rt,
            &is_copied(alloc, row, row.copy(alloc)),
            &Ok(true),
            "cancel",
        );
    }
}

fn check_booking(rt: &impl Abort, alloc: Global, tables: &Tables) {
    for row in &tables.booking {
        same(
            rt,
            &is_copied(alloc, row, row.copy(alloc)),
            &Ok(true),
            "booking",
        );
    }
}

fn check_errorlog(rt: &impl Abort, alloc: Global, tables: &Tables) {
    for row in &tables.errorlog {
        same(
            rt,
            &is_copied(alloc, row, row.copy(alloc)),
            &Ok(true),
            "errorlog",
        );
    }
}

fn check_cancelled(rt: &impl Abort, alloc: Global, tables: &Tables) {
    for row in &tables.cancelled {
        same(
            rt,
            &is_copied(alloc, row, row.copy(alloc)),
            &Ok(true),
            "cancelled",
        );
    }
}

#[test]
fn each_kind_of_row_is_copied(rt: HostRuntime) {
    let alloc = rt.alloc();
    let tables = tables(alloc, &ONE_EACH).expect(&rt, "tables");
    check_numbers(&rt, alloc, &tables);
    check_log(&rt, alloc, &tables);
    check_cancels(&rt, alloc, &tables);
    check_booking(&rt, alloc, &tables);
    check_errorlog(&rt, alloc, &tables);
    check_cancelled(&rt, alloc, &tables);
}
