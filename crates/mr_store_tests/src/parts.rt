// Batches that a part of tables receives: what it answers, and which rows its change puts.

use crate::builders::{Ask, Line};
use crate::calls::KEPT;
use crate::desks::{NO_ERROR, NONE, NOTHING, Put, Told, batch, puts};
use crate::same::same;
use crate::tables::{Rows, tables};
use mr_base::{Batch, Refusal};
use mr_part::{Part, Scope};
use mr_tables::Change;
use mr_tables::boards::board_with;
use std::alloc::Global;
use std::rc::Rc;

const AT_TWO_ELSE_FOUR: Ask = Ask {
    title: "Alpha",
    length: 60,
    wish: 840,
    others: &[960],
};

/// A batch for the replicas of a primary, what a part answers to it, and which rows the change puts.
type Case = (u32, &'static [Line], Result<Told, Refusal>, Put);

static CASES: [Case; 9] = [
    (0, &[], Ok((0, 0)), NOTHING),
    (2, &[Line::C(2, 2, 1)], Err(Refusal::WrongPrimary), NOTHING),
    (1, &[Line::C(1, 3, 1)], Ok((0, 0)), NOTHING),
    (1, &[Line::C(1, 2, 1)], Err(Refusal::Forged(2)), NOTHING),
    (1, &[Line::C(3, 2, 1)], Err(Refusal::Gap(2)), NOTHING),
    (1, &[Line::C(2, 2, 1)], Ok((0, 1)), (NONE, NONE, (2, 1, 2))),
    // The write of server 2 stands behind this one, and is executed anew: it stays in the error log, and isn't put.
    (
        1,
        &[Line::W(1, 1, 1, AT_TWO_ELSE_FOUR)],
        Ok((1, 0)),
        ((1, 1, 960), NONE, NO_ERROR),
    ),
    // A cancel before what it is of, which is logged, and one behind what it takes back.
    (1, &[Line::X(1, 1, 1, 2, 1)], Ok((1, 0)), NOTHING),
    (1, &[Line::X(1, 1, 3, 3, 1)], Ok((1, 0)), NOTHING),
];

fn received(alloc: Global, rows: &Rows, batch: &Batch) -> Result<(Told, Change), Refusal> {
    let tables = tables(alloc, rows)?;
    let part = Part::from_tables(alloc, &Scope::Items(&batch.items), &tables)?;
    let (writes, commits, change) = part.receive(batch)?;
    Ok(((writes, commits), change))
}

/// The same over a board of all bookings, which is shared.
fn received_over(alloc: Global, rows: &Rows, batch: &Batch) -> Result<(Told, Change), Refusal> {
    let tables = tables(alloc, rows)?;
    let board = Rc::new(alloc, board_with(alloc, &tables)?)?;
    let part = Part::over_board(alloc, &Scope::Items(&batch.items), &tables, board)?;
    let (writes, commits, change) = part.receive(batch)?;
    Ok(((writes, commits), change))
}

/// Whether a part answered so, and its change puts these rows.
fn is_answered(
    answer: Result<(Told, Change), Refusal>,
    wanted: Result<Told, Refusal>,
    put: Put,
) -> bool {
    match answer {
        Ok((told, change)) => wanted == Ok(told) && puts(&change, put),
        Err(refusal) => wanted == Err(refusal),
    }
}

/// Whether a part with a board of its own and one over a shared board answer so, and their changes put these rows.
fn is_received(alloc: Global, (primary, lines, wanted, put): Case) -> Result<bool, Refusal> {
    let batch = batch(alloc, primary, lines)?;
    let alone = is_answered(received(alloc, &KEPT, &batch), wanted, put);
    let shared = is_answered(received_over(alloc, &KEPT, &batch), wanted, put);
    Ok(alone && shared)
}

#[test]
fn parts_receive(rt: HostRuntime) {
    for (index, case) in CASES.iter().enumerate() {
        same(&rt, &is_received(rt.alloc(), *case), &Ok(true), index);
    }
}
