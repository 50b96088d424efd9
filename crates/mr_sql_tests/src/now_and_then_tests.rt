// Six scripts over lists and over databases in memory, and two databases of the first schema that move up. `tests/faults/refused_commands.py` runs
// each of these tests by its name, with allocations refused, and compares what it prints with what a plain form of scripts replies. It sets
// the variable ROOMS_TELL, without which nothing is printed.

use crate::acts::seen;
use crate::moving_tests::{split, truncated, with_elm};
use crate::now_and_then::{Out, made, moved, print, take_all};
use crate::opening::Opening;
use crate::scripts::{CHAIN, EQUAL_TIMES, MADE_VOID, TAKEN_BACK, TRUNCATED, TURNED};
use mr_service::Service;
use mr_sql::SqlKeeper;
use mr_store::{Keeper, ListKeeper};
use sqlite::MemStore;
use std::alloc::Global;
use std::env;
use std::io::{self, Printer, Write};
use std::process::Abort;

fn heard(rt: &HostRuntime) -> Out<Printer<'_, HostRuntime>> {
    match env::var(rt, "ROOMS_TELL") {
        Ok(_) => Some(io::writer(rt)),
        Err(_) => None,
    }
}

/// In the order in which the caller has the files of the scripts.
fn take_scripts<K: Opening + Drop, W: Write>(rt: &impl Abort, alloc: Global, out: &mut Out<W>) {
    for script in [
        &EQUAL_TIMES[..],
        &TURNED[..],
        &CHAIN[..],
        &TRUNCATED[..],
        &MADE_VOID[..],
        &TAKEN_BACK[..15],
    ] {
        take_all::<K, W>(rt, alloc, script, out);
    }
}

#[test]
fn scripts_over_lists(rt: HostRuntime) {
    take_scripts::<ListKeeper, _>(&rt, rt.alloc(), &mut heard(&rt));
}

#[test]
fn scripts_over_databases(rt: HostRuntime) {
    take_scripts::<SqlKeeper<MemStore>, _>(&rt, rt.alloc(), &mut heard(&rt));
}

fn print_seen<K: Keeper + Drop, W: Write>(
    rt: &impl Abort,
    alloc: Global,
    keeper: K,
    out: &mut Out<W>,
) {
    let mut service = Service::new(alloc, keeper);
    let texts = seen(alloc, &mut service).expect(rt, "texts");
    print(rt, out, texts.as_slice());
}

/// The replica's tables, as those of the first schema, are moved up.
fn move_up<W: Write>(
    rt: &impl Abort,
    alloc: Global,
    service: Service<ListKeeper>,
    out: &mut Out<W>,
) {
    let (tables, _) = split(rt, alloc, service);
    let first = made(rt, alloc, &tables, out);
    print_seen(rt, alloc, moved(rt, alloc, first, out), out);
}

#[test]
fn first_tables_that_move_up(rt: HostRuntime) {
    let (alloc, mut out) = (rt.alloc(), heard(&rt));
    move_up(&rt, alloc, with_elm(&rt, alloc), &mut out);
    move_up(&rt, alloc, truncated(&rt, alloc), &mut out);
}
