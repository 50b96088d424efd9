// The scripts over lists that load no desk; and, over lists and over a database in memory, the desks that are loaded afterwards. The memory is ample.

use crate::acts::{Act, said};
use crate::offices::{Offices, opened};
use crate::opening::Opening;
use crate::same_text::{same_text, same_texts};
use crate::scripts::{
    CHAIN, COMMITTED_FIRST, EQUAL_TIMES, MADE_VOID, MET, Row, TAKEN_BACK, TRUNCATED, TURNED,
};
use crate::without_desk::WithoutDesk;
use mr_base::Refusal;
use mr_service::{Reply, Service, reply_text};
use mr_sql::SqlKeeper;
use mr_store::{Keeper, ListKeeper};
use sqlite::MemStore;
use std::alloc::Global;
use std::process::Abort;

/// New offices reply so, step by step.
fn check_new<K: Opening + Drop>(rt: &impl Abort, alloc: Global, script: &[Row]) -> Offices<K> {
    let mut offices = opened::<K>(alloc).expect(rt, "offices");
    for (step, want) in script {
        same_text(rt, &offices.take(*step), want);
    }
    offices
}

fn check_all<K: Opening + Drop>(rt: &impl Abort, alloc: Global) {
    for script in [
        &EQUAL_TIMES[..],
        &TURNED[..],
        &CHAIN[..],
        &TRUNCATED[..],
        &MET[..],
        &TAKEN_BACK[..],
        &MADE_VOID[..],
        &COMMITTED_FIRST[..],
    ] {
        check_new::<K>(rt, alloc, script);
    }
}

#[test]
fn scripts_need_no_desk(rt: HostRuntime) {
    check_all::<WithoutDesk>(&rt, rt.alloc());
}

/// The text of the position of the desk that is loaded.
fn loaded_position<K: Keeper>(alloc: Global, keeper: &mut K) -> Result<Vec<u8>, Refusal> {
    let position = match keeper.load() {
        Ok(desk) => desk.position()?,
        Err(fault) => return Err(Refusal::from(fault)),
    };
    reply_text(alloc, &Reply::Position(position))
}

/// The position of the desk that is loaded is the one that is replied.
fn check_position<K: Keeper + Drop>(rt: &impl Abort, alloc: Global, mut service: Service<K>) {
    let replied = said(alloc, &mut service, Act::Position);
    let mut keeper = service.into_keeper();
    same_texts(rt, &loaded_position(alloc, &mut keeper), &replied);
}

/// After the script each office has its desk.
fn check_desks<K: Opening + Drop>(rt: &impl Abort, alloc: Global, script: &[Row]) {
    let Offices {
        first,
        second,
        third,
        ..
    } = check_new::<K>(rt, alloc, script);
    check_position(rt, alloc, first);
    check_position(rt, alloc, second);
    check_position(rt, alloc, third);
}

fn check_all_desks<K: Opening + Drop>(rt: &impl Abort, alloc: Global) {
    for script in [
        &TURNED[..],
        &TRUNCATED[..],
        &MET[..],
        &TAKEN_BACK[..],
        &MADE_VOID[..],
    ] {
        check_desks::<K>(rt, alloc, script);
    }
}

#[test]
fn offices_that_exchanged_have_their_desks(rt: HostRuntime) {
    check_all_desks::<ListKeeper>(&rt, rt.alloc());
    check_all_desks::<SqlKeeper<MemStore>>(&rt, rt.alloc());
}
