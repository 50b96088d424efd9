// The keepers that the tests run on, each of a replica that knows nothing yet. The primary is 1.

use crate::without_desk::WithoutDesk;
use mr_base::{Refusal, ServerId};
use mr_service::Service;
use mr_sql::SqlKeeper;
use mr_store::{Keeper, ListKeeper};
use sqlite::MemStore;
use std::alloc::Global;
use std::process::Abort;

/// A keeper that can be opened for a replica that knows nothing yet.
pub(crate) trait Opening: Keeper {
    fn open(alloc: Global, server: u32) -> Result<Self, Refusal>;
}

pub(crate) fn server(number: u32) -> Result<ServerId, Refusal> {
    ServerId::new(number).ok_or(Refusal::NotAReplica)
}

impl Opening for ListKeeper {
    fn open(alloc: Global, number: u32) -> Result<ListKeeper, Refusal> {
        Ok(ListKeeper::new(alloc, server(number)?, server(1)?))
    }
}

impl Opening for WithoutDesk {
    fn open(alloc: Global, number: u32) -> Result<WithoutDesk, Refusal> {
        let lists = ListKeeper::new(alloc, server(number)?, server(1)?);
        Ok(WithoutDesk::new(lists))
    }
}

impl Opening for SqlKeeper<MemStore> {
    fn open(alloc: Global, number: u32) -> Result<SqlKeeper<MemStore>, Refusal> {
        SqlKeeper::open_in_memory(alloc, server(number)?, server(1)?)
    }
}

/// The replica of this server over a new keeper.
pub(crate) fn new_service<K: Opening + Drop>(
    rt: &impl Abort,
    alloc: Global,
    server: u32,
) -> Service<K> {
    Service::new(alloc, K::open(alloc, server).expect(rt, "a keeper"))
}
