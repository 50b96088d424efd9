// Replica 2 of primary 1 in a database on two files, from opening them to giving them up. What is done with the database in between is for any
// store: a call that is made of a store of files is dear to prove, wherever it stands, so `on_files` makes the only one. On no way out is a keeper
// dropped: what it holds would have to be proved to be dropped rightly once more.

use crate::acts::{Act, said, seen};
use crate::branch_tests::pulled_text;
use crate::first_files::fill;
use crate::layouts::{Layout, layout};
use crate::opening::server;
use crate::same_text::{holds, is_text};
use mr_base::Refusal;
use mr_service::Service;
use mr_sql::SqlKeeper;
use mr_store::Keeper;
use sqlite::{Alter, Connection, FileStore, Files, Options};
use sqlite_disk::{Disk, Fuse, Memory};
use std::alloc::Global;
use std::process::Abort;

/// What is done with a database.
#[derive(Clone, Copy)]
pub(crate) enum Deed {
    /// The replica is asked this, and has this reply.
    Ask(Act, &'static str),
    /// All that is seen of the replica is asked.
    See,
    /// Its tables are counted.
    Count,
    /// The tables of the first schema are made.
    Fill,
}

/// What came of it.
#[derive(Drop)]
pub(crate) enum Came {
    /// Whether the replica had its reply.
    Replied(bool),
    Seen(Result<Vec<u8>, Refusal>),
    Counted(Option<Layout>),
    Filled,
    /// Nothing, since the files can't be opened, or have no such replica.
    Nothing,
}

/// A connection to the database in the files, or the files if it can't be opened.
fn connected<D: Disk + Drop>(
    alloc: Global,
    files: Files<D>,
) -> Result<Connection<FileStore<D>>, Files<D>> {
    if !files.may_be_used() {
        return Err(files);
    }
    match Connection::open_files(alloc, files, Options::new(1)) {
        Ok(conn) => Ok(conn),
        Err((_, left)) => Err(left.into_files()),
    }
}

/// Closes the database, with what its log holds copied into it if it can be; gives the files up.
fn closed<D: Disk + Drop>(left: Result<Connection<FileStore<D>>, FileStore<D>>) -> Files<D> {
    match left {
        Ok(conn) => match conn.close_files() {
            Ok(files) => files,
            Err((_, store)) => store.close(),
        },
        Err(store) => store.close(),
    }
}

/// The replica in the database, or the store if it can't be adopted.
fn adopted<S: Alter + Drop>(
    alloc: Global,
    conn: Connection<S>,
) -> Result<Service<SqlKeeper<S>>, S> {
    let (Ok(own), Ok(primary)) = (server(2), server(1)) else {
        return Err(conn.into_store());
    };
    match SqlKeeper::adopt(alloc, conn, own, primary) {
        Ok(keeper) => Ok(Service::new(alloc, keeper)),
        Err((_, Ok(conn))) => Err(conn.into_store()),
        Err((_, Err(store))) => Err(store),
    }
}

/// Whether this is the reply. If a call of the files failed it is the store's fault.
fn is_reply(rt: &impl Abort, text: &Result<Vec<u8>, Refusal>, want: &str) -> bool {
    let is_wanted = is_text(text, want.as_bytes());
    holds(rt, is_wanted || is_text(text, b"refused 25 Store\n"), want);
    is_wanted
}

/// What the replica says to this, or takes of a pull.
fn told<K: Keeper>(alloc: Global, service: &mut Service<K>, act: Act) -> Result<Vec<u8>, Refusal> {
    match act {
        Act::Pull => pulled_text(alloc, service),
        _ => said(alloc, service, act),
    }
}

/// Asks the replica, and gives the connection back.
fn replied<S: Alter + Drop>(
    rt: &impl Abort,
    alloc: Global,
    conn: Connection<S>,
    (act, want): (Act, &str),
) -> (Came, Result<Connection<S>, S>) {
    match adopted(alloc, conn) {
        Ok(mut service) => {
            let text = told(alloc, &mut service, act);
            let conn = service.into_keeper().release();
            (Came::Replied(is_reply(rt, &text, want)), Ok(conn))
        }
        Err(store) => (Came::Replied(false), Err(store)),
    }
}

/// What is seen of the replica.
fn shown<S: Alter + Drop>(alloc: Global, conn: Connection<S>) -> (Came, Result<Connection<S>, S>) {
    match adopted(alloc, conn) {
        Ok(mut service) => {
            let texts = seen(alloc, &mut service);
            (Came::Seen(texts), Ok(service.into_keeper().release()))
        }
        Err(store) => (Came::Nothing, Err(store)),
    }
}

fn counted<S: Alter + Drop>(mut conn: Connection<S>) -> (Came, Result<Connection<S>, S>) {
    let found = layout(&mut conn);
    (Came::Counted(found), Ok(conn))
}

fn filled<S: Alter + Drop>(
    rt: &impl Abort,
    mut conn: Connection<S>,
) -> (Came, Result<Connection<S>, S>) {
    fill(rt, &mut conn);
    (Came::Filled, Ok(conn))
}

fn done<S: Alter + Drop>(
    rt: &impl Abort,
    alloc: Global,
    conn: Connection<S>,
    deed: Deed,
) -> (Came, Result<Connection<S>, S>) {
    match deed {
        Deed::Ask(act, want) => replied(rt, alloc, conn, (act, want)),
        Deed::See => shown(alloc, conn),
        Deed::Count => counted(conn),
        Deed::Fill => filled(rt, conn),
    }
}

/// Opens the database in the files, does that with it, and gives the files up.
pub(crate) fn on_files<D: Disk + Drop>(
    rt: &impl Abort,
    alloc: Global,
    files: Files<D>,
    deed: Deed,
) -> (Came, Files<D>) {
    match connected(alloc, files) {
        Ok(conn) => {
            let (came, left) = done(rt, alloc, conn, deed);
            (came, closed(left))
        }
        Err(files) => (Came::Nothing, files),
    }
}

/// Asks the replica in the files, and gives them up. Answers whether it had its reply, and the files.
pub(crate) fn asked(
    rt: &impl Abort,
    alloc: Global,
    files: Files<Fuse<Memory>>,
    (act, want): (Act, &'static str),
) -> (bool, Files<Fuse<Memory>>) {
    let (came, files) = on_files(rt, alloc, files, Deed::Ask(act, want));
    (matches!(came, Came::Replied(true)), files)
}

/// What is seen of the replica in the files once they are opened.
pub(crate) fn seen_in(
    rt: &impl Abort,
    alloc: Global,
    files: Files<Fuse<Memory>>,
) -> Result<Vec<u8>, Refusal> {
    let (came, _) = on_files(rt, alloc, files, Deed::See);
    match came {
        Came::Seen(texts) => texts,
        _ => Err(Refusal::Store),
    }
}
