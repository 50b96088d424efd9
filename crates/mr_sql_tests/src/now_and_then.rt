// What offices are asked, and tables that are made and moved up, each between the lines `now` and `then`, so that a library under the
// program can refuse each allocation there (`tests/faults/refused_commands.py`). Behind the second line comes the reply; if that is that there is
// no memory, all that is seen of the offices, the reply once the same is asked again, and what is seen then. Elsewhere the memory is ample.

use crate::acts::{batch_for, command};
use crate::offices::{Offices, Step};
use crate::opening::Opening;
use mr_base::Refusal;
use mr_first::First;
use mr_service::{Command, Local, Reply, refusal_text, reply_text};
use mr_sql::{FirstKeeper, SqlKeeper};
use mr_store::Keeper;
use sqlite::{Alter, MemStore};
use std::alloc::Global;
use std::io::Write;
use std::process::Abort;

const NO_MEMORY: &[u8] = b"refused 24 OutOfMemory\n";

/// Where the texts go: nowhere while nobody reads them.
pub(crate) type Out<W> = Option<W>;

pub(crate) fn print<W: Write>(rt: &impl Abort, out: &mut Out<W>, text: &[u8]) {
    if let Some(out) = out {
        out.write_all(text).expect(rt, "an output that takes all");
    }
}

fn print_refusal<W: Write>(rt: &impl Abort, alloc: Global, refusal: &Refusal, out: &mut Out<W>) {
    let text = refusal_text(alloc, refusal).expect(rt, "a text");
    print(rt, out, text.as_slice());
}

/// The text of the reply, which is printed.
fn printed<W: Write>(rt: &impl Abort, alloc: Global, reply: &Reply, out: &mut Out<W>) -> Vec<u8> {
    let text = reply_text(alloc, reply).expect(rt, "a text");
    print(rt, out, text.as_slice());
    text
}

fn print_seen<K: Keeper + Drop, W: Write>(
    rt: &impl Abort,
    offices: &mut Offices<K>,
    out: &mut Out<W>,
) {
    let texts = offices.seen().expect(rt, "texts");
    print(rt, out, texts.as_slice());
}

/// What was refused is asked once more.
fn asked_again<K: Keeper + Drop, W: Write>(
    rt: &impl Abort,
    offices: &mut Offices<K>,
    (office, command): (u32, &Command),
    out: &mut Out<W>,
) -> Vec<u8> {
    print_seen(rt, offices, out);
    let reply = offices.ask(office, command);
    let text = printed(rt, offices.alloc, &reply, out);
    print_seen(rt, offices, out);
    text
}

/// Asks the office between the two lines. Answers the text of the reply.
fn asked<K: Keeper + Drop, W: Write>(
    rt: &impl Abort,
    offices: &mut Offices<K>,
    (office, command): (u32, &Command),
    out: &mut Out<W>,
) -> Vec<u8> {
    print(rt, out, b"now\n");
    let reply = offices.ask(office, command);
    print(rt, out, b"then\n");
    let text = printed(rt, offices.alloc, &reply, out);
    if text.as_slice() == NO_MEMORY {
        return asked_again(rt, offices, (office, command), out);
    }
    text
}

/// Takes a step of a script, in which a batch is delivered right after it was made. Answers what was replied last.
fn taken<K: Keeper + Drop, W: Write>(
    rt: &impl Abort,
    offices: &mut Offices<K>,
    (step, replied): (Step, Vec<u8>),
    out: &mut Out<W>,
) -> Vec<u8> {
    match step {
        Step::At(office, act) => {
            let command = command(offices.alloc, act).expect(rt, "a command");
            asked(rt, offices, (office, &command), out)
        }
        Step::Batch(from, to, lines) => {
            let position = asked(rt, offices, (to, &Command::Local(Local::Position)), out);
            let local = batch_for(position, lines).expect(rt, "a command");
            asked(rt, offices, (from, &Command::Local(local)), out)
        }
        Step::Deliver(_, to) => asked(rt, offices, (to, &Command::Receive(replied)), out),
    }
}

/// The keeper is opened between the two lines, and opened again if there was no memory.
fn opened<K: Opening + Drop, W: Write>(
    rt: &impl Abort,
    alloc: Global,
    server: u32,
    out: &mut Out<W>,
) -> K {
    print(rt, out, b"now\n");
    let opened = K::open(alloc, server);
    print(rt, out, b"then\n");
    let keeper = match opened {
        Ok(keeper) => keeper,
        Err(refusal) => {
            print_refusal(rt, alloc, &refusal, out);
            K::open(alloc, server).expect(rt, "a keeper")
        }
    };
    print(rt, out, b"ok\n");
    keeper
}

/// New offices take the steps of a script.
pub(crate) fn take_all<K: Opening + Drop, W: Write>(
    rt: &impl Abort,
    alloc: Global,
    script: &[(Step, &str)],
    out: &mut Out<W>,
) {
    let first = opened::<K, W>(rt, alloc, 1, out);
    let second = opened::<K, W>(rt, alloc, 2, out);
    let third = opened::<K, W>(rt, alloc, 3, out);
    let mut offices = Offices::over(alloc, first, second, third);
    let mut replied = Vec::new(alloc);
    for (step, _) in script {
        replied = taken(rt, &mut offices, (*step, replied), out);
    }
}

/// A database of these tables, which is made between the two lines, and made again if there was no memory.
pub(crate) fn made<W: Write>(
    rt: &impl Abort,
    alloc: Global,
    tables: &First,
    out: &mut Out<W>,
) -> FirstKeeper<MemStore> {
    print(rt, out, b"now\n");
    let made = FirstKeeper::from_tables(alloc, tables);
    print(rt, out, b"then\n");
    let first = match made {
        Ok(first) => first,
        Err(refusal) => {
            print_refusal(rt, alloc, &refusal, out);
            FirstKeeper::from_tables(alloc, tables).expect(rt, "first tables")
        }
    };
    print(rt, out, b"ok\n");
    first
}

/// What was refused is moved up once more.
fn moved_again<S: Alter + Drop>(rt: &impl Abort, first: FirstKeeper<S>) -> SqlKeeper<S> {
    match first.move_up() {
        Ok(keeper) => keeper,
        Err(_) => panic!(rt; "the tables aren't moved up"),
    }
}

/// It is moved up between the two lines, and once more if there was no memory.
pub(crate) fn moved<S: Alter + Drop, W: Write>(
    rt: &impl Abort,
    alloc: Global,
    first: FirstKeeper<S>,
    out: &mut Out<W>,
) -> SqlKeeper<S> {
    print(rt, out, b"now\n");
    let moved = first.move_up();
    print(rt, out, b"then\n");
    let keeper = match moved {
        Ok(keeper) => keeper,
        Err((first, refusal)) => {
            print_refusal(rt, alloc, &refusal, out);
            moved_again(rt, first)
        }
    };
    print(rt, out, b"ok\n");
    keeper
}
