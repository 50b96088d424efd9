// What the tests ask of a replica, in a few words, and the commands for it. The room is oak, and the day one Monday. The memory is ample.

use mr_service::{Command, Local, SlotWords, Submission};
use std::alloc::Global;
use std::process::Abort;

/// What a replica is asked about oak.
#[derive(Clone, Copy)]
pub(crate) enum Asked {
    AddRoom,
    /// An hour from this time on.
    Book(&'static str, &'static str),
    Sheet,
    Outcome(&'static str),
    Errors,
}

fn text(rt: &impl Abort, alloc: Global, text: &str) -> String {
    String::from_str(alloc, text).expect(rt, "memory")
}

fn room(rt: &impl Abort, alloc: Global) -> String {
    text(rt, alloc, "oak")
}

fn day(rt: &impl Abort, alloc: Global) -> String {
    text(rt, alloc, "1995-12-18")
}

fn booking(rt: &impl Abort, alloc: Global, time: &str, title: &str) -> Local {
    Local::Submit(Submission {
        room: room(rt, alloc),
        title: text(rt, alloc, title),
        length: text(rt, alloc, "60"),
        wish: SlotWords {
            day: day(rt, alloc),
            time: text(rt, alloc, time),
        },
        alternatives: Vec::new(alloc),
    })
}

pub(crate) fn command(rt: &impl Abort, alloc: Global, asked: Asked) -> Command {
    let local = match asked {
        Asked::AddRoom => Local::AddRoom(room(rt, alloc)),
        Asked::Book(time, title) => booking(rt, alloc, time, title),
        Asked::Sheet => Local::Sheet {
            room: room(rt, alloc),
            day: day(rt, alloc),
        },
        Asked::Outcome(id) => Local::Outcome {
            room: room(rt, alloc),
            id: text(rt, alloc, id),
        },
        Asked::Errors => Local::Errors {
            room: room(rt, alloc),
        },
    };
    Command::Local(local)
}
