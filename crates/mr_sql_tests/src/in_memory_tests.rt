// A list of commands over tables in memory. What is wanted is worked by hand.

use crate::acts::{Act, command};
use crate::in_memory::run_in_memory;
use crate::opening::server;
use crate::same_text::same_text;
use mr_base::Refusal;
use mr_service::{Command, Reply, reply_text};
use std::alloc::Global;

static ACTS: [Act; 6] = [
    Act::Room("oak"),
    Act::Commit(5),
    Act::Book("60", "13:30", &[], "Budget Meeting"),
    Act::Sheet,
    Act::Truncate(1),
    Act::Position,
];

/// What replica 2, which isn't the primary, replies to these.
const WANTED: &str =
    "ok\nrefused 10 NotPrimary\n2-1 T 1995-12-18 13:30-14:30\noak 1995-12-18 Monday\n13:30-14:30 T 2-1 Budget Meeting\nrefused 12 BeyondCommitted\nmp2 2 1\nK 0\nV 2 1\nE\n";

fn commands(alloc: Global) -> Result<Vec<Command>, Refusal> {
    let mut commands = Vec::new(alloc);
    for act in &ACTS {
        commands.push(command(alloc, *act)?)?;
    }
    Ok(commands)
}

fn replies(alloc: Global) -> Result<Vec<Reply>, Refusal> {
    let commands = commands(alloc)?;
    run_in_memory(alloc, server(2)?, server(1)?, commands.as_slice())
}

/// The texts of the replies, one after the other.
fn texts(alloc: Global) -> Result<Vec<u8>, Refusal> {
    let replies = replies(alloc)?;
    let mut texts = Vec::new(alloc);
    for reply in replies.as_slice() {
        texts.extend_from_slice(reply_text(alloc, reply)?.as_slice())?;
    }
    Ok(texts)
}

#[test]
fn each_command_over_tables_in_memory_has_its_reply(rt: HostRuntime) {
    same_text(&rt, &texts(rt.alloc()), WANTED);
}
