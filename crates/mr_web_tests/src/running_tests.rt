// Lists of commands and the texts of their replies, over a keeper of lists. The memory is ample.

use crate::asking_tests::service;
use crate::commands::{Asked, command};
use crate::same::{same, same_text};
use crate::uses::add_text;
use mr_base::Refusal;
use mr_service::{Command, Reply, run, run_over_lists};
use std::alloc::Global;
use std::process::Abort;

static ASKED: [Asked; 5] = [
    Asked::AddRoom,
    Asked::Book("13:30", "Budget Meeting"),
    Asked::Sheet,
    Asked::Outcome("9-9"),
    Asked::Errors,
];

/// What they are replied, one after the other.
const WANTED: &str =
    "ok\n1-1 T 1995-12-18 13:30-14:30\noak 1995-12-18 Monday\n13:30-14:30 T 1-1 Budget Meeting\nrefused 9 NoSuchRequest\noak errors\n(no errors)\n";

fn commands(rt: &impl Abort, alloc: Global) -> Vec<Command> {
    let mut commands = Vec::new(alloc);
    for asked in &ASKED {
        commands
            .push(command(rt, alloc, *asked))
            .expect(rt, "memory");
    }
    commands
}

/// What the primary replies, before it knows anything.
fn replies(rt: &impl Abort, alloc: Global, commands: &[Command]) -> Result<Vec<Reply>, Refusal> {
    let mut lists = service(rt, alloc, 1);
    run(alloc, &mut lists, commands)
}

fn replies_over_lists(
    rt: &impl Abort,
    alloc: Global,
    commands: &[Command],
) -> Result<Vec<Reply>, Refusal> {
    let mut lists = service(rt, alloc, 1);
    run_over_lists(alloc, &mut lists, commands)
}

/// The texts of the replies, one after the other.
fn texts(alloc: Global, replies: &[Reply]) -> Result<Vec<u8>, Refusal> {
    let mut texts = Vec::new(alloc);
    for reply in replies {
        add_text(alloc, &mut texts, reply)?;
    }
    Ok(texts)
}

/// There are as many replies as commands, and they have the texts that are wanted.
fn check(rt: &impl Abort, alloc: Global, replies: &[Reply]) {
    same(rt, &replies.len(), &ASKED.len(), "replies");
    same_text(rt, &texts(alloc, replies), WANTED);
}

#[test]
fn each_command_of_a_list_has_its_reply(rt: HostRuntime) {
    let commands = commands(&rt, rt.alloc());
    let replies = replies(&rt, rt.alloc(), commands.as_slice()).expect(&rt, "replies");
    check(&rt, rt.alloc(), replies.as_slice());
}

#[test]
fn over_lists_each_command_has_its_reply(rt: HostRuntime) {
    let commands = commands(&rt, rt.alloc());
    let replies = replies_over_lists(&rt, rt.alloc(), commands.as_slice()).expect(&rt, "replies");
    check(&rt, rt.alloc(), replies.as_slice());
}
