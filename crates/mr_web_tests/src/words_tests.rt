// What the program's words and lines can't show: a command line without words, which the program never makes, and a line for which there was no memory.

use crate::connections::writer_of;
use crate::same::same;
use mr_words::{DONE, WordFault, invocation, say_made};
use std::alloc::{AllocError, Global};

fn fault_of_no_words(alloc: Global) -> Option<WordFault> {
    invocation(alloc, &[]).err()
}

#[test]
fn no_words_are_no_command_line(rt: HostRuntime) {
    let fault = fault_of_no_words(rt.alloc());
    same(&rt, &fault, &Some(WordFault::Bad), "no words");
}

#[test]
fn a_line_without_memory_is_a_refusal(rt: HostRuntime) {
    let mut out = Vec::new(rt.alloc());
    let status = say_made(&mut out, Err(AllocError), DONE);
    same(&rt, &status, &1, "the status");
    let mut full = writer_of(rt.alloc(), 0);
    let status = say_made(&mut full, Err(AllocError), DONE);
    same(&rt, &status, &3, "the status if it isn't taken");
    same(
        &rt,
        &out.as_slice(),
        &b"refused 24 OutOfMemory\n".as_slice(),
        "the line",
    );
}
