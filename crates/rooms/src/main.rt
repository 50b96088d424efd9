//! The program: its words go to `mr::command`, and without any word standard input is rehearsed.
#![tactic(auto)]

use mr::WordFault;
use std::process::ExitCode;
use std::{env, io};

fn main(rt: HostRuntime) -> ExitCode {
    let mut out = io::writer(&rt);
    ExitCode::from(match words(&rt) {
        Ok(words) if words.is_empty() => mr::rehearse(rt.alloc(), rt.reader(), &mut out),
        Ok(words) => mr::command(&rt, rt.alloc(), words.as_slice(), &mut out),
        Err(fault) => mr::say_word_fault(fault, &mut out),
    })
}

// The words after the program's name.
fn words(rt: &HostRuntime) -> Result<Vec<String>, WordFault> {
    match env::args(rt) {
        Ok(args) => Ok(args.skip(1).collect(rt.alloc())?),
        Err(error) => Err(match error.kind() {
            io::ErrorKind::OutOfMemory => WordFault::Memory,
            _ => WordFault::Bad,
        }),
    }
}
