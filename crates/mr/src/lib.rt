//! Command lines of the program `rooms`: words in, lines and a status out.
//! It stands on `mr_tasks`, which does what is asked of a database or a script, and on `mr_net`; the program stands above. README.md has lines of use, and what
//! is proved.
#![tactic(auto)]

mod commands;

pub use commands::{command, say_word_fault};
pub use mr_tasks::{ScriptFault, read_script, rehearse, scripts_are_read_one_way};
pub use mr_words::{AddressFault, Invocation, Task, WordFault, invocation, peer_address};
