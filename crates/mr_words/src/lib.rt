//! What a command is asked and what it prints: the words of a command line, those of a script's commands and a peer's address, read as values;
//! lines, texts of replies and of refusals, to any writer, and the statuses. It stands on `mr_service`; the program's commands stand above (`mr`,
//! `mr_net`). README.md has lines of use, and what is proved.
#![tactic(auto)]

mod address;
mod commands;
mod grammar;
mod invocations;
mod invoke;
mod names;
mod rows;
mod saying;
mod words;

pub use address::{AddressFault, peer_address};
pub use commands::{add_room, shared_command};
pub use invocations::{Invocation, Task, WordFault};
pub use invoke::{command_lines_read_back, invocation};
pub use names::BOOK;
pub use saying::{
    BAD_WORDS, DONE, FAULT, NO_MEMORY, REFUSED, say, say_made, say_refusal, say_reply, say_text,
};
pub use words::{read_count, read_line_count, read_server};
