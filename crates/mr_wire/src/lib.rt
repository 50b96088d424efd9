//! Exchange texts and position texts, of two versions, written as lines and read back from bytes of any kind.
//! It stands on `mr_base`; the service, the words of commands and the network stand on it. README.md has lines of use, and what is proved.
#![tactic(auto)]

mod batches;
mod fault;
mod fields;
mod lines;
mod positions;
mod versions;
mod words;
mod writing;

pub use batches::read_batch;
pub use fields::{behind_word, number_off};
pub use positions::read_position;
pub use writing::{write_batch, write_position};
