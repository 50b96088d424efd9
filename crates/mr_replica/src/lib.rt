//! A replica's tables in memory, with an index and a board, and the desk over them: each of its calls makes the part that it needs.
//! It stands on `mr_part` and `mr_audit`; the keepers of `mr_store` stand above. README.md has lines of use, and what is proved.
#![tactic(auto)]

mod calls;
mod desk;
mod from_tables;
mod indexed;
mod journal;
mod known;
mod memory;
mod order;
mod puts;
mod questions;
mod row_key;
mod shared_board;
mod shared_log;
mod writes;

ghost use Rattle.mr_part.specs.Steps.{SubmissionsAreRequests, CancelsAreRequests, OtherCancelsAreRefused};

pub use desk::Desk;
pub use memory::Memory;
pub use questions::{Answer, Question};

/// A submission in words, if nothing is wrong with them, is the request that they make. A cancel in words whose first word is a room's
/// name is that of the id in the second, or is refused if that is none.
pub fn submission_law()
    ensures submission { SubmissionsAreRequests }
    ensures cancellation { CancelsAreRequests }
    ensures others { OtherCancelsAreRefused }
{}
