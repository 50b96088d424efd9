//! Whether the rows of tables agree with each other: the test of what `mr_agree` defines, part by part.
//!
//! It stands on `mr_tables`, whose rows it reads, and on `mr_agree`; `mr_replica` and `mr_first` test whole tables
//! by it. The contract is that of `do_tables_agree`. Two parts take memory: those sort small keys of rows.
#![tactic(auto)]

mod agreeing;
mod apart_rows;
mod cancels;
mod commit_numbers;
mod id_rows;
mod ids;
mod known;
mod limits;
mod log;
mod marks;
mod note_rows;
mod places;
mod rooms;
mod spans;
mod texts;
mod times;
mod turns;
mod vector;

pub use agreeing::do_tables_agree;
